use std::cmp::Ordering;
use std::test::Fail;
use up_frac::{Frac, FracError};

#[test]
fn fractions_are_exact(rt: HostRuntime) -> Result<(), Fail> {
    let half = Frac::new(1, 2)?;
    let third = Frac::new(-2, -6)?;
    let sum = half.add(third)?;
    assert_eq!(rt; (sum.numerator(), sum.denominator()), (5, 6));
    let less = third.sub(half)?;
    assert_eq!(rt; (less.numerator(), less.denominator()), (-1, 6));
    let product = less.mul(Frac::new(3, 5)?)?;
    assert_eq!(rt; (product.numerator(), product.denominator()), (-1, 10));
    let quotient = half.div(less)?;
    assert_eq!(rt; (quotient.numerator(), quotient.denominator()), (-3, 1));
    assert!(rt; matches!(third.compare(half), Ordering::Less));
    Ok(())
}

#[test]
fn refusals(rt: HostRuntime) -> Result<(), Fail> {
    let two = Frac::new(2, 1)?;
    let zero = Frac::new(0, -7)?;
    let large = Frac::new(1 << 61, 1)?;
    assert!(rt; matches!(large.mul(two), Err(FracError::TooLarge)));
    assert!(rt; matches!(Frac::new(1 << 62, 1), Err(FracError::TooLarge)));
    assert!(rt; matches!(Frac::new(1, 0), Err(FracError::ZeroDivisor)));
    assert!(rt; matches!(two.div(zero), Err(FracError::ZeroDivisor)));
    Ok(())
}
