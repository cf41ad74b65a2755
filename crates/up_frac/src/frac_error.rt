use thiserror::Error;

/// Why a fraction is not made.
#[derive(Clone, Copy, Debug, PartialEq, Eq, Error)]
pub enum FracError {
    /// The divisor is 0.
    #[error("division by zero")]
    ZeroDivisor,
    /// The numerator or the denominator of the reduced value is at least 2^62 in size.
    #[error("a number is too large")]
    TooLarge,
}
