ghost use Rattle.std.specs.Prelude.{◌≡◌, IfOk, OnErr, IsErrOf};
ghost use Rattle.up_frac.specs.Arithmetic as fraction;
ghost use Rattle.up_tree.specs.Value.{number};
ghost use Rattle.up_tree.specs.Big.{BigExpr, IsBigNumber};
ghost use Rattle.up_eval.specs.Scope.{assignment_of};
ghost use Rattle.up_eval.specs.Numbers.{fluent_value, sum_of, difference_of, product_of, quotient_of};

use crate::error::{TooLarge, TruthError};
use crate::scope::Binding;
use crate::state::State;
use std::alloc::Global;
use up_frac::{Frac, FracError};
use up_text::{Memory, Name};
use up_tree::{Expr, Term};

pub(crate) fn sum_of(a: Option<Frac>, b: Option<Frac>) -> Result<Option<Frac>, TooLarge>
    ensures value { IfOk result (λ n. n ≡ sum_of a b) }
    ensures too_large { OnErr result (IsBigNumber (sum_of a b)) }
{
    match (a, b) {
        (Some(x), Some(y)) => match x.add(y) {
            Ok(sum) => Ok(Some(sum)),
            Err(_) => Err(TooLarge),
        },
        _ => Ok(None),
    }
}

pub(crate) fn difference_of(a: Option<Frac>, b: Option<Frac>) -> Result<Option<Frac>, TooLarge>
    ensures value { IfOk result (λ n. n ≡ difference_of a b) }
    ensures too_large { OnErr result (IsBigNumber (difference_of a b)) }
{
    match (a, b) {
        (Some(x), Some(y)) => match x.sub(y) {
            Ok(difference) => Ok(Some(difference)),
            Err(_) => Err(TooLarge),
        },
        _ => Ok(None),
    }
}

pub(crate) fn product_of(a: Option<Frac>, b: Option<Frac>) -> Result<Option<Frac>, TooLarge>
    ensures value { IfOk result (λ n. n ≡ product_of a b) }
    ensures too_large { OnErr result (IsBigNumber (product_of a b)) }
{
    match (a, b) {
        (Some(x), Some(y)) => match x.mul(y) {
            Ok(product) => Ok(Some(product)),
            Err(_) => Err(TooLarge),
        },
        _ => Ok(None),
    }
}

// A quotient by 0 is undefined.
fn quotient(x: Frac, y: Frac) -> Result<Option<Frac>, TooLarge>
    ensures value { IfOk result (λ n. n ≡ fraction.quotient x y) }
    ensures too_large { OnErr result (IsBigNumber (fraction.quotient x y)) }
{
    match x.div(y) {
        Ok(quotient) => Ok(Some(quotient)),
        Err(FracError::ZeroDivisor) => Ok(None),
        Err(FracError::TooLarge) => Err(TooLarge),
    }
}

pub(crate) fn quotient_of(a: Option<Frac>, b: Option<Frac>) -> Result<Option<Frac>, TooLarge>
    ensures value { IfOk result (λ n. n ≡ quotient_of a b) }
    ensures too_large { OnErr result (IsBigNumber (quotient_of a b)) }
{
    match (a, b) {
        (Some(x), Some(y)) => quotient(x, y),
        _ => Ok(None),
    }
}

impl State {
    fn fluent(
        &self,
        alloc: Global,
        scope: &[Binding],
        name: &Name,
        args: &[Term],
    ) -> Result<Option<Frac>, Memory>
        ensures { IfOk result (λ n. n ≡ fluent_value self.now (assignment_of scope.now) name.now args.now) }
    {
        match self.ground(alloc, scope, name, args)? {
            Some(term) => Ok(self.number_at(&term)),
            None => Ok(None),
        }
    }

    /// The number that an expression stands for, if it is defined.
    #[tactic(auto, using(crate::proofs::Numbers::numbers))]
    pub(crate) fn number(
        &self,
        alloc: Global,
        scope: &[Binding],
        expr: &Expr,
    ) -> Result<Option<Frac>, TruthError>
        ensures value { IfOk result (λ n. n ≡ number self.now (assignment_of scope.now) expr.now) }
        ensures too_large { IsErrOf result TruthError.TooLarge → BigExpr self.now (assignment_of scope.now) expr.now }
    {
        match expr {
            Expr::Number(n) => Ok(Some(*n)),
            Expr::Fluent(name, args) => Ok(self.fluent(alloc, scope, name, args.as_slice())?),
            Expr::Sum(a, b) => {
                let left = self.number(alloc, scope, a.get())?;
                let right = self.number(alloc, scope, b.get())?;
                Ok(sum_of(left, right)?)
            }
            Expr::Difference(a, b) => {
                let left = self.number(alloc, scope, a.get())?;
                let right = self.number(alloc, scope, b.get())?;
                Ok(difference_of(left, right)?)
            }
            Expr::Product(a, b) => {
                let left = self.number(alloc, scope, a.get())?;
                let right = self.number(alloc, scope, b.get())?;
                Ok(product_of(left, right)?)
            }
            Expr::Quotient(a, b) => {
                let left = self.number(alloc, scope, a.get())?;
                let right = self.number(alloc, scope, b.get())?;
                Ok(quotient_of(left, right)?)
            }
        }
    }
}
