ghost use Rattle.std.specs.Prelude.{◌≡◌, IfOk, OnErr};
ghost use Rattle.up_eval.specs.Metrics.{metric_value, MetricIsBig, of_number};
ghost use Rattle.up_tree.specs.Objects.{unassigned};
ghost use Rattle.up_tree.specs.Value.{number};
ghost use Rattle.up_tree.specs.Big.{BigExpr};

use crate::error::TooLarge;
use crate::number::{difference_of, product_of, quotient_of, sum_of};
use crate::state::State;
use up_frac::Frac;
use up_tree::{Expr, Metric, Problem};

/// What a problem's metric is in a state.
#[derive(Clone, Copy, Debug)]
pub enum Value {
    /// The problem has no metric.
    None,
    /// A term of the metric has no value, or a divisor is 0.
    Undefined,
    Number(Frac),
}

fn of_number(number: Option<Frac>) -> Value
    ensures { result ≡ of_number number }
{
    match number {
        None => Value::Undefined,
        Some(number) => Value::Number(number),
    }
}

impl State {
    /// What the problem's metric is in the state. It takes no memory.
    ///
    /// `TooLarge` comes only where the metric or a part of it has a value with a numerator or denominator of at least 2^62 in size.
    pub fn metric(&self, p: &Problem) -> Result<Value, TooLarge>
        ensures value { IfOk result (λ value. value ≡ metric_value self.now p.now.metric) }
        ensures too_large { OnErr result (MetricIsBig self.now p.now.metric) }
    {
        self.metric_value(&p.parts().metric)
    }

    fn metric_value(&self, metric: &Option<Metric>) -> Result<Value, TooLarge>
        ensures value { IfOk result (λ value. value ≡ metric_value self.now metric.now) }
        ensures too_large { OnErr result (MetricIsBig self.now metric.now) }
    {
        match metric {
            None => Ok(Value::None),
            Some(metric) => Ok(of_number(self.unassigned_number(&metric.value)?)),
        }
    }

    // The number that an expression stands for where no variable has an object, if it is defined.
    #[tactic(auto, using(crate::proofs::Numbers::numbers))]
    fn unassigned_number(&self, expr: &Expr) -> Result<Option<Frac>, TooLarge>
        ensures value { IfOk result (λ n. n ≡ number self.now unassigned expr.now) }
        ensures too_large { OnErr result (BigExpr self.now unassigned expr.now) }
    {
        match expr {
            Expr::Number(n) => Ok(Some(*n)),
            Expr::Fluent(name, args) => Ok(self.unassigned_fluent(name, args.as_slice())),
            Expr::Sum(a, b) => {
                let left = self.unassigned_number(a.get())?;
                let right = self.unassigned_number(b.get())?;
                sum_of(left, right)
            }
            Expr::Difference(a, b) => {
                let left = self.unassigned_number(a.get())?;
                let right = self.unassigned_number(b.get())?;
                difference_of(left, right)
            }
            Expr::Product(a, b) => {
                let left = self.unassigned_number(a.get())?;
                let right = self.unassigned_number(b.get())?;
                product_of(left, right)
            }
            Expr::Quotient(a, b) => {
                let left = self.unassigned_number(a.get())?;
                let right = self.unassigned_number(b.get())?;
                quotient_of(left, right)
            }
        }
    }
}
