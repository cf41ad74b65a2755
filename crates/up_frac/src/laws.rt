//! What holds of the meaning of fractions: each law is a function's clause, and the function does nothing.
ghost use Rattle.std.specs.Cmp.{IsTotalOrder};
ghost use Rattle.up_frac.specs.Arithmetic.{sum, product, compare};
ghost use Rattle.up_frac.specs.Statements.{ReducesOnce, IsReducedOf, Commutes, Associates, DifferenceFills, EqualsWhereSame, OrderIsOfDifference};

/// Equal quotients have one reduced fraction, and a fraction is its own.
#[tactic(auto, using(crate::proofs::FractionLaws::reduce_unique, crate::proofs::FractionLaws::reduce_self))]
pub fn reduction_is_unique()
    ensures once { ReducesOnce }
    ensures own { IsReducedOf }
{}

/// Sums commute and associate.
#[tactic(auto, using(crate::proofs::FractionLaws::sum_comm, crate::proofs::FractionLaws::sum_assoc))]
pub fn sums()
    ensures commute { Commutes sum }
    ensures associate { Associates sum }
{}

/// Products commute and associate.
#[tactic(auto, using(crate::proofs::FractionLaws::product_comm, crate::proofs::FractionLaws::product_assoc))]
pub fn products()
    ensures commute { Commutes product }
    ensures associate { Associates product }
{}

/// A difference and what was taken away give the whole again.
#[tactic(auto, using(crate::proofs::FractionLaws::difference_fills))]
pub fn differences()
    ensures { DifferenceFills }
{}

/// The order is total, equal where neither is less, and that of the difference and 0.
#[tactic(auto, using(crate::proofs::Order::compare_total, crate::proofs::Order::compare_equal, crate::proofs::Order::compare_difference))]
pub fn order()
    ensures total { IsTotalOrder compare }
    ensures equal { EqualsWhereSame }
    ensures difference { OrderIsOfDifference }
{}
