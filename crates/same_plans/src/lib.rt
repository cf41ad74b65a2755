//! What it means that two problems have the same plans by a map, and its laws.
#![tactic(auto)]

mod laws;

pub use laws::{
    best_plans_stay_best, composed_has_same_plans, converted_plan_is_plan, identity_has_same_plans,
    plans_are_of_actions, plans_exist_together,
};
