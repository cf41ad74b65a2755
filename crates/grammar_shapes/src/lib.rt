//! Laws of pass 2: which bracket trees spell which raw forms, and that they are read so exactly.
#![tactic(auto)]

mod laws;

pub use laws::{
    action_law, call_law, condition_law, constraint_law, domain_law, effect_law, functions_law,
    init_law, inits_law, metric_law, predicates_law, problem_law, typed_list_law, whole_effect_law,
};
