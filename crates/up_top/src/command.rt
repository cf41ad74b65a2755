/// What the words ask for.
#[derive(Clone, Copy, Debug, PartialEq, Eq)]
pub enum Command {
    /// The features of a problem.
    Kind,
    /// The compilers that lead from a problem to an engine.
    Pipeline,
    /// A problem for an engine, and the map back from it.
    Compile {
        /// How much a compiler may make, from 1 to 5,000,000.
        limit: u64,
    },
    /// Whether a plan is valid for a problem.
    Validate,
    /// What an engine's plan is as a plan of the source.
    Back,
}
