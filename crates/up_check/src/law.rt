ghost use Rattle.std.specs.Prelude.{◌≡◌};
ghost use Rattle.up_tree.specs.declared.problem.Parts.{Parts};
ghost use Rattle.up_check.specs.declared.refusal.ReadError.{ReadError};
ghost use Rattle.up_check.specs.Passes.{AreShallow, FirstFault, IsSettled, Reads};

/// A law: two texts read as one problem at most. Where they read as one and no bracket opens too deep, they have no first fault; and
/// they either read so or have one.
pub fn reading_law(domain: &[u8], problem: &[u8])
    ensures one { (parts others : Parts) → Reads domain.now problem.now parts → Reads domain.now problem.now others → parts ≡ others }
    ensures faultless { (parts : Parts) (refusal : ReadError) → Reads domain.now problem.now parts → AreShallow domain.now problem.now → ¬ FirstFault domain.now problem.now refusal }
    ensures settled { IsSettled domain.now problem.now }
{
    let _ = domain;
    let _ = problem;
}
