//! The predicates that a formula names.
ghost use Rattle.std.specs.List.{list_any};
ghost use Rattle.std.specs.Prelude.{◌≡◌, ◌↔◌, IsTrue};
ghost use Rattle.semantics_laws.specs.Named.{is_named};
ghost use Rattle.semantics_laws.specs.Symbols.{FormulaNames, predicate};

use up_text::Name;
use up_tree::Formula;

/// Whether a formula names a predicate. Where it doesn't, the predicate's atoms have no part in the formula's truth
/// ([`named_parts_decide`](crate::named_parts_decide)).
pub fn names_predicate(f: &Formula, name: &Name) -> bool
    ensures { IsTrue result ↔ FormulaNames f.now (predicate name.now) }
{
    is_named(f, name)
}

#[cycle(named)]
#[tactic(auto, using(crate::proofs::Naming::named))]
fn is_named(f: &Formula, name: &Name) -> bool
    ensures { result ≡ is_named f.now name.now }
{
    match f {
        Formula::And(members) => is_named_in(members.as_slice(), name),
        Formula::Or(members) => is_named_in(members.as_slice(), name),
        Formula::Not(f) => is_named(f.get(), name),
        Formula::Imply(f, g) => is_named(f.get(), name) || is_named(g.get(), name),
        Formula::Exists(_, f) => is_named(f.get(), name),
        Formula::Forall(_, f) => is_named(f.get(), name),
        Formula::Atom(predicate, _) => predicate == name,
        Formula::Equal(..) => false,
        Formula::Compare(..) => false,
    }
}

#[cycle(named)]
fn is_named_in(members: &[Formula], name: &Name) -> bool
    ensures { result ≡ list_any (λ f. is_named f name.now) members.now }
{
    for member in members {
        if is_named(member, name) {
            return true;
        }
    }
    false
}
