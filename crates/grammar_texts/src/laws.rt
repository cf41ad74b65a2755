//! Laws of the definitions, each the contract of a function that does nothing.
ghost use Rattle.std.specs.Prelude.{◌≡◌, ◌↔◌, ℕ, List};
ghost use Rattle.up_check.specs.Passes.{AreShallow, FirstFault, Reads};
ghost use Rattle.up_check.specs.declared.refusal.ReadError.{ReadError};
ghost use Rattle.grammar_texts.specs.Spelled.{SpellsOrStops, TextsSpell};

use up_tree::Problem;

/// Two texts spell a problem, by the relations of the three passes, exactly where they are read as it, and they spell one at
/// most.
pub fn texts_are_read(_p: &Problem, _q: &Problem)
    ensures read { (domain problem : List ℕ) → TextsSpell domain problem _p.now ↔ Reads domain problem _p.now }
    ensures one { (domain problem : List ℕ) → TextsSpell domain problem _p.now → TextsSpell domain problem _q.now → _p.now ≡ _q.now }
{}

/// Two texts have one first fault at most, and none where they spell a problem and open no bracket too deep; and they either
/// spell one so or have a first fault.
pub fn texts_spell_or_stop(_p: &Problem)
    ensures one { (domain problem : List ℕ) (refusal other : ReadError) → FirstFault domain problem refusal → FirstFault domain problem other → refusal ≡ other }
    ensures faultless { (domain problem : List ℕ) (refusal : ReadError) → TextsSpell domain problem _p.now → AreShallow domain problem → ¬ FirstFault domain problem refusal }
    ensures settled { (domain problem : List ℕ) → SpellsOrStops domain problem }
{}
