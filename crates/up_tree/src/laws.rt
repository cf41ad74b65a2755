//! Laws of the definitions, each the contract of a function that does nothing.
ghost use Rattle.up_tree.specs.Laws.{NeverBoth, AlwaysOne, DefinedDecides, NextIsOne, NextIsThere, AddWins};

/// No formula is both true and false.
pub fn never_both()
    ensures { NeverBoth }
{}

/// A formula is true, false or undefined, and one of them alone.
pub fn always_one()
    ensures { AlwaysOne }
{}

/// Without object functions and comparisons a formula whose variables are assigned is true or false.
pub fn defined_decides()
    ensures { DefinedDecides }
{}

/// A step leaves one state at most, and one where it can be taken.
pub fn next_is_one()
    ensures one { NextIsOne }
    ensures there { NextIsThere }
{}

/// An atom that is both deleted and added holds after the step.
pub fn add_wins()
    ensures { AddWins }
{}
