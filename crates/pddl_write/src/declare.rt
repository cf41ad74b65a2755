ghost use Rattle.std.specs.Prelude.{◌≡◌, ◌||◌, if◌then◌else◌, codes};
ghost use Rattle.up_line.specs.Sheet.{after};
ghost use Rattle.up_kind.specs.Features.{has};
ghost use Rattle.up_line.specs.Spaced.{spaced};
ghost use Rattle.pddl_write.specs.Phrases.{type_text};
ghost use Rattle.pddl_write.specs.Files.{word_if, requirements_text, declared_text, signature_text, predicate_text, gives_text, function_text, name_text, ground_text, fact_text, number_fact_text, value_fact_text, metric_text};

use crate::expr::put_expr;
use crate::number::{put_count, put_number};
use crate::phrase::put_type;
use up_kind::{Feature, Kind};
use up_line::Line;
use up_text::Name;
use up_tree::{Fact, Function, Gives, Metric, NumberFact, Predicate, ValueFact};

// A word that is written for a feature.
#[tactic(auto, using(up_line::proofs::Sheets::puts))]
fn put_word(line: &mut Line, kind: Kind, feature: Feature, word: &[u8])
    ensures { line.new ≡ after line.old (word_if (has kind.0 feature) word.now) }
{
    if kind.has(feature) {
        line.put(word);
    }
}

// A word that is written for either of two features.
#[tactic(auto, using(up_line::proofs::Sheets::puts))]
fn put_either(line: &mut Line, kind: Kind, one: Feature, other: Feature, word: &[u8])
    ensures { line.new ≡ after line.old (word_if (has kind.0 one || has kind.0 other) word.now) }
{
    if kind.has(one) {
        line.put(word);
    } else {
        put_word(line, kind, other, word);
    }
}

/// The line of the requirements.
pub fn put_requirements(line: &mut Line, kind: Kind)
    ensures { line.new ≡ after line.old (requirements_text (has kind.0)) }
{
    line.put(b"(:requirements :strips");
    put_either(
        line,
        kind,
        Feature::FlatTyping,
        Feature::HierarchicalTyping,
        b" :typing",
    );
    put_word(
        line,
        kind,
        Feature::NegativeConditions,
        b" :negative-preconditions",
    );
    put_word(
        line,
        kind,
        Feature::DisjunctiveConditions,
        b" :disjunctive-preconditions",
    );
    put_word(line, kind, Feature::Equalities, b" :equality");
    put_word(
        line,
        kind,
        Feature::ExistentialConditions,
        b" :existential-preconditions",
    );
    put_word(
        line,
        kind,
        Feature::UniversalConditions,
        b" :universal-preconditions",
    );
    put_either(
        line,
        kind,
        Feature::ConditionalEffects,
        Feature::ForallEffects,
        b" :conditional-effects",
    );
    put_word(line, kind, Feature::NumericFluents, b" :numeric-fluents");
    put_word(line, kind, Feature::ObjectFluents, b" :object-fluents");
    put_word(line, kind, Feature::TrajectoryConstraints, b" :constraints");
    line.put(b")\n");
}

// The numbered variables of a declaration.
#[tactic(auto, using(up_line::proofs::Sheets::puts))]
fn put_declared(line: &mut Line, typed: bool, types: &[Name])
    ensures { line.new ≡ after line.old (declared_text typed 1 types.now) }
{
    for (at, of) in types.iter().enumerate() {
        line.put(b" ?x");
        put_count(line, at + 1);
        put_type(line, typed, of.bytes());
    }
}

#[tactic(auto, using(up_line::proofs::Sheets::puts))]
fn put_signature(line: &mut Line, typed: bool, name: &Name, args: &[Name])
    ensures { line.new ≡ after line.old (signature_text typed name.now args.now) }
{
    line.put(b"(");
    line.put(name.bytes());
    put_declared(line, typed, args);
    line.put(b")");
}

/// A declared predicate.
pub fn put_predicate(line: &mut Line, typed: bool, predicate: &Predicate)
    ensures { line.new ≡ after line.old (predicate_text typed predicate.now) }
{
    put_signature(line, typed, &predicate.name, predicate.args.as_slice());
}

fn given(gives: &Gives) -> &[u8]
    ensures { result.now ≡ gives_text gives.now }
{
    match gives {
        Gives::Number => b"number",
        Gives::Object(of) => of.bytes(),
    }
}

/// A declared function, with what it gives where the second flag says so.
#[tactic(auto, using(up_line::proofs::Sheets::puts))]
pub fn put_function(line: &mut Line, typed: bool, says_given: bool, function: &Function)
    ensures { line.new ≡ after line.old (function_text typed says_given function.now) }
{
    put_signature(line, typed, &function.name, function.args.as_slice());
    put_type(line, says_given, given(&function.gives));
}

// Names, each with a space before it.
#[tactic(auto, using(up_line::proofs::Sheets::puts))]
fn put_names(line: &mut Line, names: &[Name])
    ensures { line.new ≡ after line.old (spaced name_text names.now) }
{
    for name in names {
        line.put(b" ");
        line.put(name.bytes());
    }
}

#[tactic(auto, using(up_line::proofs::Sheets::puts))]
fn put_ground(line: &mut Line, name: &Name, args: &[Name])
    ensures { line.new ≡ after line.old (ground_text name.now args.now) }
{
    line.put(b"(");
    line.put(name.bytes());
    put_names(line, args);
    line.put(b")");
}

/// An initial atom.
pub fn put_fact(line: &mut Line, fact: &Fact)
    ensures { line.new ≡ after line.old (fact_text fact.now) }
{
    put_ground(line, &fact.predicate, fact.args.as_slice());
}

/// An initial number.
#[tactic(auto, using(up_line::proofs::Sheets::puts))]
pub fn put_number_fact(line: &mut Line, fact: &NumberFact)
    ensures { line.new ≡ after line.old (number_fact_text fact.now) }
{
    line.put(b"(= ");
    put_ground(line, &fact.function, fact.args.as_slice());
    line.put(b" ");
    put_number(line, fact.value);
    line.put(b")");
}

/// An initial object.
#[tactic(auto, using(up_line::proofs::Sheets::puts))]
pub fn put_value_fact(line: &mut Line, fact: &ValueFact)
    ensures { line.new ≡ after line.old (value_fact_text fact.now) }
{
    line.put(b"(= ");
    put_ground(line, &fact.function, fact.args.as_slice());
    line.put(b" ");
    line.put(fact.value.bytes());
    line.put(b")");
}

fn aim(minimize: bool) -> &'static [u8]
    ensures { result.now ≡ (if minimize then codes "minimize" else codes "maximize") }
{
    if minimize { b"minimize" } else { b"maximize" }
}

/// The line of the metric.
#[tactic(auto, using(up_line::proofs::Sheets::puts))]
pub fn put_metric(line: &mut Line, metric: &Metric)
    ensures { line.new ≡ after line.old (metric_text metric.now) }
{
    line.put(b"(:metric ");
    line.put(aim(metric.minimize));
    line.put(b" ");
    put_expr(line, &metric.value);
    line.put(b")\n");
}
