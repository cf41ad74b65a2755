ghost use Rattle.std.specs.Prelude.{◌≡◌};
ghost use Rattle.up_line.specs.Sheet.{after};
ghost use Rattle.up_line.specs.Spaced.{spaced};
ghost use Rattle.pddl_write.specs.Phrases.{formula_text, relation_text, equality_text, comparison_text};

use crate::expr::put_expr;
use crate::phrase::put_binding;
use crate::term::{put_applied, put_term};
use up_line::Line;
use up_tree::{Expr, Formula, Relation, Term};

/// A condition.
#[cycle(formulas)]
#[tactic(auto, using(up_line::proofs::Sheets::puts, crate::proofs::Nodes::texts))]
pub fn put_formula(line: &mut Line, typed: bool, formula: &Formula)
    ensures { line.new ≡ after line.old (formula_text typed formula.now) }
{
    match formula {
        Formula::And(members) => {
            line.put(b"(and");
            put_members(line, typed, members.as_slice());
            line.put(b")");
        }
        Formula::Or(members) => {
            line.put(b"(or");
            put_members(line, typed, members.as_slice());
            line.put(b")");
        }
        Formula::Not(f) => {
            line.put(b"(not ");
            put_formula(line, typed, f.get());
            line.put(b")");
        }
        Formula::Imply(f, g) => {
            line.put(b"(imply ");
            put_formula(line, typed, f.get());
            line.put(b" ");
            put_formula(line, typed, g.get());
            line.put(b")");
        }
        Formula::Exists(variables, f) => {
            put_binding(line, typed, b"(exists (", variables.as_slice());
            put_formula(line, typed, f.get());
            line.put(b")");
        }
        Formula::Forall(variables, f) => {
            put_binding(line, typed, b"(forall (", variables.as_slice());
            put_formula(line, typed, f.get());
            line.put(b")");
        }
        Formula::Atom(name, args) => put_applied(line, name, args.as_slice()),
        Formula::Equal(t, u) => put_equality(line, t, u),
        Formula::Compare(relation, a, b) => put_comparison(line, *relation, a, b),
    }
}

// Conditions, each with a space before it.
#[cycle(formulas)]
#[tactic(auto, using(up_line::proofs::Sheets::puts))]
fn put_members(line: &mut Line, typed: bool, members: &[Formula])
    ensures { line.new ≡ after line.old (spaced (formula_text typed) members.now) }
{
    for member in members {
        line.put(b" ");
        put_formula(line, typed, member);
    }
}

#[tactic(auto, using(up_line::proofs::Sheets::puts))]
fn put_equality(line: &mut Line, t: &Term, u: &Term)
    ensures { line.new ≡ after line.old (equality_text t.now u.now) }
{
    line.put(b"(= ");
    put_term(line, t);
    line.put(b" ");
    put_term(line, u);
    line.put(b")");
}

#[tactic(auto, using(up_line::proofs::Sheets::puts))]
fn put_comparison(line: &mut Line, relation: Relation, a: &Expr, b: &Expr)
    ensures { line.new ≡ after line.old (comparison_text relation a.now b.now) }
{
    line.put(b"(");
    line.put(relation_word(relation));
    line.put(b" ");
    put_expr(line, a);
    line.put(b" ");
    put_expr(line, b);
    line.put(b")");
}

fn relation_word(relation: Relation) -> &'static [u8]
    ensures { result.now ≡ relation_text relation }
{
    match relation {
        Relation::Less => b"<",
        Relation::LessEqual => b"<=",
        Relation::Same => b"=",
        Relation::GreaterEqual => b">=",
        Relation::Greater => b">",
    }
}
