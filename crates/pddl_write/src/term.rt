ghost use Rattle.std.specs.Prelude.{◌≡◌};
ghost use Rattle.up_line.specs.Sheet.{after};
ghost use Rattle.up_line.specs.Spaced.{spaced};
ghost use Rattle.pddl_write.specs.Phrases.{applied, term_text};

use up_line::Line;
use up_text::Name;
use up_tree::Term;

/// A term.
#[cycle(terms)]
#[tactic(auto, using(up_line::proofs::Sheets::puts, crate::proofs::Nodes::texts))]
pub fn put_term(line: &mut Line, term: &Term)
    ensures { line.new ≡ after line.old (term_text term.now) }
{
    match term {
        Term::Var(name) => {
            line.put(b"?");
            line.put(name.bytes());
        }
        Term::Object(name) => line.put(name.bytes()),
        Term::Fluent(name, args) => {
            line.put(b"(");
            line.put(name.bytes());
            put_terms(line, args.as_slice());
            line.put(b")");
        }
    }
}

// Terms, each with a space before it.
#[cycle(terms)]
#[tactic(auto, using(up_line::proofs::Sheets::puts))]
fn put_terms(line: &mut Line, terms: &[Term])
    ensures { line.new ≡ after line.old (spaced term_text terms.now) }
{
    for term in terms {
        line.put(b" ");
        put_term(line, term);
    }
}

/// A predicate or a function at its arguments.
#[tactic(auto, using(up_line::proofs::Sheets::puts))]
pub fn put_applied(line: &mut Line, name: &Name, args: &[Term])
    ensures { line.new ≡ after line.old (applied name.now args.now) }
{
    line.put(b"(");
    line.put(name.bytes());
    put_terms(line, args);
    line.put(b")");
}
