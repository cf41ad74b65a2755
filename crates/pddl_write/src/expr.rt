ghost use Rattle.std.specs.Prelude.{◌≡◌};
ghost use Rattle.up_line.specs.Sheet.{after};
ghost use Rattle.pddl_write.specs.Phrases.{expr_text};

use crate::number::put_number;
use crate::term::put_applied;
use up_line::Line;
use up_tree::Expr;

/// A numeric expression.
#[tactic(auto, using(up_line::proofs::Sheets::puts, crate::proofs::Nodes::texts))]
pub fn put_expr(line: &mut Line, expr: &Expr)
    ensures { line.new ≡ after line.old (expr_text expr.now) }
{
    match expr {
        Expr::Number(number) => put_number(line, *number),
        Expr::Fluent(name, args) => put_applied(line, name, args.as_slice()),
        Expr::Sum(a, b) => {
            line.put(b"(+ ");
            put_expr(line, a.get());
            line.put(b" ");
            put_expr(line, b.get());
            line.put(b")");
        }
        Expr::Difference(a, b) => {
            line.put(b"(- ");
            put_expr(line, a.get());
            line.put(b" ");
            put_expr(line, b.get());
            line.put(b")");
        }
        Expr::Product(a, b) => {
            line.put(b"(* ");
            put_expr(line, a.get());
            line.put(b" ");
            put_expr(line, b.get());
            line.put(b")");
        }
        Expr::Quotient(a, b) => {
            line.put(b"(/ ");
            put_expr(line, a.get());
            line.put(b" ");
            put_expr(line, b.get());
            line.put(b")");
        }
    }
}
