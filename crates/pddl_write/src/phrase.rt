ghost use Rattle.std.specs.Prelude.{◌≡◌, ◌++◌, codes};
ghost use Rattle.up_line.specs.Sheet.{after};
ghost use Rattle.up_line.specs.Spaced.{spaced};
ghost use Rattle.pddl_write.specs.Phrases.{type_text, object_text, variable_text, variables_text};

use up_line::Line;
use up_tree::Typed;

/// The type of a name, where it is written.
#[tactic(auto, using(up_line::proofs::Sheets::puts))]
pub fn put_type(line: &mut Line, typed: bool, of: &[u8])
    ensures { line.new ≡ after line.old (type_text typed of.now) }
{
    if typed {
        line.put(b" - ");
        line.put(of);
    }
}

/// An object or a type.
#[tactic(auto, using(up_line::proofs::Sheets::puts))]
pub fn put_object(line: &mut Line, typed: bool, object: &Typed)
    ensures { line.new ≡ after line.old (object_text typed object.now) }
{
    line.put(object.name.bytes());
    put_type(line, typed, object.of.bytes());
}

#[tactic(auto, using(up_line::proofs::Sheets::puts))]
fn put_variable(line: &mut Line, typed: bool, variable: &Typed)
    ensures { line.new ≡ after line.old (variable_text typed variable.now) }
{
    line.put(b"?");
    line.put(variable.name.bytes());
    put_type(line, typed, variable.of.bytes());
}

#[tactic(auto, using(up_line::proofs::Sheets::puts))]
fn put_more_variables(line: &mut Line, typed: bool, variables: &[Typed])
    ensures { line.new ≡ after line.old (spaced (variable_text typed) variables.now) }
{
    for variable in variables {
        line.put(b" ");
        put_variable(line, typed, variable);
    }
}

/// A list of variables.
#[tactic(auto, using(up_line::proofs::Sheets::puts))]
pub fn put_variables(line: &mut Line, typed: bool, variables: &[Typed])
    ensures { line.new ≡ after line.old (variables_text typed variables.now) }
{
    if let Some((first, others)) = variables.split_first() {
        put_variable(line, typed, first);
        put_more_variables(line, typed, others);
    }
}

/// The opening of a phrase that binds variables, up to what it is about.
#[tactic(auto, using(up_line::proofs::Sheets::puts))]
pub fn put_binding(line: &mut Line, typed: bool, head: &[u8], variables: &[Typed])
    ensures { line.new ≡ after line.old (head.now ++ variables_text typed variables.now ++ codes ") ") }
{
    line.put(head);
    put_variables(line, typed, variables);
    line.put(b") ");
}
