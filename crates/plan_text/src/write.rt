ghost use Rattle.std.specs.Prelude.{◌≡◌, ◌++◌, ◌∷◌, All, flat_map, codes, IfOk, OnOk};
ghost use Rattle.up_text.specs.Names.{IsName};
ghost use Rattle.plan_text.specs.Spells.{PlanText};
ghost use Rattle.plan_text.specs.Texts.{step_text, plan_text, HasNames};

use std::alloc::Global;
use up_text::{Memory, Name};
use up_tree::{Plan, Step};

// Names, each with a space before it.
fn add_args(text: &mut Vec<u8>, args: &[Name]) -> Result<(), Memory>
    ensures text { OnOk result (text.new.items ≡ text.old.items ++ flat_map (λ arg. codes " " ++ arg) args.now) }
    ensures names { OnOk result (All IsName args.now) }
{
    for arg in args {
        text.push(b' ')?;
        text.extend_from_slice(arg.bytes())?;
    }
    Ok(())
}

fn add_step(text: &mut Vec<u8>, step: &Step) -> Result<(), Memory>
    ensures text { OnOk result (text.new.items ≡ text.old.items ++ step_text step.now) }
    ensures names { OnOk result (HasNames step.now) }
{
    text.push(b'(')?;
    text.extend_from_slice(step.action.bytes())?;
    add_args(text, step.args.as_slice())?;
    text.extend_from_slice(b")\n")?;
    Ok(())
}

// Lines for steps.
fn add_steps(text: &mut Vec<u8>, steps: &[Step]) -> Result<(), Memory>
    ensures text { OnOk result (text.new.items ≡ text.old.items ++ flat_map step_text steps.now) }
    ensures names { OnOk result (All HasNames steps.now) }
{
    for step in steps {
        add_step(text, step)?;
    }
    Ok(())
}

/// The text of a plan: a line for each step, `(name name ..)`. It spells that plan, so it is read as it.
///
/// Errors: `Memory` where the text finds no room.
#[tactic(auto, using(crate::proofs::Written::written_plan))]
pub fn write_plan(alloc: Global, plan: &Plan) -> Result<Vec<u8>, Memory>
    ensures text { IfOk result (λ text. text.items ≡ plan_text plan.now) }
    ensures spells { IfOk result (λ text. PlanText text.items plan.now) }
{
    let mut text = Vec::new(alloc);
    add_steps(&mut text, plan.steps.as_slice())?;
    Ok(text)
}
