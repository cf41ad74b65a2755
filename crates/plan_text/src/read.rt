ghost use Rattle.std.specs.Prelude.{◌≡◌, ◌++◌, Ok, Err, Some, IfOk, IfErr, OnOk, option_to_list};
ghost use Rattle.plan_text.specs.Steps.{closed, step, line_step};
ghost use Rattle.plan_text.specs.Spells.{PlanText};
ghost use Rattle.plan_text.specs.Texts.{place_of, found_in, steps_of, first_fault};

use crate::bytes::behind_blanks;
use crate::error::PlanTextError;
use crate::line::{Line, content, first_line};
use crate::line_fault::LineFault;
use crate::part::{past, past_cost, past_label, stuck};
use crate::word::{Word, Words, read_word, read_words};
use std::alloc::Global;
use up_text::{List, Memory, Place};
use up_tree::{Plan, Step};

// What ends a line behind the names of its step.
fn read_end(line: &[u8]) -> Result<(), LineFault>
    ensures read { IfOk result (λ _. (step : _) → closed step line.now ≡ Ok step) }
    ensures fault { IfErr result (λ fault. (step : _) → closed step line.now ≡ Err fault) }
{
    let left = past_cost(past(b')', line)?)?;
    match left {
        [] => Ok(()),
        _ => Err(stuck(left)),
    }
}

// The step of a line that isn't blank.
fn read_step(alloc: Global, line: &[u8]) -> Result<Step, LineFault>
    ensures read { IfOk result (λ read. step line.now ≡ Ok read) }
    ensures fault { IfErr result (λ fault. ¬ (fault ≡ LineFault.Memory) → step line.now ≡ Err fault) }
{
    let inside = past(b'(', past_label(line)?)?;
    let Word { name: action, left } = match read_word(alloc, inside) {
        Ok(word) => word,
        Err(fault) => return Err(fault),
    };
    let Words { names: args, left } = match read_words(alloc, left) {
        Ok(words) => words,
        Err(fault) => return Err(fault),
    };
    match read_end(left) {
        Ok(()) => Ok(Step { action, args }),
        Err(fault) => Err(fault),
    }
}

// The step of a line, if the line isn't blank.
fn read_line(alloc: Global, line: &[u8]) -> Result<Option<Step>, LineFault>
    ensures read { IfOk result (λ read. line_step line.now ≡ Ok read) }
    ensures fault { IfErr result (λ fault. ¬ (fault ≡ LineFault.Memory) → line_step line.now ≡ Err fault) }
{
    let front = behind_blanks(line);
    match front {
        [] => Ok(None),
        _ => match read_step(alloc, front) {
            Ok(step) => Ok(Some(step)),
            Err(fault) => Err(fault),
        },
    }
}

// The place in a line behind which so many of its bytes are left.
fn place_of(number: u32, line: &[u8], left: usize) -> Place
    ensures { result ≡ place_of number line.now left }
{
    let column = line.len().saturating_sub(left).saturating_add(1);
    Place {
        line: number,
        column: column.min(u32::MAX as usize) as u32,
    }
}

// The step of a line with this number, if the line isn't blank.
fn found_in(alloc: Global, number: u32, line: &[u8]) -> Result<Option<Step>, PlanTextError>
    ensures read { IfOk result (λ found. found_in number line.now ≡ Ok found) }
    ensures fault { IfErr result (λ fault. ¬ (fault ≡ PlanTextError.Memory) → found_in number line.now ≡ Err fault) }
{
    let line = content(line);
    match read_line(alloc, line) {
        Ok(found) => Ok(found),
        Err(LineFault::Memory) => Err(PlanTextError::Memory),
        Err(LineFault::Stuck { left }) => Err(PlanTextError::Bad {
            place: place_of(number, line, left),
        }),
    }
}

// A step, if there is one, behind others.
fn add_found(found: Option<Step>, steps: &mut List<Step>) -> Result<(), Memory>
    ensures { OnOk result (steps.new ≡ steps.old ++ option_to_list found) }
{
    if let Some(step) = found {
        steps.push(step)?;
    }
    Ok(())
}

// The steps that a text spells.
#[tactic(auto, unfolding(crate::specs::Texts::steps_of))]
fn read_steps(alloc: Global, bytes: &[u8]) -> Result<List<Step>, PlanTextError>
    ensures read { IfOk result (λ steps. steps_of bytes.now ≡ Ok steps) }
    ensures fault { IfErr result (λ fault. ¬ (fault ≡ PlanTextError.Memory) → steps_of bytes.now ≡ Err fault) }
{
    let mut steps = List::new(alloc);
    let mut rest = bytes;
    let mut number = 1_u32;
    'reading: while !rest.is_empty() {
        let Line {
            bytes: line,
            behind,
        } = first_line(rest);
        let found = found_in(alloc, number, line)?;
        add_found(found, &mut steps)?;
        rest = behind;
        number = number.saturating_add(1);
    }
    Ok(steps)
}

/// The plan that a text spells.
///
/// A line is blank or has a step, `(name name ..)`. In front of a step may stand a number and `:`, and behind it a
/// number in `[` and `]`. Blanks are spaces and tabs, a comment runs from `;` to the end of its line, and letters are
/// folded to lower case.
///
/// Errors: `Bad` at the first fault of a text that spells no plan, `Memory` where the plan finds no room.
#[tactic(auto, using(crate::proofs::Laws::read_plan_spelled, crate::proofs::Laws::first_there))]
pub fn read_plan(alloc: Global, bytes: &[u8]) -> Result<Plan, PlanTextError>
    ensures plan { IfOk result (PlanText bytes.now) }
    ensures fault { IfErr result (λ fault. ¬ (fault ≡ PlanTextError.Memory) → first_fault bytes.now ≡ Some fault) }
{
    match read_steps(alloc, bytes) {
        Ok(steps) => Ok(Plan { steps }),
        Err(fault) => Err(fault),
    }
}
