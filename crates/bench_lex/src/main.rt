//! Work to be timed: `bench_lex WHAT FILE` reads the `tokens` or the `brackets` of a text, and prints how many there are at the top.
#![tactic(auto)]

ghost use Rattle.std.specs.Prelude.{◌≡◌, IfOk, IfErr, Some};
ghost use Rattle.pddl_lex.specs.Faults.{byte_faults, faults_to_depth, first_of};
ghost use Rattle.bench_lex.specs.Counts.{HasTokens, HasTrees, Has, what_of};

use anyhow::{Context, Result};
use pddl_lex::{LexError, brackets, tokens};
use std::alloc::Global;
use std::{env, fs};

#[derive(Clone, Copy)]
enum What {
    Tokens,
    Brackets,
}

// What the word asks for.
fn what_of(word: &str) -> Option<What>
    ensures { result ≡ what_of word.now }
{
    match word {
        "tokens" => Some(What::Tokens),
        "brackets" => Some(What::Brackets),
        _ => None,
    }
}

fn token_count(alloc: Global, text: &[u8]) -> Result<usize, LexError>
    ensures count { IfOk result (HasTokens text.now) }
    ensures fault { IfErr result (λ fault. ¬ (fault ≡ LexError.Memory) → first_of (byte_faults text.now) ≡ Some fault) }
{
    let tokens = tokens(alloc, text)?;
    Ok(tokens.len())
}

fn tree_count(alloc: Global, text: &[u8]) -> Result<usize, LexError>
    ensures count { IfOk result (HasTrees text.now) }
    ensures fault { IfErr result (λ fault. ¬ (fault ≡ LexError.Memory) → first_of (faults_to_depth text.now) ≡ Some fault) }
{
    let trees = brackets(alloc, text)?;
    Ok(trees.len())
}

fn count(alloc: Global, what: What, text: &[u8]) -> Result<usize, LexError>
    ensures { IfOk result (Has what text.now) }
{
    match what {
        What::Tokens => token_count(alloc, text),
        What::Brackets => tree_count(alloc, text),
    }
}

fn main(rt: HostRuntime) -> Result<()> {
    let mut words = env::args(&rt)?;
    let _program = words.next();
    let what = words.next().context("no word")?;
    let what = what_of(what.as_str()).context("usage: bench_lex tokens|brackets FILE")?;
    let file = words.next().context("no file")?;
    let text = fs::read(&rt, file.as_str())?;
    let count = count(rt.alloc(), what, text.as_slice())?;
    println!(rt; "{count}")?;
    Ok(())
}
