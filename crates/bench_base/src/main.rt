//! Work to be timed: `bench_base WHAT COUNT` does COUNT of `add`, `compare` or `fresh`, and prints a sum over the answers.
#![tactic(auto)]

ghost use Rattle.std.specs.Prelude.{◌≡◌, ◌≢◌, ◌↔◌, ◌<◌, ◌^◌, IfOk, IsErrOf, IsTrue, length, vec_len};
ghost use Rattle.up_text.specs.Names.{is_spelled};
ghost use Rattle.up_frac.specs.Fraction.{IsBig};
ghost use Rattle.bench_base.specs.Work.{fractions, first_at, second_at, sum_at, sum_size, SomeIsBig, one_if_less, less_count, name_length, sum_below, work_of, total_of};

use anyhow::{Context, Result};
use std::alloc::Global;
use std::cmp::Ordering;
use std::env;
use up_frac::{Frac, FracError};
use up_fresh::FreshNames;
use up_text::Memory;

#[derive(Clone, Copy)]
enum Work {
    Add,
    Compare,
    Fresh,
}

// What the word asks for.
fn work_of(word: &str) -> Option<Work>
    ensures { result ≡ work_of word.now }
{
    match word {
        "add" => Some(Work::Add),
        "compare" => Some(Work::Compare),
        "fresh" => Some(Work::Fresh),
        _ => None,
    }
}

// The fractions 1/2047, 2/2046, .. 1024/1024.
#[tactic(auto, using(crate::proofs::Sums::sums))]
fn fractions(alloc: Global) -> Result<Vec<Frac>>
    ensures value { IfOk result (λ list. list.items ≡ fractions 1024) }
    ensures count { IfOk result (λ list. vec_len list ≡ 1024) }
{
    let mut list = Vec::new(alloc);
    for k in 0..1024u32 {
        list.push(Frac::new(i64::from(k + 1), i64::from(2047 - k))?)?;
    }
    Ok(list)
}

// The two fractions of a step.
fn pair(fractions: &[Frac], step: usize) -> (Frac, Frac)
    requires { length fractions.now ≡ 1024 }
    ensures first { result.0 ≡ first_at fractions.now step }
    ensures second { result.1 ≡ second_at fractions.now step }
{
    (fractions[step % 1024], fractions[step / 3 % 1024])
}

// The size of the numerator of a step's sum.
fn sum_size(fractions: &[Frac], step: usize) -> Result<u64, FracError>
    requires { length fractions.now ≡ 1024 }
    ensures value { IfOk result (λ size. size ≡ sum_size fractions.now step) }
    ensures small { IfOk result (λ size. size < 2 ^ 64) }
    ensures too_large { IsErrOf result FracError.TooLarge ↔ IsBig (sum_at fractions.now step) }
    ensures divisor { result ≢ Err FracError.ZeroDivisor }
{
    let (first, second) = pair(fractions, step);
    let sum = first.add(second)?;
    Ok(sum.numerator().unsigned_abs())
}

// The sizes of the first sums together.
#[tactic(auto, using(crate::proofs::Sums::sums))]
fn added(fractions: &[Frac], count: usize) -> Result<u128, FracError>
    requires { length fractions.now ≡ 1024 }
    ensures value { IfOk result (λ total. total ≡ sum_below (sum_size fractions.now) count) }
    ensures too_large { IsErrOf result FracError.TooLarge ↔ SomeIsBig fractions.now count }
    ensures divisor { result ≢ Err FracError.ZeroDivisor }
{
    let mut total = 0u128;
    for step in 0..count {
        total += u128::from(sum_size(fractions, step)?);
    }
    Ok(total)
}

fn one_if_less(order: Ordering) -> u128
    ensures { result ≡ one_if_less order }
{
    match order {
        Ordering::Less => 1,
        _ => 0,
    }
}

// In how many of the first steps the first fraction is the less.
#[tactic(auto, using(crate::proofs::Sums::sums))]
fn compared(fractions: &[Frac], count: usize) -> u128
    requires { length fractions.now ≡ 1024 }
    ensures { result ≡ sum_below (less_count fractions.now) count }
{
    let mut total = 0u128;
    for step in 0..count {
        let (first, second) = pair(fractions, step);
        total += one_if_less(first.compare(second));
    }
    total
}

// The lengths of the first fresh names over the base together.
#[tactic(auto, using(crate::proofs::Sums::sums))]
fn named(alloc: Global, base: &[u8], count: usize) -> Result<u128, Memory>
    requires { IsTrue (is_spelled base.now) }
    ensures { IfOk result (λ total. total ≡ sum_below (name_length base.now) count) }
{
    let mut names = FreshNames::new(alloc);
    let mut total = 0u128;
    for _made in 0..count {
        total += names.next(alloc, base)?.bytes().len() as u128;
    }
    Ok(total)
}

fn done(alloc: Global, work: Work, count: usize) -> Result<u128>
    ensures { IfOk result (λ total. total ≡ total_of work count) }
{
    match work {
        Work::Add => Ok(added(fractions(alloc)?.as_slice(), count)?),
        Work::Compare => Ok(compared(fractions(alloc)?.as_slice(), count)),
        Work::Fresh => Ok(named(alloc, b"move", count)?),
    }
}

fn main(rt: HostRuntime) -> Result<()> {
    let mut words = env::args(&rt)?;
    let _program = words.next();
    let what = words.next().context("no word")?;
    let work = work_of(what.as_str()).context("usage: bench_base add|compare|fresh COUNT")?;
    let count = words.next().context("no count")?.parse::<u32>()?;
    let total = done(rt.alloc(), work, count as usize)?;
    println!(rt; "{total}")?;
    Ok(())
}
