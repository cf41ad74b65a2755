ghost use Rattle.std.specs.Prelude.{◌≡◌, ◌↔◌, ◌≤◌, [], ◌==◌, find, min, Some, None, Err, option_map, ℕ, List, IfOk, IfSome, IsSome, IsSomeAnd, IsNone, IsOk, IsErr, IsTrue, OnOk, OnErr, IsErrOf};
ghost use Rattle.std.specs.Option.{option_copied};
ghost use Rattle.up_store.specs.Outside.{with_file, held_with, IsSuffix, KeepsOrCuts, ReadAnswers, Rose, NoneFalls};
ghost use Rattle.up_store.specs.Planned.{text_of, planned};

use crate::{INPUT_LIMIT, Pieces, ReadFail, Store, Word, WriteFail};
use std::alloc::Global;
use up_text::{List, Memory};

/// A call of the store that fails, counted from 1, and how much of a failing write stands.
#[derive(Clone, Copy, Debug, PartialEq, Eq)]
pub struct Failing {
    /// The number of the call, counted from 1.
    pub call: u64,
    /// How many bytes of a write stand, or none where the old text does.
    pub kept: Option<u64>,
}

#[derive(Drop)]
pub struct Text {
    name: Vec<u8>,
    bytes: Vec<u8>,
}

/// A store in memory, some of whose calls fail as planned.
#[derive(Drop)]
pub struct MemoryStore {
    alloc: Global,
    // the newest first
    texts: Vec<Text>,
    failing: List<Failing>,
    calls: u64,
    faults: u64,
    misses: u64,
    larges: u64,
    losses: u64,
}

// The plan for a call.
fn plan_of(failing: &[Failing], call: u64) -> Option<Failing>
    ensures { result ≡ planned failing.now call }
{
    failing.iter().copied().find(|plan| plan.call == call)
}

// The newest text under a name.
fn newest<'a>(texts: &'a [Text], name: &[u8]) -> Option<&'a [u8]>
    ensures { option_map (λ x. x.now) result ≡ text_of texts.now name.now }
{
    for text in texts {
        if text.name.as_slice() == name {
            return Some(text.bytes.as_slice());
        }
    }
    None
}

// How many bytes stand of a text of this length.
fn kept_length(kept: u64, length: usize) -> usize
    ensures { result ≡ min kept length }
{
    kept.min(length as u64) as usize
}

// A text in front of the others.
fn add_text(alloc: Global, texts: &mut Vec<Text>, name: &[u8], bytes: Vec<u8>) -> Result<(), Memory>
    ensures ok { OnOk result (text_of texts.new.items ≡ with_file name.now bytes.items (text_of texts.old.items)) }
    ensures err { OnErr result (texts.new.items ≡ texts.old.items) }
{
    let text = Text {
        name: name.to_vec(alloc)?,
        bytes,
    };
    texts.insert(0, text)?;
    Ok(())
}

// All pieces together.
#[tactic(auto, using(crate::proofs::Suffix::pieces))]
fn gather<P: Pieces>(alloc: Global, pieces: &mut P) -> Result<Vec<u8>, Memory>
    ensures all { IfOk result (λ bytes. bytes.items ≡ P.rest pieces.old) }
    ensures end { OnOk result (P.rest pieces.new ≡ []) }
    ensures left { OnErr result (IsSuffix (P.rest pieces.new) (P.rest pieces.old)) }
{
    let mut bytes = Vec::new(alloc);
    while pieces.advance() {
        bytes.extend_from_slice(pieces.piece())?;
    }
    Ok(bytes)
}

impl MemoryStore {
    ghost use Rattle.up_store.specs.Memory.{files_of, faults_of, misses_of, larges_of, losses_of, next_plan, cut_texts, SameCounts, SameFaults, NoneCounted, HasPlans, Called};

    /// An empty store whose calls fail as planned.
    pub fn new(alloc: Global, failing: List<Failing>) -> MemoryStore
        ensures empty { (name : List ℕ) → files_of result name ≡ None }
        ensures plans { HasPlans failing 0 result }
        ensures counts { NoneCounted result }
    {
        MemoryStore {
            alloc,
            texts: Vec::new(alloc),
            failing,
            calls: 0,
            faults: 0,
            misses: 0,
            larges: 0,
            losses: 0,
        }
    }

    /// Puts a text under a name, which is no call that a plan counts.
    pub fn hold(&mut self, name: &Word, bytes: &[u8]) -> Result<(), Memory>
        ensures ok { OnOk result (files_of self.new ≡ with_file name.now bytes.now (files_of self.old)) }
        ensures err { OnErr result (files_of self.new ≡ files_of self.old) }
        ensures counts { SameCounts self.old self.new }
    {
        let bytes = bytes.to_vec(self.alloc)?;
        self.hold_owned(name, bytes)
    }

    // Puts owned bytes under a name.
    fn hold_owned(&mut self, name: &Word, bytes: Vec<u8>) -> Result<(), Memory>
        ensures ok { OnOk result (files_of self.new ≡ with_file name.now bytes.items (files_of self.old)) }
        ensures err { OnErr result (files_of self.new ≡ files_of self.old) }
        ensures counts { SameCounts self.old self.new }
    {
        add_text(self.alloc, &mut self.texts, name.bytes(), bytes)
    }

    // Puts all pieces together under a name.
    fn hold_pieces<P: Pieces>(&mut self, name: &Word, pieces: &mut P) -> Result<(), Memory>
        ensures ok { OnOk result (files_of self.new ≡ with_file name.now (P.rest pieces.old) (files_of self.old)) }
        ensures err { OnErr result (files_of self.new ≡ files_of self.old) }
        ensures counts { SameCounts self.old self.new }
        ensures end { OnOk result (P.rest pieces.new ≡ []) }
        ensures left { OnErr result (IsSuffix (P.rest pieces.new) (P.rest pieces.old)) }
    {
        match gather(self.alloc, pieces) {
            Ok(bytes) => self.hold_owned(name, bytes),
            Err(Memory) => Err(Memory),
        }
    }

    // What stands after a write that fails as planned.
    fn hold_cut(&mut self, plan: Failing, name: &Word, bytes: &[u8]) -> Result<(), Memory>
        ensures ok { OnOk result (files_of self.new ≡ cut_texts plan name.now bytes.now (files_of self.old)) }
        ensures cut { OnOk result (KeepsOrCuts name.now bytes.now (Some (files_of self.old)) (Some (files_of self.new))) }
        ensures refused { plan.kept ≡ None → IsOk result }
        ensures err { OnErr result (files_of self.new ≡ files_of self.old) }
        ensures counts { SameCounts self.old self.new }
    {
        match plan.kept {
            None => Ok(()),
            Some(kept) => {
                let most = kept_length(kept, bytes.len());
                self.hold(name, &bytes[..most])?;
                Ok(())
            }
        }
    }

    // What stands of the pieces after a write that fails as planned.
    fn hold_cut_pieces<P: Pieces>(
        &mut self,
        plan: Failing,
        name: &Word,
        pieces: &mut P,
    ) -> Result<(), Memory>
        ensures ok { OnOk result (files_of self.new ≡ cut_texts plan name.now (P.rest pieces.old) (files_of self.old)) }
        ensures refused { plan.kept ≡ None → IsOk result }
        ensures untouched { plan.kept ≡ None → P.rest pieces.new ≡ P.rest pieces.old }
        ensures err { OnErr result (files_of self.new ≡ files_of self.old) }
        ensures counts { SameCounts self.old self.new }
        ensures left { IsSuffix (P.rest pieces.new) (P.rest pieces.old) }
    {
        let Some(kept) = plan.kept else {
            return Ok(());
        };
        match gather(self.alloc, pieces) {
            Ok(mut bytes) => {
                bytes.truncate(kept_length(kept, bytes.len()));
                self.hold_owned(name, bytes)
            }
            Err(Memory) => Err(Memory),
        }
    }

    // Counts a call and answers the plan for it.
    fn plan_call(&mut self) -> Option<Failing>
        ensures plan { result ≡ next_plan self.old }
        ensures called { Called self.old self.new }
        ensures texts { self.new.texts ≡ self.old.texts }
        ensures counts { SameFaults self.old self.new }
    {
        self.calls = self.calls.saturating_add(1);
        plan_of(self.failing.as_slice(), self.calls)
    }

    // Writes a text as the plan for the call has it.
    fn write_planned(
        &mut self,
        plan: Option<Failing>,
        name: &Word,
        bytes: &[u8],
    ) -> Result<(), WriteFail>
        ensures planned { IfSome plan (λ plan. IsErr result) }
        ensures refused { IfSome plan (λ plan. plan.kept ≡ None → result ≡ Err WriteFail.Failed) }
        ensures cut_at { IfSome plan (λ plan. IsErrOf result WriteFail.Failed → files_of self.new ≡ cut_texts plan name.now bytes.now (files_of self.old)) }
        ensures unplanned { IsNone plan → ¬ IsErrOf result WriteFail.Failed }
        ensures quiet { IsNone plan → self.new.losses ≡ self.old.losses }
        ensures same { HasPlans self.old.failing self.old.calls self.new }
        ensures written { OnOk result (files_of self.new ≡ with_file name.now bytes.now (files_of self.old)) }
        ensures memory { IsErrOf result WriteFail.Memory → files_of self.new ≡ files_of self.old }
        ensures cut { IsErrOf result WriteFail.Failed → KeepsOrCuts name.now bytes.now (Some (files_of self.old)) (Some (files_of self.new)) }
        ensures failed { IsErrOf result WriteFail.Failed → Rose self.old.losses self.new.losses }
        ensures losses { self.old.losses ≤ self.new.losses }
        ensures faults { self.new.faults ≡ self.old.faults }
        ensures misses { self.new.misses ≡ self.old.misses }
        ensures larges { self.new.larges ≡ self.old.larges }
    {
        let Some(plan) = plan else {
            return self.hold(name, bytes).map_err(|_| WriteFail::Memory);
        };
        match self.hold_cut(plan, name, bytes) {
            Ok(()) => {
                self.losses = self.losses.saturating_add(1);
                Err(WriteFail::Failed)
            }
            Err(Memory) => Err(WriteFail::Memory),
        }
    }

    /// The text under a name.
    pub fn get(&self, name: &Word) -> Option<&[u8]>
        ensures { option_map (λ x. x.now) result ≡ files_of self.now name.now }
    {
        newest(&self.texts, name.bytes())
    }
}

impl Store for MemoryStore {
    ghost use Rattle.std.specs.Prelude.{ℕ, List, [], None, Some, Err, ◌≡◌, IfSome, IsSome, IsNone, IsErr, OnOk, OnErr, IsErrOf};
    ghost use Rattle.up_store.specs.Outside.{held_with, KeepsOrCuts, IsSuffix, ReadAnswers, Rose, NoneFalls};
    ghost use Rattle.up_store.specs.Memory.{files_of, faults_of, misses_of, larges_of, losses_of, next_plan, cut_texts, Called};

    ghost held = { λ s. Some (files_of s) };

    ghost faults = { faults_of };

    ghost misses = { misses_of };

    ghost larges = { larges_of };

    ghost losses = { losses_of };

    fn read(&mut self, alloc: Global, name: &Word) -> Result<Vec<u8>, ReadFail>
        ensures planned { IsSome (next_plan self.old) → result ≡ Err ReadFail.Failed }
        ensures unplanned { IsNone (next_plan self.old) → ¬ IsErrOf result ReadFail.Failed }
        ensures quiet { IsNone (next_plan self.old) → faults_of self.new ≡ faults_of self.old }
        ensures called { Called self.old self.new }
        ensures texts { files_of self.new ≡ files_of self.old }
        ensures kept { Some (files_of self.new) ≡ Some (files_of self.old) }
        ensures answers { ReadAnswers (files_of self.old name.now) result }
        ensures failed { IsErrOf result ReadFail.Failed → Rose (faults_of self.old name.now) (faults_of self.new name.now) }
        ensures missing { IsErrOf result ReadFail.Missing → Rose (misses_of self.old name.now) (misses_of self.new name.now) }
        ensures too_large { IsErrOf result ReadFail.TooLarge → Rose (larges_of self.old name.now) (larges_of self.new name.now) }
        ensures faults { NoneFalls (faults_of self.old) (faults_of self.new) }
        ensures misses { NoneFalls (misses_of self.old) (misses_of self.new) }
        ensures larges { NoneFalls (larges_of self.old) (larges_of self.new) }
        ensures losses { losses_of self.new ≡ losses_of self.old }
    {
        if self.plan_call().is_some() {
            self.faults = self.faults.saturating_add(1);
            return Err(ReadFail::Failed);
        }
        let Some(text) = newest(&self.texts, name.bytes()) else {
            self.misses = self.misses.saturating_add(1);
            return Err(ReadFail::Missing);
        };
        if text.len() > INPUT_LIMIT {
            self.larges = self.larges.saturating_add(1);
            return Err(ReadFail::TooLarge);
        }
        text.to_vec(alloc).map_err(|_| ReadFail::Memory)
    }

    fn write(&mut self, _: Global, name: &Word, bytes: &[u8]) -> Result<(), WriteFail>
        ensures planned { IfSome (next_plan self.old) (λ plan. IsErr result) }
        ensures refused { IfSome (next_plan self.old) (λ plan. plan.kept ≡ None → result ≡ Err WriteFail.Failed) }
        ensures cut_at { IfSome (next_plan self.old) (λ plan. IsErrOf result WriteFail.Failed → files_of self.new ≡ cut_texts plan name.now bytes.now (files_of self.old)) }
        ensures unplanned { IsNone (next_plan self.old) → ¬ IsErrOf result WriteFail.Failed }
        ensures quiet { IsNone (next_plan self.old) → losses_of self.new ≡ losses_of self.old }
        ensures called { Called self.old self.new }
        ensures written { OnOk result (Some (files_of self.new) ≡ held_with name.now bytes.now (Some (files_of self.old))) }
        ensures memory { IsErrOf result WriteFail.Memory → Some (files_of self.new) ≡ Some (files_of self.old) }
        ensures cut { IsErrOf result WriteFail.Failed → KeepsOrCuts name.now bytes.now (Some (files_of self.old)) (Some (files_of self.new)) }
        ensures failed { IsErrOf result WriteFail.Failed → Rose (losses_of self.old name.now) (losses_of self.new name.now) }
        ensures losses { NoneFalls (losses_of self.old) (losses_of self.new) }
        ensures faults { faults_of self.new ≡ faults_of self.old }
        ensures misses { misses_of self.new ≡ misses_of self.old }
        ensures larges { larges_of self.new ≡ larges_of self.old }
    {
        let plan = self.plan_call();
        self.write_planned(plan, name, bytes)
    }

    fn write_pieces<P: Pieces>(
        &mut self,
        _: Global,
        name: &Word,
        pieces: &mut P,
    ) -> Result<(), WriteFail>
        ensures planned { IfSome (next_plan self.old) (λ plan. IsErr result) }
        ensures refused { IfSome (next_plan self.old) (λ plan. plan.kept ≡ None → result ≡ Err WriteFail.Failed) }
        ensures untouched { IfSome (next_plan self.old) (λ plan. plan.kept ≡ None → P.rest pieces.new ≡ P.rest pieces.old) }
        ensures cut_at { IfSome (next_plan self.old) (λ plan. IsErrOf result WriteFail.Failed → files_of self.new ≡ cut_texts plan name.now (P.rest pieces.old) (files_of self.old)) }
        ensures unplanned { IsNone (next_plan self.old) → ¬ IsErrOf result WriteFail.Failed }
        ensures quiet { IsNone (next_plan self.old) → losses_of self.new ≡ losses_of self.old }
        ensures called { Called self.old self.new }
        ensures written { OnOk result (Some (files_of self.new) ≡ held_with name.now (P.rest pieces.old) (Some (files_of self.old))) }
        ensures memory { IsErrOf result WriteFail.Memory → Some (files_of self.new) ≡ Some (files_of self.old) }
        ensures cut { IsErrOf result WriteFail.Failed → KeepsOrCuts name.now (P.rest pieces.old) (Some (files_of self.old)) (Some (files_of self.new)) }
        ensures failed { IsErrOf result WriteFail.Failed → Rose (losses_of self.old name.now) (losses_of self.new name.now) }
        ensures losses { NoneFalls (losses_of self.old) (losses_of self.new) }
        ensures faults { faults_of self.new ≡ faults_of self.old }
        ensures misses { misses_of self.new ≡ misses_of self.old }
        ensures larges { larges_of self.new ≡ larges_of self.old }
        ensures end { OnOk result (P.rest pieces.new ≡ []) }
        ensures left { OnErr result (IsSuffix (P.rest pieces.new) (P.rest pieces.old)) }
    {
        let Some(plan) = self.plan_call() else {
            return self
                .hold_pieces(name, pieces)
                .map_err(|_| WriteFail::Memory);
        };
        match self.hold_cut_pieces(plan, name, pieces) {
            Ok(()) => {
                self.losses = self.losses.saturating_add(1);
                Err(WriteFail::Failed)
            }
            Err(Memory) => Err(WriteFail::Memory),
        }
    }
}
