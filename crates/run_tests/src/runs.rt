use std::alloc::Global;
use up_run::run;
use up_store::{Failing, MemorySink, MemoryStore, Word};
use up_text::{List, Memory};

// What a run left behind.
#[derive(Drop)]
pub(crate) struct Outcome {
    pub code: u8,
    pub store: MemoryStore,
    pub sink: MemorySink,
}

pub(crate) fn word(alloc: Global, text: &str) -> Result<Word, Memory> {
    Word::read(alloc, text.as_bytes()).map_err(|_| Memory)
}

// A store that holds these names and texts, and fails at no call or at one.
pub(crate) fn store_of(
    alloc: Global,
    files: &[(&str, &str)],
    fails: Option<Failing>,
) -> Result<MemoryStore, Memory> {
    let mut failing = List::new(alloc);
    if let Some(failure) = fails {
        failing.push(failure)?;
    }
    let mut store = MemoryStore::new(alloc, failing);
    for file in files {
        let (name, text) = *file;
        store.hold(&word(alloc, name)?, text.as_bytes())?;
    }
    Ok(store)
}

// Runs a line of words on a store, over a sink that takes so many bytes, or all where none is said.
pub(crate) fn run_on(
    alloc: Global,
    line: &str,
    store: MemoryStore,
    most: Option<u64>,
) -> Result<Outcome, Memory> {
    let mut store = store;
    let mut words = Vec::new(alloc);
    for text in line.split(' ') {
        words.push(word(alloc, text)?)?;
    }
    let mut sink = MemorySink::new(alloc, 1000, most)?;
    let code = run(alloc, words.as_slice(), &mut store, &mut sink).code();
    Ok(Outcome { code, store, sink })
}

// Runs a line of words on these names and texts, where nothing fails.
pub(crate) fn run_line(
    alloc: Global,
    line: &str,
    files: &[(&str, &str)],
) -> Result<Outcome, Memory> {
    run_on(alloc, line, store_of(alloc, files, None)?, None)
}

pub(crate) fn is_held(outcome: &Outcome, alloc: Global, name: &str, want: Option<&str>) -> bool {
    let Ok(name) = word(alloc, name) else {
        return false;
    };
    match (outcome.store.get(&name), want) {
        (None, None) => true,
        (Some(text), Some(want)) => text == want.as_bytes(),
        _ => false,
    }
}
