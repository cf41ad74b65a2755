ghost use Rattle.std.specs.Prelude.{◌≡◌, ◌≤◌, [], None, length, IfOk, IsErrOf, IsTrue};
ghost use Rattle.up_store.specs.Outside.{IsSuffix};

use crate::{INPUT_LIMIT, Pieces, ReadFail, Store, Word, WriteFail};
use std::alloc::Global;
use std::fs;
use std::io::{ErrorKind, Read, Write};
use std::rt::Files;

/// The files of the working folder. It tells nothing of what they hold.
#[derive(Drop)]
pub struct FolderStore<'r, R: Files> {
    rt: &'r R,
    faults: u64,
    misses: u64,
    larges: u64,
    losses: u64,
}

impl<'r, R: Files> FolderStore<'r, R> {
    /// The store over the working folder of the process.
    pub fn new(rt: &'r R) -> FolderStore<'r, R>
        ensures faults { result.faults ≡ 0 }
        ensures misses { result.misses ≡ 0 }
        ensures larges { result.larges ≡ 0 }
        ensures losses { result.losses ≡ 0 }
    {
        FolderStore {
            rt,
            faults: 0,
            misses: 0,
            larges: 0,
            losses: 0,
        }
    }
}

// The rest of a file, at least one byte a turn, up to the first byte past the limit.
fn read_rest<F: Read>(alloc: Global, file: &mut F) -> Result<Vec<u8>, ReadFail> {
    let mut bytes = Vec::new(alloc);
    let mut buf = [0u8; 8192];
    while bytes.len() <= INPUT_LIMIT {
        let room = (INPUT_LIMIT + 1 - bytes.len()).min(8192);
        let Ok(count) = file.read(&mut buf[..room]) else {
            return Err(ReadFail::Failed);
        };
        if count == 0 {
            return Ok(bytes);
        }
        if bytes.extend_from_slice(&buf[..count]).is_err() {
            return Err(ReadFail::Memory);
        }
    }
    Err(ReadFail::TooLarge)
}

fn read_file<R: Files>(alloc: Global, rt: &R, name: &Word) -> Result<Vec<u8>, ReadFail> {
    let mut file = match fs::open(rt, name.text()) {
        Ok(file) => file,
        Err(error) => {
            let kind = error.kind();
            return Err(if kind == ErrorKind::NotFound {
                ReadFail::Missing
            } else {
                ReadFail::Failed
            });
        }
    };
    read_rest(alloc, &mut file)
}

// Writes all bytes, at least one a turn.
fn write_all<F: Write>(file: &mut F, bytes: &[u8]) -> bool {
    let mut at = 0;
    while at < bytes.len() {
        match file.write(&bytes[at..]) {
            Ok(0) => return false,
            Ok(count) => at += count,
            Err(_) => return false,
        }
    }
    true
}

// Makes the file anew.
fn write_file<R: Files>(rt: &R, name: &Word, bytes: &[u8]) -> bool {
    let Ok(mut file) = fs::create(rt, name.text()) else {
        return false;
    };
    write_all(&mut file, bytes) && file.flush().is_ok()
}

// Writes piece after piece, up to the first that fails.
#[tactic(auto, using(crate::proofs::Suffix::pieces))]
fn write_each<F: Write, P: Pieces>(file: &mut F, pieces: &mut P) -> bool
    ensures end { IsTrue result → P.rest pieces.new ≡ [] }
    ensures left { IsSuffix (P.rest pieces.new) (P.rest pieces.old) }
{
    while pieces.advance() {
        if !write_all(file, pieces.piece()) {
            return false;
        }
    }
    true
}

// Makes the file anew, one piece at a time.
#[tactic(auto, using(crate::proofs::Suffix::pieces))]
fn write_file_pieces<R: Files, P: Pieces>(rt: &R, name: &Word, pieces: &mut P) -> bool
    ensures end { IsTrue result → P.rest pieces.new ≡ [] }
    ensures left { IsSuffix (P.rest pieces.new) (P.rest pieces.old) }
{
    let Ok(mut file) = fs::create(rt, name.text()) else {
        return false;
    };
    write_each(&mut file, pieces) && file.flush().is_ok()
}

impl<'r, R: Files> Store for FolderStore<'r, R> {
    ghost held = { λ _. None };

    ghost faults = { λ s _. s.faults };

    ghost misses = { λ s _. s.misses };

    ghost larges = { λ s _. s.larges };

    ghost losses = { λ s _. s.losses };

    fn read(&mut self, alloc: Global, name: &Word) -> Result<Vec<u8>, ReadFail> {
        let answer = read_file(alloc, self.rt, name);
        match answer {
            Err(ReadFail::Failed) => self.faults = self.faults.saturating_add(1),
            Err(ReadFail::Missing) => self.misses = self.misses.saturating_add(1),
            Err(ReadFail::TooLarge) => self.larges = self.larges.saturating_add(1),
            _ => {}
        }
        answer
    }

    fn write(&mut self, _: Global, name: &Word, bytes: &[u8]) -> Result<(), WriteFail> {
        if write_file(self.rt, name, bytes) {
            return Ok(());
        }
        self.losses = self.losses.saturating_add(1);
        Err(WriteFail::Failed)
    }

    fn write_pieces<P: Pieces>(
        &mut self,
        _: Global,
        name: &Word,
        pieces: &mut P,
    ) -> Result<(), WriteFail> {
        if write_file_pieces(self.rt, name, pieces) {
            return Ok(());
        }
        self.losses = self.losses.saturating_add(1);
        Err(WriteFail::Failed)
    }
}
