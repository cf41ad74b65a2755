//! The program: the working folder as the store, standard output as the sink.
#![tactic(auto)]

ghost use Rattle.std.specs.Prelude.{◌≡◌, [], map, drop, string_bytes, IfOk, IfErr, OnErr, is_ok, false};
ghost use Rattle.std.specs.Vec.Iter.{into_iter_items};
ghost use Rattle.std.specs.IoError.{error_kind};
ghost use Rattle.std.specs.declared.io.ErrorKind.TheVariants.{OutOfMemory};
ghost use Rattle.nadvorzet.specs.Ran.{Ran};

use std::alloc::Global;
use std::env::{self, Args};
use std::io;
use std::io::ErrorKind;
use std::process::ExitCode;
use up_run::run;
use up_store::{FolderStore, Sink, StdSink, Store, Word};
use up_text::Memory;
use up_top::Status;

// The words that these are.
fn words_of(alloc: Global, texts: Args) -> Result<Vec<Word>, Memory>
    ensures { IfOk result (λ words. words.items ≡ map string_bytes (into_iter_items texts)) }
{
    let mut words = Vec::new(alloc);
    for text in texts {
        words.push(Word::from_text(text))?;
    }
    Ok(words)
}

// The words behind the program's name; none where the arguments are no text.
fn words_behind_name(alloc: Global, args: io::Result<Args>) -> Result<Vec<Word>, Memory>
    ensures text { IfOk args (λ args. IfOk result (λ words. words.items ≡ drop 1 (map string_bytes (into_iter_items args)))) }
    ensures no_text { OnErr args (IfOk result (λ words. words.items ≡ [])) }
    ensures memory { IfErr args (λ error. error_kind error ≡ OutOfMemory → is_ok result ≡ false) }
{
    match args {
        Ok(mut args) => {
            let _program = args.next();
            words_of(alloc, args)
        }
        Err(error) => {
            if error.kind() == ErrorKind::OutOfMemory {
                return Err(Memory);
            }
            Ok(Vec::new(alloc))
        }
    }
}

// Runs the words, and gives the number of the status. Where there was no memory for the words, it is that of want of memory.
fn ended<W: Store, K: Sink>(
    alloc: Global,
    words: Result<Vec<Word>, Memory>,
    store: &mut W,
    out: &mut K,
) -> u8
    ensures ran { IfOk words (λ words. Ran words.items (W.held store.old) (K.faults out.old) (K.faults out.new) (K.written out.old) (K.written out.new) result) }
    ensures memory { OnErr words (result ≡ 2) }
    ensures held { OnErr words (W.held store.new ≡ W.held store.old) }
    ensures written { OnErr words (K.written out.new ≡ K.written out.old) }
{
    match words {
        Ok(words) => run(alloc, words.as_slice(), store, out).code(),
        Err(Memory) => Status::Memory.code(),
    }
}

fn main(rt: HostRuntime) -> ExitCode {
    let words = words_behind_name(rt.alloc(), env::args(&rt));
    let mut store = FolderStore::new(&rt);
    let mut out = StdSink::new(&rt);
    ExitCode::from(ended(rt.alloc(), words, &mut store, &mut out))
}
