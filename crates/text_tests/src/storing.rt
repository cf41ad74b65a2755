use crate::threes::Threes;
use up_store::{
    Failing, FolderStore, INPUT_LIMIT, MemorySink, MemoryStore, ReadFail, Sink, SinkFailed,
    StdSink, Store, Word, WordError, WriteFail,
};
use up_text::List;

#[test]
fn fails_as_planned(rt: HostRuntime) {
    let alloc = rt.alloc();
    let name = Word::read(alloc, b"n").expect(&rt, "a word");
    let mut failing = List::new(alloc);
    failing
        .push(Failing {
            call: 5,
            kept: Some(10),
        })
        .expect(&rt, "room");
    failing
        .push(Failing {
            call: 5,
            kept: None,
        })
        .expect(&rt, "room");
    let mut store = MemoryStore::new(alloc, failing);
    let text = b"abcdefghijkl".as_slice();
    for _ in 1..5 {
        assert_eq!(rt; store.write(alloc, &name, b"old"), Ok(()));
    }
    let mut pieces = Threes::new(text);
    assert_eq!(rt;
        store.write_pieces(alloc, &name, &mut pieces),
        Err(WriteFail::Failed)
    );
    assert_eq!(rt; store.get(&name), Some(&text[..10]));
    let mut pieces = Threes::new(text);
    assert_eq!(rt; store.write_pieces(alloc, &name, &mut pieces), Ok(()));
    assert_eq!(rt; store.get(&name), Some(text));
}

#[test]
fn reads_up_to_the_limit(rt: HostRuntime) {
    let alloc = rt.alloc();
    let name = Word::read(alloc, b"n").expect(&rt, "a word");
    let mut store = MemoryStore::new(alloc, List::new(alloc));
    assert_eq!(rt; store.read(alloc, &name).err(), Some(ReadFail::Missing));
    let mut text = Vec::new(alloc);
    text.resize(INPUT_LIMIT, 0u8).expect(&rt, "room");
    store.hold(&name, &text).expect(&rt, "room");
    assert!(rt; store.read(alloc, &name).is_ok());
    text.push(0).expect(&rt, "room");
    store.hold(&name, &text).expect(&rt, "room");
    assert_eq!(rt; store.read(alloc, &name).err(), Some(ReadFail::TooLarge));
    assert_eq!(rt; Word::read(alloc, &[255]).err(), Some(WordError::NotText));
}

#[test]
fn puts_what_fits(rt: HostRuntime) {
    let mut sink = MemorySink::new(rt.alloc(), 8, Some(4)).expect(&rt, "room");
    assert_eq!(rt; sink.put(b"don"), Ok(()));
    assert_eq!(rt; sink.put(b"e 1"), Err(SinkFailed));
    assert_eq!(rt; sink.bytes(), b"done".as_slice());
}

#[test]
fn a_file_is_written_and_read_again(rt: HostRuntime) {
    let alloc = rt.alloc();
    let mut store = FolderStore::new(&rt);
    let there = Word::read(alloc, b"t").expect(&rt, "a word");
    let gone = Word::read(alloc, b"u").expect(&rt, "a word");
    assert_eq!(rt; store.write(alloc, &there, b"longer"), Ok(()));
    assert_eq!(rt;
        store.write_pieces(alloc, &there, &mut Threes::new(b"abcdefg")),
        Ok(())
    );
    let text = store.read(alloc, &there).expect(&rt, "held");
    assert_eq!(rt; text.as_slice(), b"abcdefg".as_slice());
    assert_eq!(rt; store.write(alloc, &there, b"abc"), Ok(()));
    let text = store.read(alloc, &there).expect(&rt, "held");
    assert_eq!(rt; text.as_slice(), b"abc".as_slice());
    assert_eq!(rt; store.read(alloc, &gone).err(), Some(ReadFail::Missing));
}

#[test]
fn standard_output_takes_bytes(rt: HostRuntime) {
    assert_eq!(rt; StdSink::new(&rt).put(b"abc"), Ok(()));
}
