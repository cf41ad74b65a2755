use crate::runs::{is_held, run_line, run_on, store_of, word};
use crate::texts::{
    ENGINE, GRIPPER, GRIPPER_PLAN, ROOMS, WRITTEN_DOMAIN, WRITTEN_MAP, WRITTEN_PROBLEM,
};
use up_store::{Failing, MemoryStore};
use up_text::List;

const COMPILE: &str = "compile d p e od op m";

const TEXTS: [(&str, &str); 3] = [("d", GRIPPER), ("p", ROOMS), ("e", ENGINE)];

// The call of the store that fails and how much of a write stands; the status and the text; the written domain, problem and map.
const FAULTS: [(u64, Option<u64>, u8, &str, [Option<&str>; 3]); 6] = [
    (1, None, 4, "read fault d\n", [None, None, None]),
    (2, None, 4, "read fault p\n", [None, None, None]),
    (3, None, 4, "read fault e\n", [None, None, None]),
    (4, None, 5, "write fault\n", [None, None, None]),
    (
        5,
        Some(10),
        5,
        "write fault\n",
        [Some(WRITTEN_DOMAIN), Some("(define (p"), None],
    ),
    (
        6,
        Some(0),
        5,
        "write fault\n",
        [Some(WRITTEN_DOMAIN), Some(WRITTEN_PROBLEM), Some("")],
    ),
];

#[test]
fn keeps_what_was_written_before_a_fault(rt: HostRuntime) {
    let alloc = rt.alloc();
    for (call, kept, code, text, held) in FAULTS {
        let store = store_of(alloc, &TEXTS, Some(Failing { call, kept })).expect(&rt, "room");
        let outcome = run_on(alloc, COMPILE, store, None).expect(&rt, "room");
        assert_eq!(rt; outcome.sink.bytes(), text.as_bytes());
        assert_eq!(rt; outcome.code, code);
        let [domain, problem, map] = held;
        assert!(rt; is_held(&outcome, alloc, "od", domain));
        assert!(rt; is_held(&outcome, alloc, "op", problem));
        assert!(rt; is_held(&outcome, alloc, "m", map));
    }
}

const BEFORE: &str = "before";

// The call that fails in a plan's way back and how much of a write stands; the status and the text; the output.
const BACK_FAULTS: [(u64, Option<u64>, u8, &str, &str); 4] = [
    (3, None, 4, "read fault m\n", BEFORE),
    (4, None, 4, "read fault plan\n", BEFORE),
    (5, None, 5, "write fault\n", BEFORE),
    (5, Some(3), 5, "write fault\n", "(pi"),
];

#[test]
fn keeps_the_output_where_back_fails(rt: HostRuntime) {
    let alloc = rt.alloc();
    let files = [
        ("d", GRIPPER),
        ("p", ROOMS),
        ("m", WRITTEN_MAP),
        ("plan", GRIPPER_PLAN),
        ("out", BEFORE),
    ];
    for (call, kept, code, text, out) in BACK_FAULTS {
        let store = store_of(alloc, &files, Some(Failing { call, kept })).expect(&rt, "room");
        let outcome = run_on(alloc, "back d p m plan out", store, None).expect(&rt, "room");
        assert_eq!(rt; outcome.sink.bytes(), text.as_bytes());
        assert_eq!(rt; outcome.code, code);
        assert!(rt; is_held(&outcome, alloc, "out", Some(out)));
    }
}

#[test]
fn a_failed_put_is_a_write_fault(rt: HostRuntime) {
    let alloc = rt.alloc();
    let store = store_of(alloc, &TEXTS, None).expect(&rt, "room");
    let outcome = run_on(alloc, COMPILE, store, Some(4)).expect(&rt, "room");
    assert_eq!(rt; outcome.sink.bytes(), b"done".as_slice());
    assert_eq!(rt; outcome.code, 5);
    assert!(rt; is_held(&outcome, alloc, "m", Some(WRITTEN_MAP)));
}

#[test]
fn names_the_first_input_that_is_missing(rt: HostRuntime) {
    let alloc = rt.alloc();
    for line in [
        "kind d gone",
        "pipeline gone d p",
        "compile d p gone od op m",
        "validate d p gone",
        "back d p e gone out",
    ] {
        let outcome = run_line(alloc, line, &TEXTS).expect(&rt, "room");
        assert_eq!(rt; outcome.sink.bytes(), b"missing gone\n".as_slice());
        assert_eq!(rt; outcome.code, 3);
    }
}

#[test]
fn reads_no_longer_text(rt: HostRuntime) {
    let alloc = rt.alloc();
    let blanks = vec![in alloc; b' '; 16_777_217].expect(&rt, "room");
    let name = word(alloc, "d").expect(&rt, "room");
    let mut store = MemoryStore::new(alloc, List::new(alloc));
    store.hold(&name, blanks.as_slice()).expect(&rt, "room");
    let outcome = run_on(alloc, "kind d p", store, None).expect(&rt, "room");
    assert_eq!(rt; outcome.sink.bytes(), b"too large d\n".as_slice());
    assert_eq!(rt; outcome.code, 16);
}
