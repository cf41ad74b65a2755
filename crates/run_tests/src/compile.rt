use crate::runs::{is_held, run_line};
use crate::texts::{DOORS, ENGINE, GRIPPER, ROOMS, WRITTEN_DOMAIN, WRITTEN_MAP, WRITTEN_PROBLEM};

const COMPILE: &str = "compile d p e od op m";

#[test]
fn compiles_the_gripper(rt: HostRuntime) {
    let alloc = rt.alloc();
    let files = [("d", GRIPPER), ("p", ROOMS), ("e", ENGINE)];
    for line in [
        COMPILE,
        "compile d p e od op m 1",
        "compile d p e od op m 5000000",
    ] {
        let outcome = run_line(alloc, line, &files).expect(&rt, "room");
        assert_eq!(rt; outcome.sink.bytes(), b"done actions 3\n".as_slice());
        assert_eq!(rt; outcome.code, 0);
        assert!(rt; is_held(&outcome, alloc, "od", Some(WRITTEN_DOMAIN)));
        assert!(rt; is_held(&outcome, alloc, "op", Some(WRITTEN_PROBLEM)));
        assert!(rt; is_held(&outcome, alloc, "m", Some(WRITTEN_MAP)));
    }
}

// A domain, a problem and an engine; the status and the text.
const REFUSED: [([&str; 3], u8, &str); 13] = [
    (
        [GRIPPER, ROOMS, "name = \"e\"\nfeatures = []"],
        9,
        "no pipeline\n",
    ),
    (
        [GRIPPER, ROOMS, "name = \"e\"\nfeatures = [\"FLYING\"]"],
        8,
        "engine refused unknown-feature FLYING\n",
    ),
    ([GRIPPER, ROOMS, "name ="], 8, "engine refused toml\n"),
    ([GRIPPER, ROOMS, ""], 8, "engine refused no-key features\n"),
    (
        [GRIPPER, ROOMS, "name = 3\nfeatures = []"],
        8,
        "engine refused wrong-type name\n",
    ),
    (
        [GRIPPER, ROOMS, "name = \"e\"\nfeatures = []\nspeed = 3"],
        8,
        "engine refused unknown-key speed\n",
    ),
    (
        ["(define (domain z) (:types a - b b - a))", ROOMS, ENGINE],
        6,
        "domain refused 1:28 type-cycle a\n",
    ),
    (["", ROOMS, ENGINE], 6, "domain refused 1:1 expected\n"),
    (
        ["(define (domain g)) )", ROOMS, ENGINE],
        6,
        "domain refused 1:21 unopened\n",
    ),
    (
        [
            "(define (domain gripper)\n (:action wait)\n (:durative-action move))",
            ROOMS,
            ENGINE,
        ],
        6,
        "domain refused 3:2 left-out\n",
    ),
    (
        [GRIPPER, "; rooms\r\n\t(define é)", ENGINE],
        7,
        "problem refused 2:10 bad-byte\n",
    ),
    (
        [GRIPPER, "(define 1234567890123456789)", ENGINE],
        7,
        "problem refused 1:9 bad-number\n",
    ),
    (
        [
            DOORS,
            "(define (problem s1) (:domain s) (:init (p)) (:goal (p x)))",
            ENGINE,
        ],
        7,
        "problem refused 1:53 arity p\n",
    ),
];

#[test]
fn refuses_texts_and_engines(rt: HostRuntime) {
    let alloc = rt.alloc();
    for (texts, code, text) in REFUSED {
        let [domain, problem, engine] = texts;
        let files = [("d", domain), ("p", problem), ("e", engine)];
        let outcome = run_line(alloc, COMPILE, &files).expect(&rt, "room");
        assert_eq!(rt; outcome.sink.bytes(), text.as_bytes());
        assert_eq!(rt; outcome.code, code);
        assert!(rt; is_held(&outcome, alloc, "od", None));
    }
}

// Lines that fit no command.
const USAGE: [&str; 17] = [
    "",
    "kind d",
    "kind d p e",
    "pipeline d p",
    "compile d p e od op",
    "compile d p e od op e",
    "compile d p e x x m",
    "compile d p e od op m 0",
    "compile d p e od op m 01",
    "compile d p e od op m +1",
    "compile d p e od op m 5000001",
    "compile d p e od op m 1 1",
    "plan d p e od op m",
    "validate d p",
    "validate d p e od",
    "back d p e plan",
    "back d p e plan plan",
];

#[test]
fn refuses_other_words(rt: HostRuntime) {
    let alloc = rt.alloc();
    for line in USAGE {
        let outcome = run_line(alloc, line, &[]).expect(&rt, "room");
        assert_eq!(rt; outcome.sink.bytes(), b"usage\n".as_slice());
        assert_eq!(rt; outcome.code, 1);
    }
}
