use crate::runs::run_line;
use crate::texts::{ENGINE, GRIPPER, ROOMS};

// An engine; the status and the text that are due for the rooms.
const ENGINES: [(&str, u8, &str); 3] = [
    (ENGINE, 0, "chain\n"),
    ("name = \"e\"\nfeatures = []", 9, "no pipeline\n"),
    (
        "name = \"e\"\nfeatures = [\"FLYING\"]",
        8,
        "engine refused unknown-feature FLYING\n",
    ),
];

#[test]
fn puts_the_chain(rt: HostRuntime) {
    let alloc = rt.alloc();
    for (engine, code, text) in ENGINES {
        let files = [("d", GRIPPER), ("p", ROOMS), ("e", engine)];
        let outcome = run_line(alloc, "pipeline d p e", &files).expect(&rt, "room");
        assert_eq!(rt; outcome.sink.bytes(), text.as_bytes());
        assert_eq!(rt; outcome.code, code);
    }
}
