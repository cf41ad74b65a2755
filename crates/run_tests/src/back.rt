use crate::runs::{is_held, run_line};
use crate::texts::{
    CHEAPEST, DEEDS, DOORS, GRIPPER, GRIPPER_PLAN, LOCATION, LOCATIONS, ROOMS, WALK, WRITTEN_MAP,
};

const EITHER: &str = "(define (problem s1) (:domain s) (:init (p)) (:goal (or (p) (r))))";

const REACHED_MAP: &str = "up-map 1
chain disjunctions
action a 0 keep a
action reach-goal 0 drop
action reach-goal-1 0 drop
end
";

const WALKED_MAP: &str = "up-map 1
chain grounder
action walk-n1-n2 0 keep walk n1 n2
action walk-n2-n3 0 keep walk n2 n3
end
";

// What the output holds before each run.
const BEFORE: &str = "before";

// A domain, a problem, a map and a plan; the status and the text; what the output holds after the run.
const BACKS: [([&str; 4], u8, &str, &str); 10] = [
    (
        [GRIPPER, ROOMS, WRITTEN_MAP, GRIPPER_PLAN],
        0,
        "valid\n",
        GRIPPER_PLAN,
    ),
    (
        [
            GRIPPER,
            ROOMS,
            WRITTEN_MAP,
            "; found\n1: (PICK ball1 rooma) [1]\n\n2: (move rooma roomb)\n3: (drop ball1 roomb)",
        ],
        0,
        "valid\n",
        GRIPPER_PLAN,
    ),
    (
        [GRIPPER, ROOMS, WRITTEN_MAP, "(move rooma)\n"],
        13,
        "plan unfit step 1\n",
        BEFORE,
    ),
    (
        [GRIPPER, ROOMS, WRITTEN_MAP, "(move rooma roomb)\n(fly)\n"],
        13,
        "plan unfit step 2\n",
        BEFORE,
    ),
    (
        [GRIPPER, ROOMS, "up-map 2\n", GRIPPER_PLAN],
        11,
        "map refused line 1 bad\n",
        BEFORE,
    ),
    (
        [
            GRIPPER,
            ROOMS,
            "up-map 1\nchain\naction move 2 keep move $1 $2\naction move 2 keep move $1 $2\nend\n",
            "move rooma",
        ],
        11,
        "map refused line 4 double\n",
        BEFORE,
    ),
    (
        [GRIPPER, ROOMS, WRITTEN_MAP, "move rooma"],
        12,
        "plan refused 1:1\n",
        BEFORE,
    ),
    (
        [GRIPPER, ROOMS, "", GRIPPER_PLAN],
        11,
        "map refused line 1 bad\n",
        BEFORE,
    ),
    (
        [
            GRIPPER,
            ROOMS,
            "up-map 1\nchain\naction move 2 keep move $1 $3\nend\n",
            GRIPPER_PLAN,
        ],
        11,
        "map refused line 3 bad\n",
        BEFORE,
    ),
    (
        [
            GRIPPER,
            ROOMS,
            "up-map 1\nchain\naction move 2 keep hop $1 $2\nend\n",
            "(move rooma roomb)\n",
        ],
        14,
        "plan invalid step 1 unknown\n",
        BEFORE,
    ),
];

// The same of maps that drop steps, and of plans that are refused or not valid.
const MORE_BACKS: [([&str; 4], u8, &str, &str); 9] = [
    (
        [
            GRIPPER,
            ROOMS,
            WRITTEN_MAP,
            "(move rooma roomb)\n(move rooma roomb)\n",
        ],
        14,
        "plan invalid step 2 precondition\n",
        BEFORE,
    ),
    (
        ["(define (domain gripper)", ROOMS, "", ""],
        6,
        "domain refused 1:1 unclosed\n",
        BEFORE,
    ),
    (
        [GRIPPER, "(define", "", ""],
        7,
        "problem refused 1:1 unclosed\n",
        BEFORE,
    ),
    (
        [DOORS, EITHER, REACHED_MAP, "(reach-goal)\n"],
        0,
        "valid\n",
        "",
    ),
    (
        [DOORS, EITHER, REACHED_MAP, "(reach-goal)\n(a)\n"],
        14,
        "plan invalid goal\n",
        BEFORE,
    ),
    (
        [WALK, CHEAPEST, WALKED_MAP, "(walk-n1-n2)\n(walk-n2-n3)\n"],
        0,
        "valid\nmetric 15/2\n",
        "(walk n1 n2)\n(walk n2 n3)\n",
    ),
    (
        [
            LOCATIONS,
            LOCATION,
            "up-map 1\nchain quantifiers objects\naction home 2 keep home\nend\n",
            "(home away away)\n",
        ],
        0,
        "valid\n",
        "(home)\n",
    ),
    (
        [
            GRIPPER,
            "(define (problem r) (:domain gripper) (:objects rooma roomb) (:init (room rooma) (room roomb) (at-robby rooma)) (:goal (not (at-robby rooma))))",
            "up-map 1\nchain overlaps negations\naction move-2 2 keep move $1 $2\nend\n",
            "(move-2 rooma roomb)\n",
        ],
        0,
        "valid\n",
        "(move rooma roomb)\n",
    ),
    (
        [
            DEEDS,
            "(define (problem s1) (:domain s) (:init (p) (= (f) 1)) (:goal (r)))",
            "up-map 1\nchain conditionals\naction s-1 0 keep s\nend\n",
            "(s-1)\n(s-1)\n",
        ],
        0,
        "valid\n",
        "(s)\n(s)\n",
    ),
];

#[test]
fn carries_plans_back(rt: HostRuntime) {
    let alloc = rt.alloc();
    for (texts, code, text, out) in BACKS {
        let [domain, problem, map, plan] = texts;
        let files = [
            ("d", domain),
            ("p", problem),
            ("m", map),
            ("plan", plan),
            ("out", BEFORE),
        ];
        let outcome = run_line(alloc, "back d p m plan out", &files).expect(&rt, "room");
        assert_eq!(rt; outcome.sink.bytes(), text.as_bytes());
        assert_eq!(rt; outcome.code, code);
        assert!(rt; is_held(&outcome, alloc, "out", Some(out)));
    }
}

#[test]
fn carries_more_plans_back(rt: HostRuntime) {
    let alloc = rt.alloc();
    for (texts, code, text, out) in MORE_BACKS {
        let [domain, problem, map, plan] = texts;
        let files = [
            ("d", domain),
            ("p", problem),
            ("m", map),
            ("plan", plan),
            ("out", BEFORE),
        ];
        let outcome = run_line(alloc, "back d p m plan out", &files).expect(&rt, "room");
        assert_eq!(rt; outcome.sink.bytes(), text.as_bytes());
        assert_eq!(rt; outcome.code, code);
        assert!(rt; is_held(&outcome, alloc, "out", Some(out)));
    }
}
