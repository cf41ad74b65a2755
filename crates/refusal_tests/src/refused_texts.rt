use up_check::File;

/// A text with `@` before the place of its first fault, then the words of the reason and of the name at fault. A text without fault
/// has neither.
pub(crate) type Row = (&'static str, &'static str, &'static str);

/// Two texts, one of which has a gap that the text of each row fills.
#[derive(Clone, Copy)]
pub(crate) struct Frame {
    pub gap: File,
    pub before: [&'static str; 2],
    pub after: &'static str,
    pub other: &'static str,
}

const GRIPPER_PROBLEM: &str = "(define (problem two-rooms) (:domain gripper)
 (:objects rooma roomb ball1)
 (:init (room rooma) (room roomb) (ball ball1) (free)
  (at-robby rooma) (at ball1 rooma))
 (:goal (at ball1 roomb)))
";

const DOORS: &str = "(define (domain s) (:types door)
 (:predicates (p) (q) (r) (open ?d - door))
 (:action a :precondition (p) :effect (and (q) (not (p)))))
";

const DOORS_PROBLEM: &str = "(define (problem s1) (:domain s) (:init (p)) (:goal (p)))";

const PLACES: &str = "(define (domain l) (:types truck place) (:constants depot - place)
 (:functions (loc ?t - truck) - place)
 (:action home :effect (forall (?t - truck) (assign (loc ?t) depot))))
";

const NO_GOAL: &str = "(define (problem x) (:domain d) (:goal ()))";

const VALUES: &str =
    "(define (domain d) (:types u - t) (:constants k - t) (:predicates (p ?x - u) (q)) (:functions (n ?x - t) - number (g ?x - t) - t (m)))";

const DECLARED: &str =
    "(define (domain d) (:types b - a a c) (:constants k - a l - b m - c) (:predicates (p) (q ?x - b) (r ?x - a ?y - c)) (:functions (n) (w ?x - b) - number (f ?x - a) - b (g) - c))";

const DECLARED_OPEN: &str =
    "(define (domain d) (:types b - a a c) (:constants k - a l - b m - c) (:predicates (p) (q ?x - b) (r ?x - a ?y - c)) (:functions (n) (w ?x - b) - number (f ?x - a) - b (g) - c)";

// Whole domains beside a problem of gripper.
const WHOLE_DOMAINS: &[Row] = &[
    (
        "(DEFINE (DOMAIN GRIPPER) (:REQUIREMENTS :ADL) ; a comment (\n (:PREDICATES (ROOM ?R) (BALL ?B) (FREE) (AT-ROBBY ?R) (AT ?B ?R))\n (:ACTION MOVE :PARAMETERS (?F ?T) :PRECONDITION (AND (ROOM ?F) (ROOM ?T) (AT-ROBBY ?F)) :EFFECT (AND (AT-ROBBY ?T) (NOT (AT-ROBBY ?F)))))",
        "",
        "",
    ),
    (
        "@(define (domain gripper) (:predicates (free))",
        "unclosed",
        "",
    ),
    (
        "(define (domain z) (:types @a - b b - a))",
        "type-cycle",
        "a",
    ),
    ("@     ", "expected", ""),
    ("@", "expected", ""),
];

// A whole domain beside a problem of doors.
const OTHER_TYPES: &[Row] = &[(
    "(define (domain s) (:types door - thing) (:predicates (p) (q) (r) (open ?d - door)))",
    "",
    "",
)];

// Faults of form in a whole domain.
const CUT_DOMAINS: &[Row] = &[
    (
        "(define (domain d) (:action a) @(:durative-action b))",
        "left-out",
        "",
    ),
    ("(define (domain d) @, (:types", "bad-byte", ""),
    ("(define (domain d)) @)", "unopened", ""),
];

// Whole problems of doors.
const WHOLE_PROBLEMS: &[Row] = &[
    (
        "(define (problem s1) (:domain s) (:init (p)) (:goal @(p x)))",
        "arity",
        "p",
    ),
    (
        "(define (problem s1) (:domain s) (:init @12x (p)) (:goal (p)))",
        "bad-number",
        "",
    ),
    (
        "(define (problem s1) (:domain s) (:goal (p))@(:goal (p)))",
        "duplicate",
        "",
    ),
];

// A whole problem whose fluents have objects as values.
const OBJECT_VALUES: &[Row] = &[(
    "(define (problem l1) (:domain l) (:objects t1 t2 - truck away - place) (:init (= (loc t1) away)) (:goal (= (loc t1) depot)))",
    "",
    "",
)];

// Sections of a domain.
const DECLARATIONS: &[Row] = &[
    ("(:types a - b a - b b)", "", ""),
    ("(:types a - b @a - c)", "duplicate", "a"),
    ("(:types a - b @a)", "duplicate", "a"),
    ("(:types object a object - object)", "", ""),
    ("(:types @object - a)", "duplicate", "object"),
    ("(:types c - d @a - b b - a)", "type-cycle", "a"),
    ("(:types @c a - b b - a)", "type-cycle", "c"),
    ("(:types @c - a a - b b - a)", "type-cycle", "c"),
    ("(:types @c - d d a - a)", "type-cycle", "c"),
    ("(:types @a - b a - c b - a)", "type-cycle", "a"),
    ("(:types c - d @c a - b b - a)", "duplicate", "c"),
    ("(:types c - d @a - b c - b b - a)", "type-cycle", "a"),
    ("(:constants k - @t)", "unknown-name", "t"),
    ("(:constants k k - object k)", "", ""),
    ("(:types t) (:constants k - t @k)", "duplicate", "k"),
    ("(:types t) (:constants k - t j @k - u)", "duplicate", "k"),
    ("(:predicates (p) (@p ?x - t))", "duplicate", "p"),
    ("(:predicates (p ?x - @t) (p))", "unknown-name", "t"),
    ("(:predicates (p ?x ?x))", "", ""),
    ("(:predicates (p)) (:functions (@p))", "duplicate", "p"),
    ("(:functions (f) (@f) - u)", "duplicate", "f"),
    ("(:functions (f ?x - @t) - u)", "unknown-name", "t"),
    ("(:functions (f) (g) - @u (f))", "unknown-name", "u"),
    ("(:functions (f) - number (g) - object (h))", "", ""),
    (
        "(:action a) (:action @a :parameters (?x - t))",
        "duplicate",
        "a",
    ),
    (
        "(:types a) (:constants a) (:predicates (a)) (:action a)",
        "",
        "",
    ),
    ("(:action a :parameters (?x - t)) (:types t)", "", ""),
    (
        "(:action a :parameters (?x - u)) (:functions (f) - t) (:types @object - a)",
        "duplicate",
        "object",
    ),
    (
        "(:action a :parameters (?x - u)) (:functions (f) - @t)",
        "unknown-name",
        "t",
    ),
    (
        "(:functions (f) - t) (:predicates (p ?x - @u))",
        "unknown-name",
        "u",
    ),
    (
        "(:predicates (p ?x - u)) (:constants k - @t)",
        "unknown-name",
        "t",
    ),
];

// Sections of a problem.
const PROBLEMS: &[Row] = &[
    (
        "(:domain @e) (:objects a - v) (:goal ())",
        "wrong-domain",
        "e",
    ),
    ("(:domain d) (:objects k - t) (:goal ())", "", ""),
    ("(:domain d) (:objects @k - u) (:goal ())", "duplicate", "k"),
    (
        "(:domain d) (:objects a - @v) (:init (z)) (:goal ())",
        "unknown-name",
        "v",
    ),
    ("(:domain d) (:goal (z)) (:init (@y))", "unknown-name", "y"),
    (
        "(:domain d) (:init (q)) (:goal (p x)) (:objects a - @v)",
        "unknown-name",
        "v",
    ),
];

// Initial states.
const INITIAL_STATES: &[Row] = &[
    ("(p a) (p a) (not (p a)) (q)", "", ""),
    ("(@z a)", "unknown-name", "z"),
    ("(@n a)", "unknown-name", "n"),
    ("(q) @(p)", "arity", "p"),
    ("@(p a b)", "arity", "p"),
    ("@(q z)", "arity", "q"),
    ("(p @z)", "unknown-name", "z"),
    ("(p @b)", "type-mismatch", "b"),
    ("(not (@z))", "unknown-name", "z"),
    ("(not @(p))", "arity", "p"),
    ("(not (p @b))", "type-mismatch", "b"),
    ("(= (@z a) 3)", "unknown-name", "z"),
    ("(= (@q) 3)", "unknown-name", "q"),
    ("(= @(n) 3)", "arity", "n"),
    ("(= (n @c) z)", "type-mismatch", "c"),
    ("(= (n a) @b)", "type-mismatch", "b"),
    ("(= (n a) @z)", "unknown-name", "z"),
    ("(= (g a) @3)", "type-mismatch", ""),
    ("(= (g a) @c)", "type-mismatch", "c"),
    ("(= (g a) @z)", "unknown-name", "z"),
    ("(= @(g) 3)", "arity", "g"),
    ("(= (n a) 3) (= (n a) 3.0) (= (n b) 4) (= (m) 4)", "", ""),
    ("(= (n a) 3) @(= (n a) 4)", "duplicate", "n"),
    ("(= (n a) 3) (= (n a) 3) @(= (n a) -3)", "duplicate", "n"),
    ("(= (g a) b) (= (g a) b) (= (g b) k)", "", ""),
    ("(= (g a) b) @(= (g a) a)", "duplicate", "g"),
    ("(= (g a) b) (= (g a) @c)", "type-mismatch", "c"),
    ("(= (g a) b) (= (g a) @3)", "type-mismatch", ""),
];

// Actions.
const ACTIONS: &[Row] = &[
    ("(:action x :parameters (?u ?v - a @?u))", "duplicate", "u"),
    ("(:action x :parameters (?u @?u - z))", "duplicate", "u"),
    (
        "(:action x :parameters (?u - @z ?u - a))",
        "unknown-name",
        "z",
    ),
    ("(:action x :parameters (?u - object ?v))", "", ""),
    (
        "(:action x :parameters (?b - b ?a - a) :effect (nix) :precondition (@nux))",
        "unknown-name",
        "nux",
    ),
];

// Conditions of an action.
const CONDITIONS_OF_ACTIONS: &[Row] = &[
    ("(@z)", "unknown-name", "z"),
    ("(@n)", "unknown-name", "n"),
    ("@(q)", "arity", "q"),
    ("@(q ?z ?z)", "arity", "q"),
    ("(q @?z)", "unknown-name", "z"),
    ("(q @z)", "unknown-name", "z"),
    ("(q @?a)", "type-mismatch", "a"),
    ("(q @k)", "type-mismatch", "k"),
    ("(q @5)", "type-mismatch", ""),
    ("(q @(+ 1 2))", "type-mismatch", ""),
    ("(q ?b)", "", ""),
    ("(q l)", "", ""),
    ("(r ?b m)", "", ""),
    ("(r @m ?z)", "type-mismatch", "m"),
    ("(q (@z ?y))", "unknown-name", "z"),
    ("(q (@p))", "unknown-name", "p"),
    ("(q (@w))", "type-mismatch", "w"),
    ("(q @(g 1))", "type-mismatch", "g"),
    ("(q @(f))", "arity", "f"),
    ("(q (f @?z))", "unknown-name", "z"),
    ("(q (f @m))", "type-mismatch", "m"),
    ("(q (f (f ?a)))", "", ""),
    ("(r (f ?a) (g))", "", ""),
    ("(and (p) (or (not (@z)) (y)))", "unknown-name", "z"),
    ("(imply (p) (@z))", "unknown-name", "z"),
    ("(imply (@z) (y))", "unknown-name", "z"),
    ("(exists (@?b - z) (y))", "duplicate", "b"),
    ("(exists (?v - @z) (y))", "unknown-name", "z"),
    ("(exists (?v @?v - z) (y))", "duplicate", "v"),
    ("(exists (?v) (forall (@?v) (p)))", "duplicate", "v"),
    (
        "(and (exists (?v) (p)) (forall (?v) (p)) (q @?v))",
        "unknown-name",
        "v",
    ),
    ("(exists (?v - b) (q ?v))", "", ""),
    ("(exists (?v) (q @?v))", "type-mismatch", "v"),
    ("(forall () (p))", "", ""),
    ("(= ?a m)", "", ""),
    ("(= (f ?a) (g))", "", ""),
    ("(= @z (y))", "unknown-name", "z"),
    ("(= ?a (@n))", "type-mismatch", "n"),
    ("(= ?a @3)", "type-mismatch", ""),
    ("(= (@z) 3)", "unknown-name", "z"),
    ("(= (n) (w ?b))", "", ""),
    ("(= 3 @?a)", "type-mismatch", "a"),
    ("(= 3 @k)", "type-mismatch", "k"),
    ("(= 3 @?z)", "unknown-name", "z"),
    ("(= (+ 1 2) @n)", "unknown-name", "n"),
    ("(= (n) (@f))", "type-mismatch", "f"),
    ("(= (n) (@z))", "unknown-name", "z"),
    ("(< @(w) (z))", "arity", "w"),
    ("(< (w @?a) (z))", "type-mismatch", "a"),
    ("(< (- (@z)) 3)", "unknown-name", "z"),
    ("(<= (* 1 (/ 2 (@f))) 3)", "type-mismatch", "f"),
    ("(> (@f ?a) 3)", "type-mismatch", "f"),
];

// Effects of an action.
const EFFECTS: &[Row] = &[
    ("(@z)", "unknown-name", "z"),
    ("(not @(p ?z))", "arity", "p"),
    ("(and (p) (not (q @?a)) (z))", "type-mismatch", "a"),
    ("(forall (@?b) (z))", "duplicate", "b"),
    ("(forall (?v - @z) (and))", "unknown-name", "z"),
    (
        "(and (forall (?v) (p)) (forall (?v - b) (q ?v)) (q @?v))",
        "unknown-name",
        "v",
    ),
    ("(when (@z) (y))", "unknown-name", "z"),
    (
        "(when (exists (?v) (p)) (forall (@?v - z) (y)))",
        "duplicate",
        "v",
    ),
    (
        "(when (not (and (p) (imply (forall (?u) (exists (?v) (p))) (p)))) (forall (?w @?v) (y)))",
        "duplicate",
        "v",
    ),
    (
        "(when (exists (?v) (p)) (when (p) (and (p) (forall (@?v) (y)))))",
        "duplicate",
        "v",
    ),
    (
        "(and (when (exists (?v) (p)) (p)) (forall (?v - b) (q ?v)))",
        "",
        "",
    ),
    (
        "(when (exists (?v) (p)) (when (exists (?v) (p)) (p)))",
        "",
        "",
    ),
    (
        "(forall (?v) (when (exists (@?v) (p)) (p)))",
        "duplicate",
        "v",
    ),
    ("(when (exists (?v) (p)) (q @?v))", "unknown-name", "v"),
    ("(assign (n) @k)", "type-mismatch", "k"),
    ("(assign (n) @z)", "unknown-name", "z"),
    ("(assign (n) (+ 1 (w ?b)))", "", ""),
    ("(assign (f ?a) @3)", "type-mismatch", ""),
    ("(assign (f ?a) @k)", "type-mismatch", "k"),
    ("(assign (f ?a) l)", "", ""),
    ("(assign (f ?a) @(g))", "type-mismatch", "g"),
    ("(assign (f ?a) (f l))", "", ""),
    ("(assign @(f) z)", "arity", "f"),
    ("(assign (@p) z)", "unknown-name", "p"),
    ("(increase (@g) 1)", "type-mismatch", "g"),
    ("(increase (@g 1) 1)", "type-mismatch", "g"),
    ("(decrease (w @m) z)", "type-mismatch", "m"),
    ("(scale-up (n) @?a)", "type-mismatch", "a"),
    ("(scale-down (@z) y)", "unknown-name", "z"),
    ("(assign (g) undefined)", "", ""),
    ("(assign (n) @undefined)", "type-mismatch", ""),
    ("(assign @(w) undefined)", "arity", "w"),
    ("(assign (w @?a) undefined)", "type-mismatch", "a"),
    ("(assign (@z) undefined)", "unknown-name", "z"),
];

// Constraints of a domain.
const CONSTRAINTS: &[Row] = &[
    ("(:constraints ())", "", ""),
    (
        "(:constraints (and (always (p)) (forall (?v - b) (sometime (q ?v)))))",
        "",
        "",
    ),
    ("(:constraints (always @(< (z) 3)))", "left-out", ""),
    ("(:constraints (always @(= (n) (z))))", "left-out", ""),
    ("(:constraints (always (= (@z) 3)))", "unknown-name", "z"),
    ("(:constraints (always (= @(g 1) (z))))", "left-out", ""),
    ("(:constraints (always (= k (@n))))", "type-mismatch", "n"),
    ("(:constraints (sometime (q @(g))))", "left-out", ""),
    ("(:constraints (sometime @(q (f) (f))))", "arity", "q"),
    ("(:constraints (sometime (q (@z))))", "unknown-name", "z"),
    ("(:constraints (sometime (q (@w))))", "type-mismatch", "w"),
    ("(:constraints (sometime (q @k)))", "type-mismatch", "k"),
    (
        "(:constraints (forall (?v) (at-most-once (exists (@?v) (p)))))",
        "duplicate",
        "v",
    ),
    (
        "(:constraints (forall (?v) (forall (@?v) (always (z)))))",
        "duplicate",
        "v",
    ),
    (
        "(:constraints (and (forall (?v - b) (always (q ?v))) (always (q @?v))))",
        "unknown-name",
        "v",
    ),
    (
        "(:constraints (sometime-after (p) (@z)))",
        "unknown-name",
        "z",
    ),
    (
        "(:constraints (sometime-before (@z) (y)))",
        "unknown-name",
        "z",
    ),
    (
        "(:constraints (sometime-before (= k l) (imply (p) (p))))",
        "",
        "",
    ),
];

// Goals and metrics.
const GOALS: &[Row] = &[
    ("(:goal ())", "", ""),
    ("(:goal (q @?z))", "unknown-name", "z"),
    ("(:goal (exists (?v - b) (q ?v)))", "", ""),
    ("(:goal (q o))", "", ""),
    ("(:goal (= (f o) l))", "", ""),
    ("(:goal (p))(:constraints (always (q o)))", "", ""),
    (
        "(:goal (p))(:constraints (always @(= (w o) 3)))",
        "left-out",
        "",
    ),
    ("(:goal (p)) (:metric minimize n)", "", ""),
    ("(:goal (p)) (:metric minimize (n))", "", ""),
    (
        "(:goal (p)) (:metric minimize (+ n (w o) (* 2 (w l))))",
        "",
        "",
    ),
    ("(:goal (p)) (:metric minimize @w)", "arity", "w"),
    ("(:goal (p)) (:metric minimize @f)", "type-mismatch", "f"),
    ("(:goal (p)) (:metric minimize @z)", "unknown-name", "z"),
    ("(:goal (p)) (:metric minimize @k)", "unknown-name", "k"),
    ("(:goal (p)) (:metric minimize @?z)", "unknown-name", "z"),
    ("(:goal (p)) (:metric minimize (@g))", "type-mismatch", "g"),
    (
        "(:goal (p)) (:metric minimize (w @(f)))",
        "metric-term",
        "f",
    ),
    (
        "(:goal (p)) (:metric minimize (w (@n)))",
        "type-mismatch",
        "n",
    ),
    (
        "(:goal (p)) (:metric minimize (w (@z)))",
        "unknown-name",
        "z",
    ),
    (
        "(:goal (p)) (:metric minimize (w @k))",
        "type-mismatch",
        "k",
    ),
    ("(:goal (p)) (:metric minimize (w @n))", "unknown-name", "n"),
    ("(:goal (p)) (:metric minimize (w @3))", "type-mismatch", ""),
    ("(:goal (p)) (:metric minimize @(w))", "arity", "w"),
    (
        "(:goal (p)) (:metric minimize (- (@p)))",
        "unknown-name",
        "p",
    ),
];

/// All rows, under the frames that they fill.
pub(crate) const TABLES: [(Frame, &[Row]); 13] = [
    (
        Frame {
            gap: File::Domain,
            before: ["", ""],
            after: "",
            other: GRIPPER_PROBLEM,
        },
        WHOLE_DOMAINS,
    ),
    (
        Frame {
            gap: File::Domain,
            before: ["", ""],
            after: "",
            other: DOORS_PROBLEM,
        },
        OTHER_TYPES,
    ),
    (
        Frame {
            gap: File::Domain,
            before: ["", ""],
            after: "",
            other: NO_GOAL,
        },
        CUT_DOMAINS,
    ),
    (
        Frame {
            gap: File::Problem,
            before: ["", ""],
            after: "",
            other: DOORS,
        },
        WHOLE_PROBLEMS,
    ),
    (
        Frame {
            gap: File::Problem,
            before: ["", ""],
            after: "",
            other: PLACES,
        },
        OBJECT_VALUES,
    ),
    (
        Frame {
            gap: File::Domain,
            before: ["(define (domain d) ", ""],
            after: ")",
            other: NO_GOAL,
        },
        DECLARATIONS,
    ),
    (
        Frame {
            gap: File::Problem,
            before: ["(define (problem x) ", ""],
            after: ")",
            other: VALUES,
        },
        PROBLEMS,
    ),
    (
        Frame {
            gap: File::Problem,
            before: [
                "(define (problem x) (:domain d) (:objects a - u b - t c) (:init ",
                "",
            ],
            after: ") (:goal ()))",
            other: VALUES,
        },
        INITIAL_STATES,
    ),
    (
        Frame {
            gap: File::Domain,
            before: [DECLARED_OPEN, ""],
            after: ")",
            other: NO_GOAL,
        },
        ACTIONS,
    ),
    (
        Frame {
            gap: File::Domain,
            before: [
                DECLARED_OPEN,
                "(:action x :parameters (?b - b ?a - a) :precondition ",
            ],
            after: "))",
            other: NO_GOAL,
        },
        CONDITIONS_OF_ACTIONS,
    ),
    (
        Frame {
            gap: File::Domain,
            before: [
                DECLARED_OPEN,
                "(:action x :parameters (?b - b ?a - a) :effect ",
            ],
            after: "))",
            other: NO_GOAL,
        },
        EFFECTS,
    ),
    (
        Frame {
            gap: File::Domain,
            before: [DECLARED_OPEN, ""],
            after: ")",
            other: NO_GOAL,
        },
        CONSTRAINTS,
    ),
    (
        Frame {
            gap: File::Problem,
            before: ["(define (problem e) (:domain d) (:objects o - b) ", ""],
            after: ")",
            other: DECLARED,
        },
        GOALS,
    ),
];
