use crate::runs::run_line;
use crate::texts::{CHEAPEST, DEEDS, GRIPPER, LANDED, ROOMS, WALK};

const ONE: &str = "(define (problem s1) (:domain s) (:init (p) (= (f) 1)) (:goal (p)))";

const MARKING: &str = "(define (domain u) (:types truck place) (:predicates (seen ?p - place))
 (:functions (loc ?t - truck) - place)
 (:action lift :parameters (?t - truck) :effect (assign (loc ?t) undefined))
 (:action land :parameters (?t - truck ?p - place) :effect (assign (loc ?t) ?p))
 (:action mark :parameters (?t - truck) :effect (seen (loc ?t)))
 (:action split :parameters (?t - truck ?p ?q - place)
  :effect (and (assign (loc ?t) ?p) (assign (loc ?t) ?q))))";

// Four times this number is below 2^62, and eight times isn't.
const LARGE: &str =
    "(define (problem s1) (:domain s) (:init (p) (= (f) 999999999999999999)) (:goal (p)))";

// A domain, a problem and a plan; the status and the text.
const VERDICTS: [(&str, &str, &str, u8, &str); 28] = [
    (
        GRIPPER,
        ROOMS,
        "0: (PICK ball1 rooma) ; first\n\n(move rooma roomb)\r\n(drop ball1 roomb)",
        0,
        "valid\n",
    ),
    (
        GRIPPER,
        ROOMS,
        "(pick ball1 roomb)\n",
        14,
        "plan invalid step 1 precondition\n",
    ),
    (
        GRIPPER,
        ROOMS,
        "(fly)\n",
        14,
        "plan invalid step 1 unknown\n",
    ),
    (
        GRIPPER,
        ROOMS,
        "(move rooma)\n",
        14,
        "plan invalid step 1 arity\n",
    ),
    (GRIPPER, ROOMS, "", 14, "plan invalid goal\n"),
    (GRIPPER, ROOMS, "é", 12, "plan refused 1:1\n"),
    (GRIPPER, ROOMS, "(fly)\n(fly", 12, "plan refused 2:5\n"),
    (
        DEEDS,
        "(define (problem s1) (:domain s) (:init (p)) (:goal (q)) (:constraints (sometime-before (q) (r))))",
        "(a)\n",
        14,
        "plan invalid constraint 1\n",
    ),
    (
        DEEDS,
        "(define (problem s1) (:domain s) (:init (p)) (:goal (q)) (:constraints (sometime-before (q) (r))))",
        "(e)\n(a)\n",
        0,
        "valid\n",
    ),
    (
        DEEDS,
        "(define (problem s1) (:domain s) (:init (p)) (:goal (q)) (:constraints (at-most-once (q))))",
        "(a)\n(u)\n(a)\n",
        14,
        "plan invalid constraint 1\n",
    ),
    (
        DEEDS,
        "(define (problem s1) (:domain s) (:init (p)) (:goal (q)) (:constraints (at-most-once (q))))",
        "(a)\n",
        0,
        "valid\n",
    ),
    (
        DEEDS,
        "(define (problem s1) (:domain s) (:init (p)) (:goal (p)))",
        "(a)\n(d)\n",
        14,
        "plan invalid step 2 condition-undefined\n",
    ),
    (
        DEEDS,
        "(define (problem s1) (:domain s) (:init (p) (= (f) 1)) (:goal (p)) (:metric minimize (f)))",
        "(inc)\n",
        0,
        "valid\nmetric 6\n",
    ),
    (
        DEEDS,
        "(define (problem s1) (:domain s) (:init (p)) (:goal (p)) (:metric minimize (f)))",
        "",
        0,
        "valid\nmetric undefined\n",
    ),
    (
        DEEDS,
        "(define (problem s1) (:domain s) (:init (p) (= (f) 1)) (:goal (p)) (:metric minimize (/ (f) 4)))",
        "(twice)\n",
        0,
        "valid\nmetric 1/2\n",
    ),
    (
        DEEDS,
        "(define (problem s1) (:domain s) (:init (p) (= (f) 1)) (:goal (p)) (:metric maximize (- (/ (f) 3) 2)))",
        "",
        0,
        "valid\nmetric -5/3\n",
    ),
    (
        WALK,
        CHEAPEST,
        "(walk n1 n2)\n(walk n2 n3)\n",
        0,
        "valid\nmetric 15/2\n",
    ),
    (
        DEEDS,
        ONE,
        "(set)\n",
        14,
        "plan invalid step 1 number-conflict\n",
    ),
    (
        DEEDS,
        ONE,
        "(g)\n",
        14,
        "plan invalid step 1 number-undefined\n",
    ),
    (DEEDS, ONE, "(t)\n", 0, "valid\n"),
    (
        DEEDS,
        "(define (problem s1) (:domain s) (:init (p)) (:goal (r)))",
        "(s)\n",
        14,
        "plan invalid goal\n",
    ),
    (
        DEEDS,
        "(define (problem s1) (:domain s) (:init (p)) (:goal (r)))",
        "(s)\n(s)\n",
        0,
        "valid\n",
    ),
    (MARKING, LANDED, "(land t1 b)\n", 0, "valid\n"),
    (
        MARKING,
        LANDED,
        "(lift a)\n",
        14,
        "plan invalid step 1 argument-type\n",
    ),
    (
        MARKING,
        LANDED,
        "(lift t1)\n(mark t1)\n",
        14,
        "plan invalid step 2 object-undefined\n",
    ),
    (
        MARKING,
        LANDED,
        "(split t1 a b)\n",
        14,
        "plan invalid step 1 object-conflict\n",
    ),
    (DEEDS, LARGE, "(twice)\n(twice)\n", 0, "valid\n"),
    (
        DEEDS,
        LARGE,
        "(twice)\n(twice)\n(twice)\n",
        15,
        "number too large step 3\n",
    ),
];

#[test]
fn puts_the_verdict(rt: HostRuntime) {
    let alloc = rt.alloc();
    for (domain, problem, plan, code, text) in VERDICTS {
        let files = [("d", domain), ("p", problem), ("plan", plan)];
        let outcome = run_line(alloc, "validate d p plan", &files).expect(&rt, "room");
        assert_eq!(rt; outcome.sink.bytes(), text.as_bytes());
        assert_eq!(rt; outcome.code, code);
    }
}
