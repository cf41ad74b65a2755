use crate::runs::run_line;
use crate::texts::{CHEAPEST, DOORS, GRIPPER, LANDED, LOCATION, LOCATIONS, ROOMS, WALK};

const SHIFTED: &str = "; Letter case and layout don't matter.
(DEFINE (DOMAIN GRIPPER) (:REQUIREMENTS :ADL)
 (:PREDICATES (ROOM ?R) (BALL ?B) (FREE) (AT-ROBBY ?R) (AT ?B ?R) (CARRY ?B))
 (:ACTION MOVE :PARAMETERS (?F ?T)
  :EFFECT (AND (AT-ROBBY ?T) (NOT (AT-ROBBY ?F)))
  :PRECONDITION (AND (ROOM ?F) (ROOM ?T) (AT-ROBBY ?F))))";

const LANDING: &str = "(define (domain u) (:types truck place) (:predicates (seen ?p - place))
 (:functions (loc ?t - truck) - place)
 (:action lift :parameters (?t - truck) :effect (assign (loc ?t) undefined))
 (:action land :parameters (?t - truck ?p - place) :effect (assign (loc ?t) ?p)))";

// A domain and a problem; the features that they carry.
const KINDS: [(&str, &str, &str); 17] = [
    (GRIPPER, ROOMS, "ACTION_PARAMETERS\nEFFECT_OVERLAP\n"),
    (
        LOCATIONS,
        LOCATION,
        "FLAT_TYPING\nEQUALITIES\nFORALL_EFFECTS\nOBJECT_FLUENTS\nOBJECT_TERMS_UNDER_FORALL\nPARTIAL_FLUENTS\n",
    ),
    (
        "(define (domain z) (:predicates (p)))",
        "(define (problem y) (:domain z) (:goal (p)))",
        "",
    ),
    (SHIFTED, ROOMS, "ACTION_PARAMETERS\nEFFECT_OVERLAP\n"),
    (
        WALK,
        CHEAPEST,
        "ACTION_PARAMETERS\nNUMERIC_FLUENTS\nNUMERIC_EFFECTS\nMETRIC\nEFFECT_OVERLAP\n",
    ),
    (
        LANDING,
        LANDED,
        "FLAT_TYPING\nACTION_PARAMETERS\nEQUALITIES\nOBJECT_FLUENTS\nPARTIAL_FLUENTS\n",
    ),
    (
        LOCATIONS,
        "(define (problem l1) (:domain l) (:objects t1 t2 - truck away - place)
 (:init (= (loc t1) away) (= (loc t2) away)) (:goal (= (loc t1) depot)))",
        "FLAT_TYPING\nEQUALITIES\nFORALL_EFFECTS\nOBJECT_FLUENTS\nOBJECT_TERMS_UNDER_FORALL\n",
    ),
    (
        "(define (domain s) (:types door - thing) (:predicates (p) (open ?d - door)))",
        "(define (problem s1) (:domain s) (:init (p)) (:goal (p)))",
        "FLAT_TYPING\nHIERARCHICAL_TYPING\n",
    ),
    (
        "(define (domain s) (:types door) (:predicates (p)) (:functions (f)))",
        "(define (problem s1) (:domain s) (:init (p) (= (f) 4)) (:goal (not (imply (p) (= (f) 3)))))",
        "FLAT_TYPING\nNEGATIVE_CONDITIONS\nDISJUNCTIVE_CONDITIONS\nNUMERIC_FLUENTS\nNUMERIC_CONDITIONS\n",
    ),
    (
        DOORS,
        "(define (problem s1) (:domain s) (:goal (exists (?d - door) (open ?d))))",
        "FLAT_TYPING\nEXISTENTIAL_CONDITIONS\n",
    ),
    (
        DOORS,
        "(define (problem s1) (:domain s) (:goal (forall (?d - door) (or (open ?d) (p)))))",
        "FLAT_TYPING\nDISJUNCTIVE_CONDITIONS\nUNIVERSAL_CONDITIONS\n",
    ),
    (
        DOORS,
        "(define (problem s1) (:domain s) (:goal (p)) (:constraints (always (not (r)))))",
        "FLAT_TYPING\nNEGATIVE_CONDITIONS\nTRAJECTORY_CONSTRAINTS\n",
    ),
    (
        "(define (domain k) (:predicates (a) (b)) (:action act :effect (when (not (a)) (b))))",
        "(define (problem k1) (:domain k) (:goal (b)))",
        "NEGATIVE_CONDITIONS\nCONDITIONAL_EFFECTS\n",
    ),
    (
        "(define (domain k) (:predicates (a) (b)) (:action act :effect (when (a) (b))))",
        "(define (problem k1) (:domain k) (:goal (b)))",
        "CONDITIONAL_EFFECTS\n",
    ),
    (
        "(define (domain f) (:functions (n)) (:action act :effect (scale-up (n) 2)))",
        "(define (problem f1) (:domain f) (:goal ()))",
        "NUMERIC_FLUENTS\nSCALE_EFFECTS\n",
    ),
    (
        "(define (domain m) (:predicates (at ?r))
 (:action move :parameters (?f ?t) :precondition (not (= ?f ?t))
  :effect (and (at ?t) (not (at ?f)))))",
        "(define (problem m1) (:domain m) (:objects a) (:goal ()))",
        "ACTION_PARAMETERS\nNEGATIVE_CONDITIONS\nEQUALITIES\n",
    ),
    (
        "(define (domain m) (:predicates (at ?r))
 (:action move :parameters (?f ?t) :precondition (= ?f ?t)
  :effect (and (at ?t) (not (at ?f)))))",
        "(define (problem m1) (:domain m) (:objects a) (:goal ()))",
        "ACTION_PARAMETERS\nEQUALITIES\nEFFECT_OVERLAP\n",
    ),
];

#[test]
fn puts_the_kind(rt: HostRuntime) {
    let alloc = rt.alloc();
    for (domain, problem, features) in KINDS {
        let files = [("d", domain), ("p", problem)];
        let outcome = run_line(alloc, "kind d p", &files).expect(&rt, "room");
        assert_eq!(rt; outcome.sink.bytes(), features.as_bytes());
        assert_eq!(rt; outcome.code, 0);
    }
}
