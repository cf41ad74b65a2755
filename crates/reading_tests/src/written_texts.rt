/// Two texts that are read, the domain's and the problem's, and the two that are written of their problem.
#[derive(Clone, Copy)]
pub(crate) struct Row {
    pub read: [&'static str; 2],
    pub written: [&'static str; 2],
}

pub(crate) const GRIPPER: &str = "(define (domain gripper)
 (:predicates (room ?r) (ball ?b) (free) (at-robby ?r) (at ?b ?r) (carry ?b))
 (:action move :parameters (?f ?t)
  :precondition (and (room ?f) (room ?t) (at-robby ?f))
  :effect (and (at-robby ?t) (not (at-robby ?f))))
 (:action pick :parameters (?b ?r)
  :precondition (and (ball ?b) (room ?r) (at ?b ?r) (at-robby ?r) (free))
  :effect (and (carry ?b) (not (at ?b ?r)) (not (free))))
 (:action drop :parameters (?b ?r)
  :precondition (and (ball ?b) (room ?r) (carry ?b) (at-robby ?r))
  :effect (and (at ?b ?r) (free) (not (carry ?b)))))
";

pub(crate) const GRIPPER_PROBLEM: &str = "(define (problem two-rooms) (:domain gripper)
 (:objects rooma roomb ball1)
 (:init (room rooma) (room roomb) (ball ball1) (free)
  (at-robby rooma) (at ball1 rooma))
 (:goal (at ball1 roomb)))
";

const GRIPPER_ROW: Row = Row {
    read: [GRIPPER, GRIPPER_PROBLEM],
    written: [
        "(define (domain gripper)
(:requirements :strips)
(:predicates (room ?x1) (ball ?x1) (free) (at-robby ?x1) (at ?x1 ?x2) (carry ?x1))
(:action move :parameters (?f ?t) :precondition (and (room ?f) (room ?t) (at-robby ?f)) :effect (and (at-robby ?t) (not (at-robby ?f))))
(:action pick :parameters (?b ?r) :precondition (and (ball ?b) (room ?r) (at ?b ?r) (at-robby ?r) (free)) :effect (and (carry ?b) (not (at ?b ?r)) (not (free))))
(:action drop :parameters (?b ?r) :precondition (and (ball ?b) (room ?r) (carry ?b) (at-robby ?r)) :effect (and (at ?b ?r) (free) (not (carry ?b))))
)
",
        "(define (problem two-rooms)
(:domain gripper)
(:objects rooma roomb ball1)
(:init (room rooma) (room roomb) (ball ball1) (free) (at-robby rooma) (at ball1 rooma))
(:goal (at ball1 roomb))
)
",
    ],
};

// Types above types, constants, an object without a type, and an empty initial state.
const TYPES: Row = Row {
    read: [
        "(define (domain Depots) (:requirements :adl)
 (:types truck van - vehicle place) ; a vehicle is an object
 (:constants HUB - place)
 (:predicates (at ?v - vehicle ?p - place) (done) (near ?a ?b - place ?c))
 (:action go :effect (at ?v ?to) :parameters (?v - vehicle ?to - place)))
",
        "(define (problem depots-1) (:goal (and (at t1 p1) (done)))
 (:objects t1 - truck p1 hub - place box) (:domain depots))
",
    ],
    written: [
        "(define (domain depots)
(:requirements :strips :typing)
(:types truck - vehicle van - vehicle place - object vehicle - object)
(:constants hub - place)
(:predicates (at ?x1 - vehicle ?x2 - place) (done) (near ?x1 - place ?x2 - place ?x3 - object))
(:action go :parameters (?v - vehicle ?to - place) :precondition (and) :effect (and (at ?v ?to)))
)
",
        "(define (problem depots-1)
(:domain depots)
(:objects t1 - truck p1 - place box - object)
(:init)
(:goal (and (at t1 p1) (done)))
)
",
    ],
};

// Numbers, arithmetic, comparisons, numeric effects, and a metric.
const NUMBERS: Row = Row {
    read: [
        "(define (domain ledger) (:constants vault) (:predicates (open ?b)) (:functions (sum ?b) (rate))
 (:action pay :parameters (?a ?b)
  :precondition (and (open ?a) (>= (sum ?a) (* (rate) 0.50)) (< (- (rate)) (/ 1 007))
   (<= (sum ?a) 100.0) (> (sum ?b) -2.50) (= (sum ?a) (+ 1 2 3)))
  :effect (and (assign (sum ?a) (+ (sum ?a) 1 2 3 4)) (increase (sum ?b) 1) (decrease (rate) (- 3 (rate)))
   (scale-up (sum ?b) 2) (scale-down (rate) 0.000000001))))
",
        "(define (problem ledger-1) (:domain ledger) (:objects a b)
 (:init (= (sum a) 2.5) (open a) (= (sum b) -0.125) (= (sum b) -0.1250) (= (rate) 999999999999999999)
  (= (sum vault) 123456789.123456789))
 (:goal (>= (sum vault) -0.0)) (:metric maximize (+ rate (* 2 (sum vault)))))
",
    ],
    written: [
        "(define (domain ledger)
(:requirements :strips :numeric-fluents)
(:constants vault)
(:predicates (open ?x1))
(:functions (sum ?x1) (rate))
(:action pay :parameters (?a ?b) :precondition (and (open ?a) (>= (sum ?a) (* (rate) 0.5)) (< (- 0 (rate)) (/ 1 7)) (<= (sum ?a) 100) (> (sum ?b) -2.5) (= (sum ?a) (+ (+ 1 2) 3))) :effect (and (assign (sum ?a) (+ (+ (+ (sum ?a) 1) 2) (+ 3 4))) (increase (sum ?b) 1) (decrease (rate) (- 3 (rate))) (scale-up (sum ?b) 2) (scale-down (rate) 0.000000001)))
)
",
        "(define (problem ledger-1)
(:domain ledger)
(:objects a b)
(:init (open a) (= (sum a) 2.5) (= (sum b) -0.125) (= (rate) 999999999999999999) (= (sum vault) 123456789.123456789))
(:goal (>= (sum vault) 0))
(:metric maximize (+ (rate) (* 2 (sum vault))))
)
",
    ],
};

// Functions that give objects beside one that gives a number, and a value that is taken away.
const VALUES: Row = Row {
    read: [
        "(define (domain fleet) (:types truck place) (:predicates (seen ?p - place))
 (:functions (loc ?t - truck) (home) - place (fuel ?t - truck))
 (:action lift :parameters (?t - truck) :effect (assign (loc ?t) undefined))
 (:action land :parameters (?t - truck ?p - place) :precondition (= (home) ?p)
  :effect (and (assign (loc ?t) ?p) (increase (fuel ?t) 1) (seen (loc ?t)))))
",
        "(define (problem fleet-1) (:domain fleet) (:objects t1 - truck a b - place)
 (:init (= (loc t1) a) (= (fuel t1) 0.5) (= (home) b) (seen a)) (:goal (= (loc t1) b)))
",
    ],
    written: [
        "(define (domain fleet)
(:requirements :strips :typing :equality :numeric-fluents :object-fluents)
(:types truck - object place - object)
(:predicates (seen ?x1 - place))
(:functions (loc ?x1 - truck) - place (home) - place (fuel ?x1 - truck) - number)
(:action lift :parameters (?t - truck) :precondition (and) :effect (and (assign (loc ?t) undefined)))
(:action land :parameters (?t - truck ?p - place) :precondition (= (home) ?p) :effect (and (assign (loc ?t) ?p) (increase (fuel ?t) 1) (seen (loc ?t))))
)
",
        "(define (problem fleet-1)
(:domain fleet)
(:objects t1 - truck a - place b - place)
(:init (seen a) (= (fuel t1) 0.5) (= (loc t1) a) (= (home) b))
(:goal (= (loc t1) b))
)
",
    ],
};

// Effects with variables and conditions, nested.
const EFFECTS: Row = Row {
    read: [
        "(define (domain doors) (:types door) (:predicates (open ?d - door) (lit ?d - door) (alarm))
 (:action sweep :parameters (?d - door)
  :effect (and (forall (?e ?f - door) (when (and (open ?e) (alarm)) (and (lit ?e) (not (open ?f)))))
   (when (alarm) (when (and) (when (open ?d) (not (alarm)))))
   (forall (?g - door) (and (forall (?h) (lit ?g)))) (and) (when (lit ?d) (alarm)) (lit ?d)))
 (:action rest))
",
        "(define (problem doors-1) (:domain doors) (:init (not (alarm))) (:goal ()))",
    ],
    written: [
        "(define (domain doors)
(:requirements :strips :typing :conditional-effects)
(:types door - object)
(:predicates (open ?x1 - door) (lit ?x1 - door) (alarm))
(:action sweep :parameters (?d - door) :precondition (and) :effect (and (forall (?e - door ?f - door) (when (and (open ?e) (alarm)) (lit ?e))) (forall (?e - door ?f - door) (when (and (open ?e) (alarm)) (not (open ?f)))) (when (and (alarm) (open ?d)) (not (alarm))) (forall (?g - door ?h - object) (lit ?g)) (when (lit ?d) (alarm)) (lit ?d)))
(:action rest :parameters () :precondition (and) :effect (and))
)
",
        "(define (problem doors-1)
(:domain doors)
(:init)
(:goal (and))
)
",
    ],
};

// Conditions of every other form.
const CONDITIONS: Row = Row {
    read: [
        "(define (domain logic) (:types door) (:constants front - door) (:predicates (open ?d - door) (p) (q))
 (:action think :parameters (?d - door)
  :precondition (and (or (p) (not (q))) (imply (open ?d) (not (= ?d front))) (exists (?e - door ?f) (= ?e ?f))
   (forall (?e - door) (not (and (open ?e) (p)))) (or) (and) (exists () (q)))))
",
        "(define (problem logic-1) (:domain logic) (:init (p) (p)) (:goal (not (not (q)))))",
    ],
    written: [
        "(define (domain logic)
(:requirements :strips :typing :negative-preconditions :disjunctive-preconditions :equality :existential-preconditions :universal-preconditions)
(:types door - object)
(:constants front - door)
(:predicates (open ?x1 - door) (p) (q))
(:action think :parameters (?d - door) :precondition (and (or (p) (not (q))) (imply (open ?d) (not (= ?d front))) (exists (?e - door ?f - object) (= ?e ?f)) (forall (?e - door) (not (and (open ?e) (p)))) (or) (and) (exists () (q))) :effect (and))
)
",
        "(define (problem logic-1)
(:domain logic)
(:init (p))
(:goal (not (not (q))))
)
",
    ],
};

// Constraints of both texts, the domain's first, beside a metric.
const CONSTRAINTS: Row = Row {
    read: [
        "(define (domain watch) (:types door) (:predicates (p) (q) (open ?d - door)) (:functions (cost))
 (:constraints (and (always (imply (p) (q)))
  (forall (?d - door) (and (sometime (open ?d)) (forall (?e) (at-most-once (not (= ?d ?e)))))))))
",
        "(define (problem watch-1) (:domain watch) (:metric minimize (cost))
 (:constraints (and (sometime-after (p) (q)) (sometime-before (q) (p)))) (:objects d1 - door) (:goal (p)))
",
    ],
    written: [
        "(define (domain watch)
(:requirements :strips :typing :negative-preconditions :disjunctive-preconditions :equality :numeric-fluents :constraints)
(:types door - object)
(:predicates (p) (q) (open ?x1 - door))
(:functions (cost))
)
",
        "(define (problem watch-1)
(:domain watch)
(:objects d1 - door)
(:init)
(:goal (p))
(:constraints (and (always (imply (p) (q))) (forall (?d - door) (sometime (open ?d))) (forall (?d - door ?e - object) (at-most-once (not (= ?d ?e)))) (sometime-after (p) (q)) (sometime-before (q) (p))))
(:metric minimize (cost))
)
",
    ],
};

pub(crate) const ROWS: &[Row] = &[
    GRIPPER_ROW,
    TYPES,
    NUMBERS,
    VALUES,
    EFFECTS,
    CONDITIONS,
    CONSTRAINTS,
];
