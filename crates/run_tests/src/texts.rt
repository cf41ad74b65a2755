// Domains, problems, engines and maps that more than one command is run on.

pub(crate) const GRIPPER: &str = "(define (domain gripper)
 (:predicates (room ?r) (ball ?b) (free) (at-robby ?r) (at ?b ?r) (carry ?b))
 (:action move :parameters (?f ?t)
  :precondition (and (room ?f) (room ?t) (at-robby ?f))
  :effect (and (at-robby ?t) (not (at-robby ?f))))
 (:action pick :parameters (?b ?r)
  :precondition (and (ball ?b) (room ?r) (at ?b ?r) (at-robby ?r) (free))
  :effect (and (carry ?b) (not (at ?b ?r)) (not (free))))
 (:action drop :parameters (?b ?r)
  :precondition (and (ball ?b) (room ?r) (carry ?b) (at-robby ?r))
  :effect (and (at ?b ?r) (free) (not (carry ?b)))))
";

pub(crate) const ROOMS: &str = "(define (problem two-rooms) (:domain gripper)
 (:objects rooma roomb ball1)
 (:init (room rooma) (room roomb) (ball ball1) (free)
  (at-robby rooma) (at ball1 rooma))
 (:goal (at ball1 roomb)))
";

pub(crate) const ENGINE: &str = "name = \"e\"\nfeatures = [\"ACTION_PARAMETERS\"]\n";

pub(crate) const WRITTEN_DOMAIN: &str = "(define (domain gripper)
(:requirements :strips)
(:predicates (room ?x1) (ball ?x1) (free) (at-robby ?x1) (at ?x1 ?x2) (carry ?x1))
(:action move :parameters (?f ?t) :precondition (and (room ?f) (room ?t) (at-robby ?f)) :effect (and (at-robby ?t) (not (at-robby ?f))))
(:action pick :parameters (?b ?r) :precondition (and (ball ?b) (room ?r) (at ?b ?r) (at-robby ?r) (free)) :effect (and (carry ?b) (not (at ?b ?r)) (not (free))))
(:action drop :parameters (?b ?r) :precondition (and (ball ?b) (room ?r) (carry ?b) (at-robby ?r)) :effect (and (at ?b ?r) (free) (not (carry ?b))))
)
";

pub(crate) const WRITTEN_PROBLEM: &str = "(define (problem two-rooms)
(:domain gripper)
(:objects rooma roomb ball1)
(:init (room rooma) (room roomb) (ball ball1) (free) (at-robby rooma) (at ball1 rooma))
(:goal (at ball1 roomb))
)
";

pub(crate) const WRITTEN_MAP: &str = "up-map 1
chain
action move 2 keep move $1 $2
action pick 2 keep pick $1 $2
action drop 2 keep drop $1 $2
end
";

pub(crate) const DOORS: &str = "(define (domain s) (:types door)
 (:predicates (p) (q) (r) (open ?d - door))
 (:action a :precondition (p) :effect (and (q) (not (p)))))
";

pub(crate) const LOCATIONS: &str =
    "(define (domain l) (:types truck place) (:constants depot - place)
 (:functions (loc ?t - truck) - place)
 (:action home :effect (forall (?t - truck) (assign (loc ?t) depot))))
";

pub(crate) const LOCATION: &str =
    "(define (problem l1) (:domain l) (:objects t1 t2 - truck away - place)
 (:init (= (loc t1) away))
 (:goal (= (loc t1) depot)))
";

pub(crate) const LANDED: &str = "(define (problem u1) (:domain u) (:objects t1 - truck a b - place)
 (:init (= (loc t1) a)) (:goal (= (loc t1) b)))";

pub(crate) const WALK: &str = "(define (domain w) (:predicates (at ?n) (link ?a ?b))
 (:functions (time ?a ?b) (total-cost))
 (:action walk :parameters (?a ?b)
  :precondition (and (at ?a) (link ?a ?b))
  :effect (and (not (at ?a)) (at ?b) (increase (total-cost) (time ?a ?b)))))";

pub(crate) const CHEAPEST: &str = "(define (problem w1) (:domain w) (:objects n1 n2 n3)
 (:init (at n1) (link n1 n2) (link n2 n3) (= (time n1 n2) 5)
  (= (time n2 n3) 2.5) (= (total-cost) 0))
 (:goal (at n3)) (:metric minimize (total-cost)))";

pub(crate) const DEEDS: &str = "(define (domain s) (:types door)
 (:predicates (p) (q) (r) (open ?d - door)) (:functions (f))
 (:action a :precondition (p) :effect (and (q) (not (p))))
 (:action e :effect (r))
 (:action u :effect (and (p) (not (q))))
 (:action d :effect (when (> (f) 0) (q)))
 (:action inc :effect (and (increase (f) 2) (increase (f) 3)))
 (:action set :effect (and (assign (f) 2) (increase (f) 3)))
 (:action g :effect (scale-down (f) 0))
 (:action s :effect (and (q) (when (q) (r))))
 (:action t :precondition (p) :effect (and (p) (not (p))))
 (:action twice :effect (scale-up (f) 2)))";

pub(crate) const GRIPPER_PLAN: &str =
    "(pick ball1 rooma)\n(move rooma roomb)\n(drop ball1 roomb)\n";
