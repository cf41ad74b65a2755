use pddl_lex::brackets;
use pddl_parse::{ShapeError, domain_form, problem_form};
use std::alloc::Global;
use up_text::Place;

fn at(column: u32) -> Place {
    Place { line: 1, column }
}

fn expected(column: u32) -> Option<ShapeError> {
    Some(ShapeError::Expected { place: at(column) })
}

fn left_out(column: u32) -> Option<ShapeError> {
    Some(ShapeError::LeftOut { place: at(column) })
}

fn duplicate(column: u32) -> Option<ShapeError> {
    Some(ShapeError::Duplicate { place: at(column) })
}

fn domain_fault(alloc: Global, text: &str) -> Option<ShapeError> {
    match brackets(alloc, text.as_bytes()) {
        Err(_) => Some(ShapeError::Memory),
        Ok(trees) => domain_form(alloc, &trees).err(),
    }
}

fn problem_fault(alloc: Global, text: &str) -> Option<ShapeError> {
    match brackets(alloc, text.as_bytes()) {
        Err(_) => Some(ShapeError::Memory),
        Ok(trees) => problem_form(alloc, &trees).err(),
    }
}

#[test]
fn reads_domains(rt: HostRuntime) {
    let table = [
        ("", expected(1)),
        ("(foo)", expected(1)),
        ("(define (domain d))", None),
        ("(define (domain d)) (p)", expected(21)),
        ("(define (problem d))", expected(10)),
        ("(define (domain d) (:init (p)))", left_out(20)),
        ("(define (domain d) (:durative-action a))", left_out(20)),
        ("(define (domain d) (:types a) (:types b))", duplicate(31)),
        (
            "(define (domain d) (:requirements :strips :foo))",
            left_out(43),
        ),
        ("(define (domain d) (:types a -))", expected(20)),
        (
            "(define (domain d) (:predicates (p ?x - (either a b))))",
            left_out(42),
        ),
        (
            "(define (domain d) (:action a :effect (not (and (p)))))",
            expected(45),
        ),
        ("(define (domain d) (:action a :effect))", expected(20)),
        (
            "(define (domain d) (:action a :effect () :effect ()))",
            duplicate(42),
        ),
        ("(define (domain d) (:action a :vars ()))", left_out(31)),
        (
            "(define (domain d) (:action a :effect (and ())))",
            expected(44),
        ),
        (
            "(define (domain d) (:action a :precondition (imply (5))))",
            expected(45),
        ),
        (
            "(define (domain d) (:action a :effect (assign (f) undefined)))",
            None,
        ),
        (
            "(define (domain d) (:action a :effect (increase (f) undefined)))",
            left_out(53),
        ),
        (
            "(define (domain d) (:constraints (within 3 (p))))",
            left_out(34),
        ),
        (
            "(define (domain d) (:constraints (preference x)))",
            left_out(35),
        ),
        (
            "(define (domain d) (:constraints (and (always (p)) (forall (?x - t) (sometime-after (p) (q))))))",
            None,
        ),
        (
            "(define (domain d) (:functions (f ?x - t) - u (g)) (:constants a b - c) (:action a :parameters (?x - t) :precondition (or (p ?x) (exists (?y) (< (f) 2))) :effect (forall (?x) (when (p ?x) (not (p ?x))))))",
            None,
        ),
    ];
    for (text, fault) in table {
        assert_eq!(rt; domain_fault(rt.alloc(), text), fault, "{text}");
    }
}

#[test]
fn reads_problems(rt: HostRuntime) {
    let table = [
        ("(define (problem p) (:domain d) (:goal (p)))", None),
        ("(define (problem p) (:domain d) (foo))", expected(1)),
        ("(define (domain p) (:domain d) (:goal (p)))", expected(10)),
        ("(define (problem p) (:domain d) (:goal))", expected(33)),
        (
            "(define (problem p) (:domain d) (:init) (:init) (:goal ()))",
            duplicate(41),
        ),
        (
            "(define (problem p) (:domain d) (:init (p ?x)) (:goal (p)))",
            expected(43),
        ),
        (
            "(define (problem p) (:domain d) (:goal (p)) (:predicates (q)))",
            left_out(45),
        ),
        (
            "(define (problem p) (:domain d) (:goal (p)) (:metric maximize (total-time)))",
            left_out(64),
        ),
        (
            "(define (problem p) (:domain d) (:goal (p)) (:metric smallest 1))",
            expected(54),
        ),
        (
            "(define (problem p) (:domain d) (:objects a b - t) (:init (not (p a)) (= (f a) 3) (= (g) b) (p a)) (:goal (p)) (:metric minimize (+ (f) 2)))",
            None,
        ),
    ];
    for (text, fault) in table {
        assert_eq!(rt; problem_fault(rt.alloc(), text), fault, "{text}");
    }
}
