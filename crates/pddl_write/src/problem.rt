ghost use Rattle.std.specs.Prelude.{◌≡◌, drop, option_map};
ghost use Rattle.up_line.specs.Sheet.{after};
ghost use Rattle.up_line.specs.Steps.{StepsFrom, StepsOn};
ghost use Rattle.pddl_write.specs.Phrases.{object_text};
ghost use Rattle.pddl_write.specs.Files.{define_problem, domain_line, members, each, fact_text, number_fact_text, value_fact_text, goal_text, from_objects, from_init, from_numbers, from_values, from_goal, from_constraints, from_metric};
ghost use Rattle.pddl_write.specs.Rests.{problem_rest};

use crate::declare::{put_fact, put_metric, put_number_fact, put_value_fact};
use crate::effect::put_constraints;
use crate::formula::put_formula;
use crate::phrase::put_object;
use up_line::{Line, Steps};
use up_tree::{Fact, NumberFact, Parts, Typed, ValueFact};

// The next piece of a problem: a line, the head of a section, or the first of members.
#[derive(Clone, Copy)]
pub enum ProblemPlace<'p> {
    Define,
    Domain,
    Objects,
    Object(&'p [Typed]),
    Init,
    Atom(&'p [Fact]),
    Number(&'p [NumberFact]),
    Value(&'p [ValueFact]),
    Goal,
    Constraints,
    Metric,
    End,
    Done,
}

// A problem from a place on.
#[derive(Clone, Copy)]
pub struct ProblemSteps<'p> {
    pub parts: &'p Parts,
    pub typed: bool,
    pub place: ProblemPlace<'p>,
}

impl<'p> ProblemSteps<'p> {
    fn objects(&self) -> &'p [Typed]
        ensures { result.now ≡ drop self.now.parts.now.constants self.now.parts.now.objects }
    {
        let objects = self.parts.objects.as_slice();
        if self.parts.constants < objects.len() {
            &objects[self.parts.constants..]
        } else {
            &[]
        }
    }

    fn at_metric(&self) -> ProblemPlace<'p>
        ensures { problem_rest self.now.typed self.now.parts.now result ≡ from_metric self.now.parts.now.metric }
    {
        match &self.parts.metric {
            None => ProblemPlace::End,
            Some(_) => ProblemPlace::Metric,
        }
    }

    fn at_constraints(&self) -> ProblemPlace<'p>
        ensures { problem_rest self.now.typed self.now.parts.now result ≡ from_constraints self.now.typed self.now.parts.now.constraints self.now.parts.now.metric }
    {
        match self.parts.constraints.as_slice().split_first() {
            None => self.at_metric(),
            Some(_) => ProblemPlace::Constraints,
        }
    }

    fn at_objects(&self) -> ProblemPlace<'p>
        ensures { problem_rest self.now.typed self.now.parts.now result ≡ from_objects self.now.typed self.now.parts.now }
    {
        match self.objects().split_first() {
            None => ProblemPlace::Init,
            Some(_) => ProblemPlace::Objects,
        }
    }

    #[tactic(auto, using(up_line::proofs::Sheets::puts))]
    fn put_define(&self, line: &mut Line)
        ensures { line.new ≡ after line.old (define_problem self.now.parts.now) }
    {
        line.put(b"(define (problem ");
        line.put(self.parts.name.bytes());
        line.put(b")\n");
    }

    #[tactic(auto, using(up_line::proofs::Sheets::puts))]
    fn put_domain(&self, line: &mut Line)
        ensures { line.new ≡ after line.old (domain_line self.now.parts.now) }
    {
        line.put(b"(:domain ");
        line.put(self.parts.domain.bytes());
        line.put(b")\n");
    }

    #[tactic(auto, using(up_line::proofs::Sheets::puts))]
    fn put_goal(&self, line: &mut Line)
        ensures { line.new ≡ after line.old (goal_text self.now.typed self.now.parts.now) }
    {
        line.put(b"(:goal ");
        put_formula(line, self.typed, &self.parts.goal);
        line.put(b")\n");
    }

    #[tactic(auto, using(up_line::proofs::Sheets::puts))]
    fn put_object_member(&self, line: &mut Line, objects: &'p [Typed]) -> ProblemPlace<'p>
        ensures { StepsFrom line.old line.new (members (object_text self.now.typed) objects.now (from_init self.now.typed self.now.parts.now)) (problem_rest self.now.typed self.now.parts.now result) }
    {
        match objects.split_first() {
            Some((object, others)) => {
                line.put(b" ");
                put_object(line, self.typed, object);
                ProblemPlace::Object(others)
            }
            None => {
                line.put(b")\n");
                ProblemPlace::Init
            }
        }
    }

    #[tactic(auto, using(up_line::proofs::Sheets::puts))]
    fn put_atom(&self, line: &mut Line, facts: &'p [Fact]) -> ProblemPlace<'p>
        ensures { StepsFrom line.old line.new (each fact_text facts.now (from_numbers self.now.typed self.now.parts.now)) (problem_rest self.now.typed self.now.parts.now result) }
    {
        match facts.split_first() {
            Some((fact, others)) => {
                line.put(b" ");
                put_fact(line, fact);
                ProblemPlace::Atom(others)
            }
            None => self.put_number(line, self.parts.numbers.as_slice()),
        }
    }

    #[tactic(auto, using(up_line::proofs::Sheets::puts))]
    fn put_number(&self, line: &mut Line, facts: &'p [NumberFact]) -> ProblemPlace<'p>
        ensures { StepsFrom line.old line.new (each number_fact_text facts.now (from_values self.now.typed self.now.parts.now)) (problem_rest self.now.typed self.now.parts.now result) }
    {
        match facts.split_first() {
            Some((fact, others)) => {
                line.put(b" ");
                put_number_fact(line, fact);
                ProblemPlace::Number(others)
            }
            None => self.put_value(line, self.parts.values.as_slice()),
        }
    }

    #[tactic(auto, using(up_line::proofs::Sheets::puts))]
    fn put_value(&self, line: &mut Line, facts: &'p [ValueFact]) -> ProblemPlace<'p>
        ensures { StepsFrom line.old line.new (members value_fact_text facts.now (from_goal self.now.typed self.now.parts.now)) (problem_rest self.now.typed self.now.parts.now result) }
    {
        match facts.split_first() {
            Some((fact, others)) => {
                line.put(b" ");
                put_value_fact(line, fact);
                ProblemPlace::Value(others)
            }
            None => {
                line.put(b")\n");
                ProblemPlace::Goal
            }
        }
    }

    #[tactic(auto, using(up_line::proofs::Sheets::puts))]
    fn put_metric_line(&self, line: &mut Line) -> ProblemPlace<'p>
        ensures { StepsFrom line.old line.new (from_metric self.now.parts.now.metric) (problem_rest self.now.typed self.now.parts.now result) }
    {
        match &self.parts.metric {
            Some(metric) => {
                put_metric(line, metric);
                ProblemPlace::End
            }
            None => {
                line.put(b")\n");
                ProblemPlace::Done
            }
        }
    }

    #[tactic(auto, using(up_line::proofs::Sheets::puts))]
    fn put_constraints_line(&self, line: &mut Line) -> ProblemPlace<'p>
        ensures { StepsFrom line.old line.new (from_constraints self.now.typed self.now.parts.now.constraints self.now.parts.now.metric) (problem_rest self.now.typed self.now.parts.now result) }
    {
        let constraints = self.parts.constraints.as_slice();
        match constraints.split_first() {
            Some(_) => {
                put_constraints(line, self.typed, constraints);
                self.at_metric()
            }
            None => self.put_metric_line(line),
        }
    }

    // Puts the next piece, and answers the place behind it.
    fn go_on(&self, line: &mut Line) -> Option<ProblemPlace<'p>>
        ensures { StepsOn line.old line.new (problem_rest self.now.typed self.now.parts.now self.now.place) (option_map (problem_rest self.now.typed self.now.parts.now) result) }
    {
        match self.place {
            ProblemPlace::Define => {
                self.put_define(line);
                Some(ProblemPlace::Domain)
            }
            ProblemPlace::Domain => {
                self.put_domain(line);
                Some(self.at_objects())
            }
            ProblemPlace::Objects => {
                line.put(b"(:objects");
                Some(ProblemPlace::Object(self.objects()))
            }
            ProblemPlace::Object(objects) => Some(self.put_object_member(line, objects)),
            ProblemPlace::Init => {
                line.put(b"(:init");
                Some(ProblemPlace::Atom(self.parts.atoms.as_slice()))
            }
            ProblemPlace::Atom(facts) => Some(self.put_atom(line, facts)),
            ProblemPlace::Number(facts) => Some(self.put_number(line, facts)),
            ProblemPlace::Value(facts) => Some(self.put_value(line, facts)),
            ProblemPlace::Goal => {
                self.put_goal(line);
                Some(self.at_constraints())
            }
            ProblemPlace::Constraints => Some(self.put_constraints_line(line)),
            ProblemPlace::Metric => Some(self.put_metric_line(line)),
            ProblemPlace::End => {
                line.put(b")\n");
                Some(ProblemPlace::Done)
            }
            ProblemPlace::Done => None,
        }
    }
}

impl Steps for ProblemSteps<'_> {
    ghost use Rattle.pddl_write.specs.Walks.{problem_left};
    ghost use Rattle.up_line.specs.Steps.{first};

    ghost pieces = { problem_left };

    ghost piece = { λ s. first (problem_left s) };

    fn step(&mut self, line: &mut Line) -> bool {
        match self.go_on(line) {
            Some(place) => {
                self.place = place;
                true
            }
            None => false,
        }
    }
}
