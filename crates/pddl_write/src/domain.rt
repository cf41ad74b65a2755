ghost use Rattle.std.specs.Prelude.{◌≡◌, take, true, option_map};
ghost use Rattle.up_line.specs.Sheet.{after};
ghost use Rattle.up_line.specs.Steps.{StepsFrom, StepsOn};
ghost use Rattle.up_kind.specs.Features.{has};
ghost use Rattle.up_kind.specs.declared.feature.Feature.TheVariants.{FlatTyping, ObjectFluents};
ghost use Rattle.pddl_write.specs.Phrases.{object_text};
ghost use Rattle.pddl_write.specs.Files.{define_domain, members, from_types, from_constants, from_predicates, from_functions, action_lines, predicate_text, function_text};
ghost use Rattle.pddl_write.specs.Rests.{domain_rest};

use crate::declare::{put_function, put_predicate, put_requirements};
use crate::effect::put_action;
use crate::phrase::put_object;
use up_kind::{Feature, Kind};
use up_line::{Line, Steps};
use up_tree::{Action, Function, Parts, Predicate, Typed};

// The next piece of a domain: a line, the head of a section, or the first of members.
#[derive(Clone, Copy)]
pub enum DomainPlace<'p> {
    Define,
    Requirements,
    Types,
    Type(&'p [Typed]),
    Constants,
    Constant(&'p [Typed]),
    Predicates,
    Predicate(&'p [Predicate]),
    Functions,
    Function(&'p [Function]),
    Action(&'p [Action]),
    Done,
}

// A domain from a place on.
#[derive(Clone, Copy)]
pub struct DomainSteps<'p> {
    pub parts: &'p Parts,
    pub kind: Kind,
    pub place: DomainPlace<'p>,
}

impl<'p> DomainSteps<'p> {
    fn constants(&self) -> &'p [Typed]
        ensures { result.now ≡ take self.now.parts.now.constants self.now.parts.now.objects }
    {
        let objects = self.parts.objects.as_slice();
        if self.parts.constants < objects.len() {
            &objects[..self.parts.constants]
        } else {
            objects
        }
    }

    fn at_functions(&self) -> DomainPlace<'p>
        ensures { domain_rest (has self.now.kind.0) self.now.parts.now result ≡ from_functions (has self.now.kind.0) self.now.parts.now }
    {
        match self.parts.functions.as_slice().split_first() {
            None => DomainPlace::Action(self.parts.actions.as_slice()),
            Some(_) => DomainPlace::Functions,
        }
    }

    fn at_predicates(&self) -> DomainPlace<'p>
        ensures { domain_rest (has self.now.kind.0) self.now.parts.now result ≡ from_predicates (has self.now.kind.0) self.now.parts.now }
    {
        match self.parts.predicates.as_slice().split_first() {
            None => self.at_functions(),
            Some(_) => DomainPlace::Predicates,
        }
    }

    fn at_constants(&self) -> DomainPlace<'p>
        ensures { domain_rest (has self.now.kind.0) self.now.parts.now result ≡ from_constants (has self.now.kind.0) self.now.parts.now }
    {
        match self.constants().split_first() {
            None => self.at_predicates(),
            Some(_) => DomainPlace::Constants,
        }
    }

    fn at_types(&self) -> DomainPlace<'p>
        ensures { domain_rest (has self.now.kind.0) self.now.parts.now result ≡ from_types (has self.now.kind.0) self.now.parts.now }
    {
        match self.parts.types.as_slice().split_first() {
            None => self.at_constants(),
            Some(_) => DomainPlace::Types,
        }
    }

    #[tactic(auto, using(up_line::proofs::Sheets::puts))]
    fn put_define(&self, line: &mut Line)
        ensures { line.new ≡ after line.old (define_domain self.now.parts.now) }
    {
        line.put(b"(define (domain ");
        line.put(self.parts.domain.bytes());
        line.put(b")\n");
    }

    #[tactic(auto, using(up_line::proofs::Sheets::puts))]
    fn put_type_member(&self, line: &mut Line, types: &'p [Typed]) -> DomainPlace<'p>
        ensures { StepsFrom line.old line.new (members (object_text true) types.now (from_constants (has self.now.kind.0) self.now.parts.now)) (domain_rest (has self.now.kind.0) self.now.parts.now result) }
    {
        match types.split_first() {
            Some((of, others)) => {
                line.put(b" ");
                put_object(line, true, of);
                DomainPlace::Type(others)
            }
            None => {
                line.put(b")\n");
                self.at_constants()
            }
        }
    }

    #[tactic(auto, using(up_line::proofs::Sheets::puts))]
    fn put_constant_member(&self, line: &mut Line, constants: &'p [Typed]) -> DomainPlace<'p>
        ensures { StepsFrom line.old line.new (members (object_text (has self.now.kind.0 FlatTyping)) constants.now (from_predicates (has self.now.kind.0) self.now.parts.now)) (domain_rest (has self.now.kind.0) self.now.parts.now result) }
    {
        match constants.split_first() {
            Some((constant, others)) => {
                line.put(b" ");
                put_object(line, self.kind.has(Feature::FlatTyping), constant);
                DomainPlace::Constant(others)
            }
            None => {
                line.put(b")\n");
                self.at_predicates()
            }
        }
    }

    #[tactic(auto, using(up_line::proofs::Sheets::puts))]
    fn put_predicate_member(&self, line: &mut Line, predicates: &'p [Predicate]) -> DomainPlace<'p>
        ensures { StepsFrom line.old line.new (members (predicate_text (has self.now.kind.0 FlatTyping)) predicates.now (from_functions (has self.now.kind.0) self.now.parts.now)) (domain_rest (has self.now.kind.0) self.now.parts.now result) }
    {
        match predicates.split_first() {
            Some((predicate, others)) => {
                line.put(b" ");
                put_predicate(line, self.kind.has(Feature::FlatTyping), predicate);
                DomainPlace::Predicate(others)
            }
            None => {
                line.put(b")\n");
                self.at_functions()
            }
        }
    }

    #[tactic(auto, using(up_line::proofs::Sheets::puts))]
    fn put_function_member(&self, line: &mut Line, functions: &'p [Function]) -> DomainPlace<'p>
        ensures { StepsFrom line.old line.new (members (function_text (has self.now.kind.0 FlatTyping) (has self.now.kind.0 ObjectFluents)) functions.now (action_lines (has self.now.kind.0) self.now.parts.now.actions)) (domain_rest (has self.now.kind.0) self.now.parts.now result) }
    {
        match functions.split_first() {
            Some((function, others)) => {
                let says_given = self.kind.has(Feature::ObjectFluents);
                line.put(b" ");
                put_function(
                    line,
                    self.kind.has(Feature::FlatTyping),
                    says_given,
                    function,
                );
                DomainPlace::Function(others)
            }
            None => {
                line.put(b")\n");
                DomainPlace::Action(self.parts.actions.as_slice())
            }
        }
    }

    #[tactic(auto, using(up_line::proofs::Sheets::puts))]
    fn put_action_line(&self, line: &mut Line, actions: &'p [Action]) -> DomainPlace<'p>
        ensures { StepsFrom line.old line.new (action_lines (has self.now.kind.0) actions.now) (domain_rest (has self.now.kind.0) self.now.parts.now result) }
    {
        match actions.split_first() {
            Some((action, others)) => {
                put_action(line, self.kind.has(Feature::FlatTyping), action);
                DomainPlace::Action(others)
            }
            None => {
                line.put(b")\n");
                DomainPlace::Done
            }
        }
    }

    // Puts the next piece, and answers the place behind it.
    fn go_on(&self, line: &mut Line) -> Option<DomainPlace<'p>>
        ensures { StepsOn line.old line.new (domain_rest (has self.now.kind.0) self.now.parts.now self.now.place) (option_map (domain_rest (has self.now.kind.0) self.now.parts.now) result) }
    {
        match self.place {
            DomainPlace::Define => {
                self.put_define(line);
                Some(DomainPlace::Requirements)
            }
            DomainPlace::Requirements => {
                put_requirements(line, self.kind);
                Some(self.at_types())
            }
            DomainPlace::Types => {
                line.put(b"(:types");
                Some(DomainPlace::Type(self.parts.types.as_slice()))
            }
            DomainPlace::Type(types) => Some(self.put_type_member(line, types)),
            DomainPlace::Constants => {
                line.put(b"(:constants");
                Some(DomainPlace::Constant(self.constants()))
            }
            DomainPlace::Constant(constants) => Some(self.put_constant_member(line, constants)),
            DomainPlace::Predicates => {
                line.put(b"(:predicates");
                Some(DomainPlace::Predicate(self.parts.predicates.as_slice()))
            }
            DomainPlace::Predicate(predicates) => Some(self.put_predicate_member(line, predicates)),
            DomainPlace::Functions => {
                line.put(b"(:functions");
                Some(DomainPlace::Function(self.parts.functions.as_slice()))
            }
            DomainPlace::Function(functions) => Some(self.put_function_member(line, functions)),
            DomainPlace::Action(actions) => Some(self.put_action_line(line, actions)),
            DomainPlace::Done => None,
        }
    }
}

impl Steps for DomainSteps<'_> {
    ghost use Rattle.pddl_write.specs.Walks.{domain_left};
    ghost use Rattle.up_line.specs.Steps.{first};

    ghost pieces = { domain_left };

    ghost piece = { λ s. first (domain_left s) };

    fn step(&mut self, line: &mut Line) -> bool {
        match self.go_on(line) {
            Some(place) => {
                self.place = place;
                true
            }
            None => false,
        }
    }
}
