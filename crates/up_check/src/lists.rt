ghost use Rattle.std.specs.Prelude.{◌≡◌, map, Ok, Some, IfOk, IfErr};
ghost use Rattle.pddl_lex.specs.Parses.{parsed, first};
ghost use Rattle.up_phrase.specs.Declarations.{declarations};
ghost use Rattle.up_phrase.specs.Scopes.{typed};
ghost use Rattle.up_check.specs.Initial.{initial};
ghost use Rattle.up_check.specs.Held.{fact, number_fact, value_fact, held};
ghost use Rattle.up_check.specs.Lists.{predicate, function};

use crate::init::{Ground, Init, checked_init};
use indexmap::{IndexMap, IndexSet};
use pddl_parse::RawInit;
use std::alloc::Global;
use up_frac::Frac;
use up_phrase::{Fault, Names, Signature};
use up_text::{List, Memory, Name};
use up_tree::{Fact, Function, NumberFact, Predicate, Typed, ValueFact};

/// The initial state as a problem holds it.
#[derive(Drop)]
pub struct Initial {
    pub atoms: List<Fact>,
    pub numbers: List<NumberFact>,
    pub values: List<ValueFact>,
}

/// What is declared as a problem holds it.
#[derive(Drop)]
pub struct Declared {
    pub types: List<Typed>,
    pub objects: List<Typed>,
    pub predicates: List<Predicate>,
    pub functions: List<Function>,
}

/// The lists of what is declared, in its order.
pub fn declared_lists(alloc: Global, names: Names) -> Result<Declared, Memory>
    ensures types { IfOk result (λ made. made.types ≡ map typed (declarations names).types) }
    ensures objects { IfOk result (λ made. made.objects ≡ map typed (declarations names).objects) }
    ensures predicates { IfOk result (λ made. made.predicates ≡ map predicate (declarations names).predicates) }
    ensures functions { IfOk result (λ made. made.functions ≡ map function (declarations names).functions) }
{
    let Names {
        types,
        objects,
        predicates,
        functions,
    } = names;
    all_declared(
        typed_of(alloc, types),
        typed_of(alloc, objects),
        predicates_of(alloc, predicates),
        functions_of(alloc, functions),
    )
}

// The lists, where there was memory for all of them.
fn all_declared(
    types: Result<List<Typed>, Memory>,
    objects: Result<List<Typed>, Memory>,
    predicates: Result<List<Predicate>, Memory>,
    functions: Result<List<Function>, Memory>,
) -> Result<Declared, Memory>
    ensures types { IfOk result (λ made. types ≡ Ok made.types) }
    ensures objects { IfOk result (λ made. objects ≡ Ok made.objects) }
    ensures predicates { IfOk result (λ made. predicates ≡ Ok made.predicates) }
    ensures functions { IfOk result (λ made. functions ≡ Ok made.functions) }
{
    Ok(Declared {
        types: types?,
        objects: objects?,
        predicates: predicates?,
        functions: functions?,
    })
}

fn typed_of(alloc: Global, table: IndexMap<Name, Name>) -> Result<List<Typed>, Memory>
    ensures { IfOk result (λ made. made ≡ map typed table.entries) }
{
    let mut list = List::new(alloc);
    'entries: for (name, of) in table {
        list.push(Typed { name, of })?;
    }
    Ok(list)
}

fn predicates_of(
    alloc: Global,
    table: IndexMap<Name, List<Name>>,
) -> Result<List<Predicate>, Memory>
    ensures { IfOk result (λ made. made ≡ map predicate table.entries) }
{
    let mut list = List::new(alloc);
    'entries: for (name, args) in table {
        list.push(Predicate { name, args })?;
    }
    Ok(list)
}

fn functions_of(alloc: Global, table: IndexMap<Name, Signature>) -> Result<List<Function>, Memory>
    ensures { IfOk result (λ made. made ≡ map function table.entries) }
{
    let mut list = List::new(alloc);
    'entries: for (name, Signature { args, gives }) in table {
        list.push(Function { name, args, gives })?;
    }
    Ok(list)
}

/// The initial state that a problem text lists, as `checked_init` reads it.
pub fn init_of(alloc: Global, names: &Names, members: &[RawInit]) -> Result<Initial, Fault>
    ensures ok { IfOk result (λ made. initial (declarations names.now) members.now ≡ parsed made) }
    ensures err { IfErr result (λ fault. ¬ (fault ≡ Fault.Memory) → first (initial (declarations names.now) members.now) ≡ Some fault) }
{
    let init = checked_init(alloc, names, members)?;
    Ok(init_lists(alloc, init)?)
}

fn init_lists(alloc: Global, init: Init) -> Result<Initial, Memory>
    ensures { IfOk result (λ made. made ≡ held init) }
{
    let Init {
        atoms,
        numbers,
        values,
    } = init;
    all_stated(
        facts_of(alloc, atoms),
        number_facts_of(alloc, numbers),
        value_facts_of(alloc, values),
    )
}

// The lists, where there was memory for all of them.
fn all_stated(
    atoms: Result<List<Fact>, Memory>,
    numbers: Result<List<NumberFact>, Memory>,
    values: Result<List<ValueFact>, Memory>,
) -> Result<Initial, Memory>
    ensures atoms { IfOk result (λ made. atoms ≡ Ok made.atoms) }
    ensures numbers { IfOk result (λ made. numbers ≡ Ok made.numbers) }
    ensures values { IfOk result (λ made. values ≡ Ok made.values) }
{
    Ok(Initial {
        atoms: atoms?,
        numbers: numbers?,
        values: values?,
    })
}

fn facts_of(alloc: Global, set: IndexSet<Ground>) -> Result<List<Fact>, Memory>
    ensures { IfOk result (λ made. made ≡ map fact set.keys) }
{
    let mut list = List::new(alloc);
    'entries: for Ground { name, args } in set {
        list.push(Fact {
            predicate: name,
            args: List::from_vec(args),
        })?;
    }
    Ok(list)
}

fn number_facts_of(alloc: Global, table: IndexMap<Ground, Frac>) -> Result<List<NumberFact>, Memory>
    ensures { IfOk result (λ made. made ≡ map number_fact table.entries) }
{
    let mut list = List::new(alloc);
    'entries: for (Ground { name, args }, value) in table {
        list.push(NumberFact {
            function: name,
            args: List::from_vec(args),
            value,
        })?;
    }
    Ok(list)
}

fn value_facts_of(alloc: Global, table: IndexMap<Ground, Name>) -> Result<List<ValueFact>, Memory>
    ensures { IfOk result (λ made. made ≡ map value_fact table.entries) }
{
    let mut list = List::new(alloc);
    'entries: for (Ground { name, args }, value) in table {
        list.push(ValueFact {
            function: name,
            args: List::from_vec(args),
            value,
        })?;
    }
    Ok(list)
}
