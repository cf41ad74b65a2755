ghost use Rattle.std.specs.Prelude.{◌≡◌, ◌∷◌, [], ◌++◌, false, Some, None, IfOk, IfErr, OnOk};
ghost use Rattle.pddl_lex.specs.Parses.{parsed, first};
ghost use Rattle.up_phrase.specs.Declarations.{declarations};
ghost use Rattle.up_phrase.specs.Lookups.{type_of, predicate_of, function_of};
ghost use Rattle.up_phrase.specs.Scopes.{type_named};
ghost use Rattle.up_phrase.specs.Walks.{in_turn};
ghost use Rattle.up_declare.specs.Declaring.{and_object, and_predicate, and_function, with_object, with_group, with_objects, is_symbol, each_of, arg_types, new_symbol, with_predicate, with_predicates, given, gives_fault, signature, with_function, with_function_group, with_functions};

use pddl_parse::{Ident, RawFunctions, RawGives, RawGroup, RawSymbol};
use std::alloc::Global;
use up_phrase::{Fault, Names, Reason, Signature, check_type, known_type, named, type_named};
use up_text::{List, Memory, Name};
use up_tree::Gives;

/// Declares constants or objects.
///
/// Errors: `Duplicate` at a name that has another type already, `UnknownName` at a type, after the faults of the names before it.
pub fn declare_objects(alloc: Global, names: &mut Names, groups: &[RawGroup]) -> Result<(), Fault>
    ensures ok { OnOk result (with_objects groups.now (declarations names.old) ≡ parsed (declarations names.new)) }
    ensures err { IfErr result (λ fault. ¬ (fault ≡ Fault.Memory) → first (with_objects groups.now (declarations names.old)) ≡ Some fault) }
{
    for group in groups {
        declare_group(alloc, names, group)?;
    }
    Ok(())
}

fn declare_group(alloc: Global, names: &mut Names, group: &RawGroup) -> Result<(), Fault>
    ensures ok { OnOk result (with_group group.now (declarations names.old) ≡ parsed (declarations names.new)) }
    ensures err { IfErr result (λ fault. ¬ (fault ≡ Fault.Memory) → first (with_group group.now (declarations names.old)) ≡ Some fault) }
{
    let of = type_named(alloc, &group.of)?;
    declare_each(alloc, names, group.names.as_slice(), &of)?;
    known_type(alloc, names, &group.of)
}

fn declare_each(alloc: Global, names: &mut Names, idents: &[Ident], of: &Name) -> Result<(), Fault>
    ensures ok { OnOk result (in_turn (with_object of.now) idents.now (declarations names.old) ≡ parsed (declarations names.new)) }
    ensures err { IfErr result (λ fault. ¬ (fault ≡ Fault.Memory) → first (in_turn (with_object of.now) idents.now (declarations names.old)) ≡ Some fault) }
{
    for ident in idents {
        declare_object(alloc, names, ident, of)?;
    }
    Ok(())
}

fn declare_object(alloc: Global, names: &mut Names, ident: &Ident, of: &Name) -> Result<(), Fault>
    ensures ok { OnOk result (with_object of.now ident.now (declarations names.old) ≡ parsed (declarations names.new)) }
    ensures err { IfErr result (λ fault. ¬ (fault ≡ Fault.Memory) →
        first (with_object of.now ident.now (declarations names.old)) ≡ Some fault) }
{
    match names.type_of(&ident.name) {
        None => Ok(add_object(names, ident.name.copy(alloc)?, of.copy(alloc)?)?),
        Some(first) if first == of => Ok(()),
        Some(_) => Err(named(alloc, ident.place, Reason::Duplicate, &ident.name)),
    }
}

fn add_object(names: &mut Names, name: Name, of: Name) -> Result<(), Memory>
    ensures { OnOk result (type_of (declarations names.old) name ≡ None → declarations names.new ≡ and_object (declarations names.old) name of) }
{
    names.objects.insert(name, of)?;
    Ok(())
}

/// Declares predicates.
///
/// Errors: `Duplicate` at a name that is declared, `UnknownName` at a type.
pub fn declare_predicates(
    alloc: Global,
    names: &mut Names,
    symbols: &[RawSymbol],
) -> Result<(), Fault>
    ensures ok { OnOk result (with_predicates symbols.now (declarations names.old) ≡ parsed (declarations names.new)) }
    ensures err { IfErr result (λ fault. ¬ (fault ≡ Fault.Memory) → first (with_predicates symbols.now (declarations names.old)) ≡ Some fault) }
{
    for symbol in symbols {
        declare_predicate(alloc, names, symbol)?;
    }
    Ok(())
}

fn declare_predicate(alloc: Global, names: &mut Names, symbol: &RawSymbol) -> Result<(), Fault>
    ensures ok { OnOk result (with_predicate symbol.now (declarations names.old) ≡ parsed (declarations names.new)) }
    ensures err { IfErr result (λ fault. ¬ (fault ≡ Fault.Memory) → first (with_predicate symbol.now (declarations names.old)) ≡ Some fault) }
{
    let args = new_symbol(alloc, names, symbol)?;
    add_predicate(names, symbol.name.name.copy(alloc)?, args)?;
    Ok(())
}

fn add_predicate(names: &mut Names, name: Name, args: List<Name>) -> Result<(), Memory>
    ensures { OnOk result (predicate_of (declarations names.old) name ≡ None → declarations names.new ≡ and_predicate (declarations names.old) name args) }
{
    names.predicates.insert(name, args)?;
    Ok(())
}

// Whether a name is a predicate or a function.
fn is_symbol(names: &Names, name: &Name) -> bool
    ensures { result ≡ is_symbol (declarations names.now) name.now }
{
    names.predicates.contains_key(name) || names.functions.contains_key(name)
}

// The types of the arguments of a predicate or function that isn't declared yet.
fn new_symbol(alloc: Global, names: &Names, symbol: &RawSymbol) -> Result<List<Name>, Fault>
    ensures ok { IfOk result (λ args. new_symbol (declarations names.now) symbol.now ≡ parsed args) }
    ensures new { OnOk result (is_symbol (declarations names.now) symbol.now.name.name ≡ false) }
    ensures err { IfErr result (λ fault. ¬ (fault ≡ Fault.Memory) → first (new_symbol (declarations names.now) symbol.now) ≡ Some fault) }
{
    let Ident { name, place } = &symbol.name;
    if is_symbol(names, name) {
        return Err(named(alloc, *place, Reason::Duplicate, name));
    }
    arg_types(alloc, names, symbol.params.as_slice())
}

fn arg_types(alloc: Global, names: &Names, groups: &[RawGroup]) -> Result<List<Name>, Fault>
    ensures ok { IfOk result (λ types. arg_types (declarations names.now) groups.now ≡ parsed types) }
    ensures err { IfErr result (λ fault. ¬ (fault ≡ Fault.Memory) → first (arg_types (declarations names.now) groups.now) ≡ Some fault) }
{
    let mut types = List::new(alloc);
    for group in groups {
        known_type(alloc, names, &group.of)?;
        types = with_types(alloc, group, types)?;
    }
    Ok(types)
}

// With the types of the parameters of a group.
fn with_types(alloc: Global, group: &RawGroup, types: List<Name>) -> Result<List<Name>, Memory>
    ensures { IfOk result (λ more. more ≡ types ++ each_of (type_named group.now.of) group.now.names) }
{
    let of = type_named(alloc, &group.of)?;
    with_each_type(alloc, &of, group.names.as_slice(), types)
}

fn with_each_type(
    alloc: Global,
    of: &Name,
    params: &[Ident],
    types: List<Name>,
) -> Result<List<Name>, Memory>
    ensures { IfOk result (λ more. more ≡ types ++ each_of of.now params.now) }
{
    let mut types = types;
    for _param in params {
        types.push(of.copy(alloc)?)?;
    }
    Ok(types)
}

/// Declares functions.
///
/// Errors: as those of `declare_predicates`; what functions give is checked after all to which it belongs.
pub fn declare_functions(
    alloc: Global,
    names: &mut Names,
    groups: &[RawFunctions],
) -> Result<(), Fault>
    ensures ok { OnOk result (with_functions groups.now (declarations names.old) ≡ parsed (declarations names.new)) }
    ensures err { IfErr result (λ fault. ¬ (fault ≡ Fault.Memory) → first (with_functions groups.now (declarations names.old)) ≡ Some fault) }
{
    for group in groups {
        declare_function_group(alloc, names, group)?;
    }
    Ok(())
}

fn declare_function_group(
    alloc: Global,
    names: &mut Names,
    group: &RawFunctions,
) -> Result<(), Fault>
    ensures ok { OnOk result (with_function_group group.now (declarations names.old) ≡ parsed (declarations names.new)) }
    ensures err { IfErr result (λ fault. ¬ (fault ≡ Fault.Memory) → first (with_function_group group.now (declarations names.old)) ≡ Some fault) }
{
    declare_each_function(alloc, names, &group.gives, group.functions.as_slice())?;
    check_gives(alloc, names, &group.gives)
}

fn declare_each_function(
    alloc: Global,
    names: &mut Names,
    gives: &RawGives,
    symbols: &[RawSymbol],
) -> Result<(), Fault>
    ensures ok { OnOk result (in_turn (with_function gives.now) symbols.now (declarations names.old) ≡ parsed (declarations names.new)) }
    ensures err { IfErr result (λ fault. ¬ (fault ≡ Fault.Memory) → first (in_turn (with_function gives.now) symbols.now (declarations names.old)) ≡ Some fault) }
{
    for symbol in symbols {
        declare_function(alloc, names, gives, symbol)?;
    }
    Ok(())
}

fn declare_function(
    alloc: Global,
    names: &mut Names,
    gives: &RawGives,
    symbol: &RawSymbol,
) -> Result<(), Fault>
    ensures ok { OnOk result (with_function gives.now symbol.now (declarations names.old) ≡ parsed (declarations names.new)) }
    ensures err { IfErr result (λ fault. ¬ (fault ≡ Fault.Memory) → first (with_function gives.now symbol.now (declarations names.old)) ≡ Some fault) }
{
    let args = new_symbol(alloc, names, symbol)?;
    let signature = signature(alloc, args, gives)?;
    add_function(names, symbol.name.name.copy(alloc)?, signature)?;
    Ok(())
}

fn add_function(names: &mut Names, name: Name, signature: Signature) -> Result<(), Memory>
    ensures { OnOk result (function_of (declarations names.old) name ≡ None → declarations names.new ≡ and_function (declarations names.old) name signature) }
{
    names.functions.insert(name, signature)?;
    Ok(())
}

fn signature(alloc: Global, args: List<Name>, gives: &RawGives) -> Result<Signature, Memory>
    ensures { IfOk result (λ it. it ≡ signature gives.now args) }
{
    let gives = given(alloc, gives)?;
    Ok(Signature { args, gives })
}

fn given(alloc: Global, gives: &RawGives) -> Result<Gives, Memory>
    ensures { IfOk result (λ it. it ≡ given gives.now) }
{
    match gives {
        RawGives::Number => Ok(Gives::Number),
        RawGives::Object(of) => Ok(Gives::Object(of.name.copy(alloc)?)),
    }
}

fn check_gives(alloc: Global, names: &Names, gives: &RawGives) -> Result<(), Fault>
    ensures ok { IfOk result (λ _. gives_fault (declarations names.now) gives.now ≡ []) }
    ensures err { IfErr result (λ fault. ¬ (fault ≡ Fault.Memory) → gives_fault (declarations names.now) gives.now ≡ fault ∷ []) }
{
    match gives {
        RawGives::Number => Ok(()),
        RawGives::Object(of) => check_type(alloc, names, of),
    }
}
