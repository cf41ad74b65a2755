ghost use Rattle.std.specs.Prelude.{◌≡◌, ◌++◌, IfOk, true, false, option_copied};
ghost use Rattle.up_tree.specs.declared.action.Effect.TheVariants as Effect;
ghost use Rattle.std.specs.List.{list_any};
ghost use Rattle.up_tree.specs.Objects.{world};
ghost use Rattle.up_kind.specs.Meeting.{is_under, some_of_both, types_share, share, same_plain, says_equal, is_guarded, may_agree, meet, has_meeting_rows};
ghost use Rattle.up_kind.specs.Rows.{HasAdds, rows_of, meets_one, may_be_one};
ghost use Rattle.up_kind.specs.Keys.{same_ground};
ghost use Rattle.indexmap.specs.IndexMap.{get};

use crate::ground::Ground;
use crate::rows::{Adds, deletes_some, first_object, key_of};
use crate::tables::Tables;
use crate::types::{is_below, term_type};
use indexmap::IndexMap;
use std::alloc::Global;
use up_text::{List, Memory, Name};
use up_tree::{Action, Effect, Formula, Row, Term, Typed};

// One variable or one object.
fn same_plain(s: &Term, t: &Term) -> bool
    ensures { result ≡ same_plain s.now t.now }
{
    match (s, t) {
        (Term::Var(v), Term::Var(w)) => v == w,
        (Term::Object(o), Term::Object(q)) => o == q,
        _ => false,
    }
}

fn are_equal(f: &Formula, s: &Term, t: &Term) -> bool
    ensures { result ≡ says_equal s.now t.now f.now }
{
    match f {
        Formula::Equal(a, b) => {
            same_plain(s, a) && same_plain(t, b) || same_plain(t, a) && same_plain(s, b)
        }
        _ => false,
    }
}

// Whether a top conjunct says that two terms differ.
#[cycle(guards)]
#[tactic(auto, using(crate::proofs::Guards::guards))]
fn is_guarded(pre: &Formula, s: &Term, t: &Term) -> bool
    ensures { result ≡ is_guarded pre.now s.now t.now }
{
    match pre {
        Formula::And(members) => any_guards(members.as_slice(), s, t),
        Formula::Not(f) => are_equal(f.get(), s, t),
        Formula::Or(_) => false,
        Formula::Imply(..) => false,
        Formula::Exists(..) => false,
        Formula::Forall(..) => false,
        Formula::Atom(..) => false,
        Formula::Equal(..) => false,
        Formula::Compare(..) => false,
    }
}

#[cycle(guards)]
fn any_guards(members: &[Formula], s: &Term, t: &Term) -> bool
    ensures { result ≡ list_any (λ f. is_guarded f s.now t.now) members.now }
{
    for member in members {
        if is_guarded(member, s, t) {
            return true;
        }
    }
    false
}

// Whether one type is the other or below it, where there are two.
fn is_under<'a>(tables: &Tables<'a>, of: Option<&'a Name>, above: Option<&'a Name>) -> bool
    ensures { result ≡ is_under tables.now (option_copied of.entry) (option_copied above.entry) }
{
    match (of, above) {
        (Some(of), Some(above)) => is_below(tables, of, above),
        _ => false,
    }
}

// Of two types that share an object one stands below the other, and has an object.
#[tactic(auto, using(crate::proofs::Below::belows))]
fn some_of_both(tables: &Tables, of: &Name, other: &Name) -> bool
    ensures { result ≡ some_of_both tables.now of.now other.now }
{
    if is_below(tables, of, other) {
        return tables.has_object(of);
    }
    if is_below(tables, other, of) {
        return tables.has_object(other);
    }
    false
}

fn types_share<'a>(tables: &Tables<'a>, of: Option<&'a Name>, other: Option<&'a Name>) -> bool
    ensures { result ≡ types_share tables.now (option_copied of.entry) (option_copied other.entry) }
{
    match (of, other) {
        (Some(of), Some(other)) => some_of_both(tables, of, other),
        _ => false,
    }
}

// Whether the ranges of two terms share an object.
fn share<'a>(
    tables: &Tables<'a>,
    params: &'a [Typed],
    vars: &'a [Typed],
    s: &Term,
    others: &'a [Typed],
    t: &Term,
) -> bool
    ensures { result ≡ share tables.now (vars.now ++ params.now) s.now (others.now ++ params.now) t.now }
{
    match (s, t) {
        (Term::Object(o), Term::Object(q)) => o == q,
        (Term::Object(o), _) => is_under(
            tables,
            tables.type_of(o),
            term_type(tables, others, params, t),
        ),
        (_, Term::Object(q)) => is_under(
            tables,
            tables.type_of(q),
            term_type(tables, vars, params, s),
        ),
        _ => types_share(
            tables,
            term_type(tables, vars, params, s),
            term_type(tables, others, params, t),
        ),
    }
}

// Whether two terms may be one object, and no conjunct of the precondition says that they differ.
fn may_be_one(tables: &Tables, action: &Action, delete: &Row, add: &Row, s: &Term, t: &Term) -> bool
    ensures { result ≡ may_be_one tables.now action.now delete.now add.now s.now t.now }
{
    if !share(
        tables,
        action.params.as_slice(),
        delete.vars.as_slice(),
        s,
        add.vars.as_slice(),
        t,
    ) {
        return false;
    }
    !is_guarded(&action.pre, s, t)
}

fn may_agree(
    tables: &Tables,
    action: &Action,
    delete: &Row,
    add: &Row,
    ss: &[Term],
    ts: &[Term],
) -> bool
    ensures { result ≡ may_agree tables.now action.now delete.now add.now ss.now ts.now }
{
    let mut rest = ts;
    for s in ss {
        let Some((t, behind)) = rest.split_first() else {
            return true;
        };
        if !may_be_one(tables, action, delete, add, s, t) {
            return false;
        }
        rest = behind;
    }
    true
}

// Whether a delete row and an add row meet.
#[tactic(auto, unfolding(crate::specs::Meeting::meet))]
fn meet(tables: &Tables, action: &Action, delete: &Row, add: &Row) -> bool
    ensures { result ≡ meet tables.now action.now delete.now add.now }
{
    match (&delete.effect, &add.effect) {
        (Effect::Delete(name, ss), Effect::Add(other, ts)) => {
            name == other && may_agree(tables, action, delete, add, ss.as_slice(), ts.as_slice())
        }
        _ => false,
    }
}

fn meets_one(tables: &Tables, action: &Action, delete: &Row, adds: &[&Row]) -> bool
    ensures { result ≡ list_any (λ add. meet tables.now action.now delete.now add.now) adds.now }
{
    adds.iter().any(|add| meet(tables, action, delete, add))
}

// Whether one of the rows under a key meets the delete row.
fn meets_under(
    tables: &Tables,
    action: &Action,
    delete: &Row,
    table: &IndexMap<Ground, List<&Row>>,
    key: &Ground,
) -> bool
    ensures { result ≡ meets_one tables.now action.now delete.now (rows_of (get same_ground table.now key.now)) }
{
    match table.get(key) {
        None => false,
        Some(adds) => meets_one(tables, action, delete, adds.as_slice()),
    }
}

// Whether a row that deletes atoms of the predicate meets some add row.
#[tactic(auto, using(crate::proofs::Filed::meets))]
fn meets_by(
    alloc: Global,
    tables: &Tables,
    action: &Action,
    delete: &Row,
    name: &Name,
    args: &[Term],
    adds: &Adds,
) -> Result<bool, Memory>
    requires of { delete.now.effect ≡ Effect.Delete name.now args.now }
    requires predicate { HasAdds false adds.now.by_predicate action.now.rows }
    requires object { HasAdds true adds.now.by_object action.now.rows }
    ensures { IfOk result (λ meets. meets ≡ meets_one tables.now action.now delete.now action.now.rows) }
{
    let bare = Ground::bare(alloc, name)?;
    let Some(_object) = first_object(args) else {
        return Ok(meets_under(tables, action, delete, &adds.by_predicate, &bare));
    };
    let key = key_of(alloc, true, name, args)?;
    if meets_under(tables, action, delete, &adds.by_object, &key) {
        return Ok(true);
    }
    Ok(meets_under(tables, action, delete, &adds.by_object, &bare))
}

// Whether a row meets some add row.
#[tactic(auto, using(crate::proofs::Filed::idle))]
fn meets_some(
    alloc: Global,
    tables: &Tables,
    action: &Action,
    delete: &Row,
    adds: &Adds,
) -> Result<bool, Memory>
    requires predicate { HasAdds false adds.now.by_predicate action.now.rows }
    requires object { HasAdds true adds.now.by_object action.now.rows }
    ensures { IfOk result (λ meets. meets ≡ meets_one tables.now action.now delete.now action.now.rows) }
{
    match &delete.effect {
        Effect::Delete(name, args) => {
            meets_by(alloc, tables, action, delete, name, args.as_slice(), adds)
        }
        Effect::Add(..) => Ok(false),
        Effect::Number(..) => Ok(false),
        Effect::Object(..) => Ok(false),
        Effect::Undefine(..) => Ok(false),
    }
}

fn meets_any(alloc: Global, tables: &Tables, action: &Action, adds: &Adds) -> Result<bool, Memory>
    requires predicate { HasAdds false adds.now.by_predicate action.now.rows }
    requires object { HasAdds true adds.now.by_object action.now.rows }
    ensures { IfOk result (λ meets. meets ≡ has_meeting_rows tables.now action.now) }
{
    for delete in action.rows.as_slice() {
        if meets_some(alloc, tables, action, delete, adds)? {
            return Ok(true);
        }
    }
    Ok(false)
}

// Whether the action has a delete row and an add row that meet. Rows are compared only where their predicates are one, and
// where two objects stand first only where these are one.
#[tactic(auto, using(crate::proofs::Filed::filed))]
pub(crate) fn has_meeting_rows(
    alloc: Global,
    tables: &Tables,
    action: &Action,
) -> Result<bool, Memory>
    ensures { IfOk result (λ meets. meets ≡ has_meeting_rows tables.now action.now) }
{
    let rows = action.rows.as_slice();
    if !deletes_some(rows) {
        return Ok(false);
    }
    let adds = Adds::new(alloc, rows)?;
    meets_any(alloc, tables, action, &adds)
}
