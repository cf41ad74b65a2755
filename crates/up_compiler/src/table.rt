ghost use Rattle.std.specs.Prelude.{◌≡◌, not, find, bytes_eq};
ghost use Rattle.std.specs.List.{list_all, list_any};
ghost use Rattle.up_kind.specs.Features.{has, is_in};
ghost use Rattle.up_compiler.specs.Table.{admits, row_result, has_any, only_if, compiler_name, compiler_of, removed, added};

use crate::id::CompilerId;
use up_kind::{Feature, Kind};

// None of these features is in the kind.
fn has_none(kind: Kind, features: &[Feature]) -> bool
    ensures { result ≡ list_all (λ f. not (has kind.0 f)) features.now }
{
    features.iter().all(|feature| !kind.has(*feature))
}

fn has_any(kind: Kind, features: &[Feature]) -> bool
    ensures { result ≡ has_any (has kind.0) features.now }
{
    features.iter().any(|feature| kind.has(*feature))
}

#[tactic(auto, using(crate::proofs::Lists::lists))]
fn set_of(features: &[Feature]) -> Kind
    ensures { has result.0 ≡ is_in features.now }
{
    let mut kind = Kind(0);
    for feature in features {
        kind = kind.with(feature.only());
    }
    kind
}

// These features where the test holds.
#[tactic(auto, using(crate::proofs::Lists::lists))]
fn only_if(test: bool, features: &[Feature]) -> Kind
    ensures { has result.0 ≡ only_if test features.now }
{
    if test { set_of(features) } else { Kind(0) }
}

// The table: the features that a compiler refuses and those that it refuses together, those that it takes away, and
// those that it adds, each group with the test of the kind before it.
macro_rules! compiler_table {
    ($row:ident, $id:expr, $k:ident) => {
        $row! {
            $id, $k;
            Objects, "objects":
                refuses [ObjectTermsUnderForall, TrajectoryConstraints]
                    or $k.has(Feature::PartialFluents) && $k.has(Feature::ConditionalEffects);
                takes [ObjectFluents, PartialFluents] if true;
                adds [ActionParameters, NegativeConditions, DisjunctiveConditions, Equalities, ExistentialConditions, EffectOverlap] if true,
                    [ForallEffects] if $k.has(Feature::PartialFluents),
                    [UniversalConditions] if $k.has(Feature::PartialFluents) && $k.has(Feature::DisjunctiveConditions) && $k.has(Feature::ExistentialConditions);
            Quantifiers, "quantifiers":
                refuses [TrajectoryConstraints] or false;
                takes [ExistentialConditions, UniversalConditions, ForallEffects, ObjectTermsUnderForall] if true;
                adds [DisjunctiveConditions] if $k.has(Feature::ExistentialConditions),
                    [EffectOverlap] if $k.has(Feature::ForallEffects);
            Conditionals, "conditionals":
                refuses [ForallEffects, TrajectoryConstraints] or false;
                takes [ConditionalEffects] if true;
                adds [NegativeConditions, DisjunctiveConditions] if true;
            Disjunctions, "disjunctions":
                refuses [ExistentialConditions, UniversalConditions, ConditionalEffects, TrajectoryConstraints] or false;
                takes [DisjunctiveConditions] if true;
                adds [NegativeConditions] if true;
            Overlaps, "overlaps":
                refuses [ConditionalEffects, ForallEffects, ObjectFluents, TrajectoryConstraints] or false;
                takes [EffectOverlap] if true;
                adds [NegativeConditions, Equalities] if true;
            Negations, "negations":
                refuses [ConditionalEffects, ForallEffects, ObjectFluents, EffectOverlap, TrajectoryConstraints] or false;
                takes [NegativeConditions] if true;
                adds [EffectOverlap] if true,
                    [ExistentialConditions, UniversalConditions]
                        if $k.has(Feature::DisjunctiveConditions) && ($k.has(Feature::ExistentialConditions) || $k.has(Feature::UniversalConditions));
            Grounder, "grounder":
                refuses [TrajectoryConstraints] or false;
                takes [ActionParameters] if true,
                    [Equalities] if !has_any($k, &[Feature::ObjectFluents, Feature::ExistentialConditions, Feature::UniversalConditions, Feature::ForallEffects]),
                    [EffectOverlap] if !has_any($k, &[Feature::ConditionalEffects, Feature::ObjectFluents, Feature::ExistentialConditions, Feature::UniversalConditions, Feature::ForallEffects]);
                adds [] if false;
            Types, "types":
                refuses [ObjectFluents, TrajectoryConstraints] or false;
                takes [FlatTyping, HierarchicalTyping] if true;
                adds [EffectOverlap] if true,
                    [NegativeConditions, DisjunctiveConditions] if $k.has(Feature::UniversalConditions),
                    [ConditionalEffects] if $k.has(Feature::ForallEffects);
            Trajectory, "trajectory":
                refuses [] or false;
                takes [TrajectoryConstraints] if true;
                adds [NegativeConditions, DisjunctiveConditions, ConditionalEffects, EffectOverlap] if true;
        }
    };
}

macro_rules! name_of {
    ($id:expr, $k:ident; $($c:ident, $name:literal: refuses [$($r:ident),*] or $both:expr; takes $([$($t:ident),*] if $when:expr),*; adds $([$($a:ident),*] if $where:expr),*;)*) => {
        match $id { $(CompilerId::$c => $name,)* }
    };
}

macro_rules! list_of {
    ($id:expr, $k:ident; $($c:ident, $name:literal: refuses [$($r:ident),*] or $both:expr; takes $([$($t:ident),*] if $when:expr),*; adds $([$($a:ident),*] if $where:expr),*;)*) => {
        [$(CompilerId::$c,)*]
    };
}

macro_rules! admits_of {
    ($id:expr, $k:ident; $($c:ident, $name:literal: refuses [$($r:ident),*] or $both:expr; takes $([$($t:ident),*] if $when:expr),*; adds $([$($a:ident),*] if $where:expr),*;)*) => {
        match $id { $(CompilerId::$c => has_none($k, &[$(Feature::$r),*]) && !($both),)* }
    };
}

macro_rules! taken_of {
    ($id:expr, $k:ident; $($c:ident, $name:literal: refuses [$($r:ident),*] or $both:expr; takes $([$($t:ident),*] if $when:expr),*; adds $([$($a:ident),*] if $where:expr),*;)*) => {
        match $id { $(CompilerId::$c => Kind(0)$(.with(only_if($when, &[$(Feature::$t),*])))*,)* }
    };
}

macro_rules! added_of {
    ($id:expr, $k:ident; $($c:ident, $name:literal: refuses [$($r:ident),*] or $both:expr; takes $([$($t:ident),*] if $when:expr),*; adds $([$($a:ident),*] if $where:expr),*;)*) => {
        match $id { $(CompilerId::$c => Kind(0)$(.with(only_if($where, &[$(Feature::$a),*])))*,)* }
    };
}

impl CompilerId {
    /// The name in the table.
    pub fn name(self) -> &'static str
        ensures { result.now ≡ compiler_name self }
    {
        let _kind = Kind(0);
        compiler_table!(name_of, self, _kind)
    }

    /// The compiler of this name.
    #[tactic(auto, unfolding(crate::specs::Table::compiler_of, crate::specs::Table::all_compilers))]
    pub fn read(text: &[u8]) -> Option<CompilerId>
        ensures { result ≡ compiler_of text.now }
    {
        let _kind = Kind(0);
        find_named(&compiler_table!(list_of, (), _kind), text)
    }
}

fn find_named(ids: &[CompilerId], text: &[u8]) -> Option<CompilerId>
    ensures { result ≡ find (λ id. bytes_eq (compiler_name id) text.now) ids.now }
{
    ids.iter().copied().find(|id| id.name().as_bytes() == text)
}

/// Whether a compiler accepts a kind.
pub fn admits(id: CompilerId, kind: Kind) -> bool
    ensures { result ≡ admits id (has kind.0) }
{
    compiler_table!(admits_of, id, kind)
}

#[tactic(auto, using(crate::proofs::Lists::lists))]
fn taken(id: CompilerId, kind: Kind) -> Kind
    ensures { has result.0 ≡ removed id (has kind.0) }
{
    compiler_table!(taken_of, id, kind)
}

#[tactic(auto, using(crate::proofs::Lists::lists))]
fn added(id: CompilerId, kind: Kind) -> Kind
    ensures { has result.0 ≡ added id (has kind.0) }
{
    compiler_table!(added_of, id, kind)
}

/// The kind after a compiler.
pub fn row_result(id: CompilerId, kind: Kind) -> Kind
    ensures { has result.0 ≡ row_result id (has kind.0) }
{
    kind.without(taken(id, kind)).with(added(id, kind))
}
