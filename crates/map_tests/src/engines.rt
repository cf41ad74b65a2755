use std::alloc::Global;
use std::process::Abort;
use up_compiler::CompilerId;
use up_kind::{Feature, Kind};
use up_pipeline::{ChooseError, Engine, EngineError, choose, choose_among};
use up_text::List;

// A kind, the features that an engine lists, and the chain, or a dash where none fits.
const CHAINS: [(&str, &str, &str); 21] = [
    ("ACTION_PARAMETERS EFFECT_OVERLAP", "ACTION_PARAMETERS", ""),
    (
        "FLAT_TYPING UNIVERSAL_CONDITIONS",
        "FLAT_TYPING",
        "quantifiers",
    ),
    (
        "FLAT_TYPING CONDITIONAL_EFFECTS",
        "FLAT_TYPING NEGATIVE_CONDITIONS DISJUNCTIVE_CONDITIONS",
        "conditionals",
    ),
    (
        "FLAT_TYPING CONDITIONAL_EFFECTS NUMERIC_FLUENTS NUMERIC_CONDITIONS",
        "FLAT_TYPING NEGATIVE_CONDITIONS DISJUNCTIVE_CONDITIONS NUMERIC_FLUENTS NUMERIC_CONDITIONS",
        "conditionals",
    ),
    (
        "FLAT_TYPING DISJUNCTIVE_CONDITIONS",
        "FLAT_TYPING NEGATIVE_CONDITIONS",
        "disjunctions",
    ),
    (
        "FLAT_TYPING EXISTENTIAL_CONDITIONS",
        "FLAT_TYPING NEGATIVE_CONDITIONS",
        "quantifiers disjunctions",
    ),
    (
        "FLAT_TYPING NEGATIVE_CONDITIONS DISJUNCTIVE_CONDITIONS NUMERIC_FLUENTS NUMERIC_CONDITIONS",
        "FLAT_TYPING NEGATIVE_CONDITIONS NUMERIC_FLUENTS NUMERIC_CONDITIONS",
        "disjunctions",
    ),
    (
        "ACTION_PARAMETERS NEGATIVE_CONDITIONS EFFECT_OVERLAP",
        "ACTION_PARAMETERS EQUALITIES",
        "overlaps negations",
    ),
    (
        "FLAT_TYPING DISJUNCTIVE_CONDITIONS",
        "FLAT_TYPING",
        "disjunctions negations",
    ),
    ("ACTION_PARAMETERS EFFECT_OVERLAP", "", "grounder"),
    (
        "ACTION_PARAMETERS NUMERIC_FLUENTS NUMERIC_EFFECTS METRIC EFFECT_OVERLAP",
        "NUMERIC_FLUENTS NUMERIC_EFFECTS METRIC",
        "grounder",
    ),
    (
        "FLAT_TYPING EQUALITIES FORALL_EFFECTS OBJECT_FLUENTS OBJECT_TERMS_UNDER_FORALL",
        "FLAT_TYPING ACTION_PARAMETERS NEGATIVE_CONDITIONS DISJUNCTIVE_CONDITIONS EQUALITIES",
        "quantifiers objects quantifiers",
    ),
    (
        "FLAT_TYPING ACTION_PARAMETERS EQUALITIES OBJECT_FLUENTS",
        "FLAT_TYPING ACTION_PARAMETERS NEGATIVE_CONDITIONS DISJUNCTIVE_CONDITIONS EQUALITIES EXISTENTIAL_CONDITIONS",
        "objects",
    ),
    (
        "FLAT_TYPING ACTION_PARAMETERS EQUALITIES OBJECT_FLUENTS PARTIAL_FLUENTS",
        "FLAT_TYPING ACTION_PARAMETERS NEGATIVE_CONDITIONS DISJUNCTIVE_CONDITIONS EQUALITIES EXISTENTIAL_CONDITIONS FORALL_EFFECTS",
        "objects",
    ),
    (
        "FLAT_TYPING ACTION_PARAMETERS EQUALITIES OBJECT_FLUENTS PARTIAL_FLUENTS",
        "FLAT_TYPING ACTION_PARAMETERS NEGATIVE_CONDITIONS DISJUNCTIVE_CONDITIONS EQUALITIES EXISTENTIAL_CONDITIONS",
        "objects quantifiers",
    ),
    (
        "FLAT_TYPING ACTION_PARAMETERS EQUALITIES CONDITIONAL_EFFECTS OBJECT_FLUENTS PARTIAL_FLUENTS",
        "FLAT_TYPING ACTION_PARAMETERS NEGATIVE_CONDITIONS DISJUNCTIVE_CONDITIONS EQUALITIES EXISTENTIAL_CONDITIONS FORALL_EFFECTS",
        "conditionals objects",
    ),
    ("FLAT_TYPING", "", "types"),
    (
        "FLAT_TYPING ACTION_PARAMETERS",
        "ACTION_PARAMETERS",
        "types",
    ),
    (
        "FLAT_TYPING TRAJECTORY_CONSTRAINTS",
        "FLAT_TYPING NEGATIVE_CONDITIONS DISJUNCTIVE_CONDITIONS CONDITIONAL_EFFECTS",
        "trajectory",
    ),
    (
        "FLAT_TYPING NUMERIC_FLUENTS NUMERIC_CONDITIONS",
        "FLAT_TYPING NUMERIC_FLUENTS",
        "-",
    ),
    (
        "FLAT_TYPING FORALL_EFFECTS OBJECT_FLUENTS OBJECT_TERMS_UNDER_FORALL",
        "FLAT_TYPING ACTION_PARAMETERS NEGATIVE_CONDITIONS DISJUNCTIVE_CONDITIONS EQUALITIES",
        "quantifiers objects quantifiers",
    ),
];

// The kind of these features.
fn kind(rt: &impl Abort, text: &str) -> Kind {
    let mut kind = Kind(0);
    for word in text.split_whitespace() {
        kind = kind.with(Feature::read(word).expect(rt, "a feature").only());
    }
    kind
}

fn engine(rt: &impl Abort, alloc: Global, features: &str) -> Engine {
    Engine {
        name: List::new(alloc),
        features: kind(rt, features),
    }
}

// Whether the stages are of these compilers.
fn are_named(stages: &[CompilerId], text: &str) -> bool {
    let mut names = text.split_whitespace();
    for stage in stages {
        if names.next() != Some(stage.name()) {
            return false;
        }
    }
    names.next().is_none()
}

#[test]
fn all_compilers_are_chosen_among(rt: HostRuntime) {
    let alloc = rt.alloc();
    for (text, features, want) in CHAINS {
        let ids = [
            CompilerId::Objects,
            CompilerId::Quantifiers,
            CompilerId::Conditionals,
            CompilerId::Disjunctions,
            CompilerId::Overlaps,
            CompilerId::Negations,
            CompilerId::Grounder,
            CompilerId::Types,
            CompilerId::Trajectory,
        ];
        let engine = engine(&rt, alloc, features);
        match choose_among(alloc, &ids, kind(&rt, text), &engine) {
            Ok(chain) => assert!(rt; are_named(chain.stages.as_slice(), want), "{text}"),
            Err(fault) => {
                assert_eq!(rt; fault, ChooseError::NoPipeline);
                assert_eq!(rt; want, "-", "{text}");
            }
        }
    }
}

#[test]
fn some_compilers_are_chosen_among(rt: HostRuntime) {
    let alloc = rt.alloc();
    let k = kind(
        &rt,
        "FLAT_TYPING FORALL_EFFECTS OBJECT_FLUENTS OBJECT_TERMS_UNDER_FORALL",
    );
    let engine = engine(
        &rt,
        alloc,
        "FLAT_TYPING ACTION_PARAMETERS NEGATIVE_CONDITIONS DISJUNCTIVE_CONDITIONS EQUALITIES",
    );
    let seven = [
        CompilerId::Objects,
        CompilerId::Quantifiers,
        CompilerId::Conditionals,
        CompilerId::Disjunctions,
        CompilerId::Overlaps,
        CompilerId::Negations,
        CompilerId::Grounder,
    ];
    let chain = choose_among(alloc, &seven, k, &engine).expect(&rt, "a chain");
    assert!(rt; are_named(chain.stages.as_slice(), "quantifiers objects quantifiers"));
    assert!(rt;
        matches!(
            choose_among(alloc, &[], k, &engine),
            Err(ChooseError::NoPipeline)
        )
    );
    let chain = choose(alloc, kind(&rt, "FLAT_TYPING PARTIAL_FLUENTS"), &engine);
    assert!(rt; are_named(chain.expect(&rt, "a chain").stages.as_slice(), ""));
}

// An engine text, the reason of its refusal and the word of that, where it has one.
const REFUSED: [(&str, &str, &str); 20] = [
    ("name =", "toml", ""),
    ("name = \"e\"\nname = \"e\"\nfeatures = []", "toml", ""),
    (
        "name = 3\nzebra = 1\nfeatures = [\"FLYING\"]\nant = 2",
        "unknown-key",
        "ant",
    ),
    ("Name = \"e\"\nfeatures = []", "unknown-key", "Name"),
    ("[name]\n[engine]", "unknown-key", "engine"),
    ("", "no-key", "features"),
    ("name = 3", "no-key", "features"),
    ("features = [\"FLYING\"]", "no-key", "name"),
    ("features = 3", "no-key", "name"),
    ("name = 3\nfeatures = 4", "wrong-type", "features"),
    ("name = 3\nfeatures = [1]", "wrong-type", "features"),
    (
        "name = \"e\"\nfeatures = [\"FLYING\", 1]",
        "wrong-type",
        "features",
    ),
    (
        "name = \"e\"\nfeatures = \"METRIC\"",
        "wrong-type",
        "features",
    ),
    ("name = 3\nfeatures = []", "wrong-type", "name"),
    ("name = 3\nfeatures = [\"FLYING\"]", "wrong-type", "name"),
    ("name = [\"e\"]\nfeatures = []", "wrong-type", "name"),
    (
        "name = \"e\"\nfeatures = [\"FLYING\"]",
        "unknown-feature",
        "FLYING",
    ),
    (
        "name = \"e\"\nfeatures = [\"METRIC\", \"metric\", \"FLYING\"]",
        "unknown-feature",
        "metric",
    ),
    (
        "name = \"e\"\nfeatures = [\"EFFECT_OVERLAP\"]",
        "unknown-feature",
        "EFFECT_OVERLAP",
    ),
    ("name = \"e\"\nfeatures = [\"\"]", "unknown-feature", ""),
];

fn is_word(word: &List<u8>, want: &str) -> bool {
    word.as_slice() == want.as_bytes()
}

// Whether the refusal has this reason and this word.
fn is_refusal(fault: &EngineError, reason: &str, want: &str) -> bool {
    match fault {
        EngineError::Memory => false,
        EngineError::Toml => reason == "toml",
        EngineError::UnknownKey { word } => reason == "unknown-key" && is_word(word, want),
        EngineError::NoKey { word } => reason == "no-key" && is_word(word, want),
        EngineError::WrongType { word } => reason == "wrong-type" && is_word(word, want),
        EngineError::UnknownFeature { word } => reason == "unknown-feature" && is_word(word, want),
    }
}

#[test]
fn engine_texts_are_refused(rt: HostRuntime) {
    for (text, reason, word) in REFUSED {
        match Engine::read(rt.alloc(), text.as_bytes()) {
            Ok(_) => assert!(rt; false, "{text}"),
            Err(fault) => assert!(rt; is_refusal(&fault, reason, word), "{text}"),
        }
    }
    let engine = Engine::read(rt.alloc(), b"name = \"\xff\"\nfeatures = []");
    assert!(rt; matches!(engine, Err(EngineError::Toml)));
}

#[test]
fn engine_texts_are_read(rt: HostRuntime) {
    let text =
        "# an engine\nfeatures = [\"METRIC\", 'FLAT_TYPING', \"METRIC\",]\nname = \"e \\u00e9\"\n";
    let engine = Engine::read(rt.alloc(), text.as_bytes()).expect(&rt, "an engine");
    assert_eq!(rt; engine.name.as_slice(), "e é".as_bytes());
    assert_eq!(rt; engine.features, kind(&rt, "FLAT_TYPING METRIC"));
    for (features, want) in [
        ("", true),
        ("METRIC", true),
        (
            "FLAT_TYPING METRIC EFFECT_OVERLAP OBJECT_TERMS_UNDER_FORALL PARTIAL_FLUENTS",
            true,
        ),
        ("FLAT_TYPING HIERARCHICAL_TYPING", false),
        ("TRAJECTORY_CONSTRAINTS", false),
    ] {
        assert_eq!(rt; engine.accepts(kind(&rt, features)), want, "{features}");
    }
}
