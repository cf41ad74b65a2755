ghost use Rattle.std.specs.Prelude.{◌≡◌, [], List};
ghost use Rattle.pddl_lex.specs.declared.tree.Token.{Token};
ghost use Rattle.pddl_lex.specs.declared.tree.Sexp.{Sexp};
ghost use Rattle.pddl_lex.specs.Brackets.{Trees};
ghost use Rattle.pddl_lex.specs.Faults.{byte_faults, faults, faults_to_depth};
ghost use Rattle.pddl_lex.specs.Items.{Item, items};
ghost use Rattle.pddl_lex.specs.Spells.{Stands, SpelledBy};

/// A law: in each text stand its items, and no others.
pub fn item_law(text: &[u8])
    ensures stands { Stands [] text.now (items text.now) }
    ensures one { (others : List Item) → Stands [] text.now others → items text.now ≡ others }
{
    let _ = text;
}

/// A law: tokens spell a text exactly where no byte and no number of it is at fault, and one list of tokens at most does.
pub fn token_law(text: &[u8])
    ensures spelled { (tokens : List Token) → SpelledBy text.now tokens → byte_faults text.now ≡ [] }
    ensures faultless { byte_faults text.now ≡ [] → (tokens : List Token) × SpelledBy text.now tokens }
    ensures one { (tokens others : List Token) → SpelledBy text.now tokens → SpelledBy text.now others → tokens ≡ others }
{
    let _ = text;
}

/// A law: a text has trees exactly where no byte, number or bracket of it is at fault, and one list of trees at most. Where
/// there is no fault to the greatest depth there is none.
pub fn bracket_law(text: &[u8])
    ensures trees { (trees : List Sexp) → Trees text.now trees → faults text.now ≡ [] }
    ensures faultless { faults text.now ≡ [] → (trees : List Sexp) × Trees text.now trees }
    ensures one { (trees others : List Sexp) → Trees text.now trees → Trees text.now others → trees ≡ others }
    ensures depth { faults_to_depth text.now ≡ [] → faults text.now ≡ [] }
{
    let _ = text;
}
