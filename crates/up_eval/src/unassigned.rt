//! Objects and numbers of terms where no variable has an object. They are looked up by the terms themselves, in place of keys that would take memory.
ghost use Rattle.std.specs.Prelude.{◌≡◌, ◌↔◌, IsTrue, Some};
ghost use Rattle.std.specs.Option.{option_copied};
ghost use Rattle.up_tree.specs.Objects.{unassigned};
ghost use Rattle.up_tree.specs.Value.{term_value, ground_at};
ghost use Rattle.up_eval.specs.Numbers.{fluent_value};

use crate::ground::Ground;
use crate::state::State;
use up_frac::Frac;
use up_text::Name;
use up_tree::Term;

impl State {
    // The object that the term stands for, if it is defined.
    #[cycle(unassigned_object)]
    #[tactic(auto, using(up_tree::proofs::Values::values))]
    fn unassigned_object<'a>(&'a self, term: &'a Term) -> Option<&'a Name>
        ensures { option_copied result ≡ term_value self.now unassigned term.now }
    {
        match term {
            Term::Var(_) => None,
            Term::Object(name) => Some(name),
            Term::Fluent(name, args) => {
                for (key, object) in self.values() {
                    if self.is_key_of(name, args.as_slice(), key) {
                        return Some(object);
                    }
                }
                None
            }
        }
    }

    // Whether the key is the name before the objects of its arguments.
    #[cycle(unassigned_object)]
    fn is_key_of(&self, name: &Name, args: &[Term], key: &Ground) -> bool
        ensures { IsTrue result ↔ (ground_at self.now unassigned name.now args.now ≡ Some key.now) }
    {
        let Some((first, objects)) = key.names().split_first() else {
            return false;
        };
        if first != name {
            return false;
        }
        let mut left = objects;
        for arg in args {
            let Some((object, behind)) = left.split_first() else {
                return false;
            };
            let Some(value) = self.unassigned_object(arg) else {
                return false;
            };
            if value != object {
                return false;
            }
            left = behind;
        }
        left.is_empty()
    }

    /// The number of a numeric term where no variable has an object. It takes no memory.
    pub(crate) fn unassigned_fluent(&self, name: &Name, args: &[Term]) -> Option<Frac>
        ensures { result ≡ fluent_value self.now unassigned name.now args.now }
    {
        for (key, number) in self.numbers() {
            if self.is_key_of(name, args, key) {
                return Some(*number);
            }
        }
        None
    }
}
