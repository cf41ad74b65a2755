ghost use Rattle.std.specs.Prelude.{◌≡◌, Err, IfOk};
ghost use Rattle.pddl_lex.specs.Faults.{is_too_deep};
ghost use Rattle.pddl_lex.specs.Nesting.{seen, seen_result, empty_nest, opened, closed, with_leaf, with_token, with_found, ended};

use crate::{LexError, Sexp, Token, TokenKind};
use std::alloc::Global;
use up_text::{List, Memory, Place};

const DEEPEST: usize = 200;

/// A bracket that is open: its place, and the trees beside it that stand before it.
#[derive(Drop)]
pub struct OpenGroup {
    pub place: Place,
    pub before: List<Sexp>,
}

/// The open brackets, the innermost last, and the trees so far inside the innermost one.
#[derive(Drop)]
pub struct Nest {
    pub groups: List<OpenGroup>,
    pub members: List<Sexp>,
}

impl Nest {
    /// No bracket is open, and no tree stands there.
    pub fn new(alloc: Global) -> Nest
        ensures { seen result ≡ empty_nest }
    {
        Nest {
            groups: List::new(alloc),
            members: List::new(alloc),
        }
    }

    // A bracket opens.
    fn opened(self, alloc: Global, place: Place) -> Result<Nest, LexError>
        ensures { ¬ (result ≡ Err LexError.Memory) → seen_result result ≡ opened is_too_deep (seen self) place }
    {
        let Nest {
            mut groups,
            members,
        } = self;
        if groups.len() >= DEEPEST {
            return Err(LexError::TooDeep { place });
        }
        groups.push(OpenGroup {
            place,
            before: members,
        })?;
        Ok(Nest {
            groups,
            members: List::new(alloc),
        })
    }

    // The innermost bracket closes.
    fn closed(self, place: Place) -> Result<Nest, LexError>
        ensures { ¬ (result ≡ Err LexError.Memory) → seen_result result ≡ closed (seen self).groups self.members place }
    {
        let Nest {
            mut groups,
            members,
        } = self;
        match groups.pop() {
            None => Err(LexError::Unopened { place }),
            Some(
                OpenGroup {
                    place: opened_at,
                    before: mut around,
                },
            ) => {
                around.push(Sexp::Group(opened_at, members))?;
                Ok(Nest {
                    groups,
                    members: around,
                })
            }
        }
    }

    fn with_leaf(self, token: Token) -> Result<Nest, Memory>
        ensures { IfOk result (λ nest. seen nest ≡ with_leaf (seen self) token) }
    {
        let Nest {
            groups,
            mut members,
        } = self;
        members.push(Sexp::Leaf(token))?;
        Ok(Nest { groups, members })
    }

    /// One token more.
    pub fn with_token(self, alloc: Global, token: Token) -> Result<Nest, LexError>
        ensures { ¬ (result ≡ Err LexError.Memory) → seen_result result ≡ with_token is_too_deep (seen self) token }
    {
        match &token.kind {
            TokenKind::Open => {
                let place = token.place;
                drop(token);
                self.opened(alloc, place)
            }
            TokenKind::Close => {
                let place = token.place;
                drop(token);
                self.closed(place)
            }
            _ => Ok(self.with_leaf(token)?),
        }
    }

    /// The same, where there is a token.
    pub fn with_found(self, alloc: Global, token: Option<Token>) -> Result<Nest, LexError>
        ensures { ¬ (result ≡ Err LexError.Memory) → seen_result result ≡ with_found is_too_deep (seen self) token }
    {
        match token {
            None => Ok(self),
            Some(token) => self.with_token(alloc, token),
        }
    }

    /// The trees, where no bracket is open.
    pub fn ended(self) -> Result<List<Sexp>, LexError>
        ensures { result ≡ ended (seen self).groups self.members }
    {
        let Nest {
            mut groups,
            members,
        } = self;
        match groups.pop() {
            None => Ok(members),
            Some(group) => Err(LexError::Unclosed { place: group.place }),
        }
    }
}
