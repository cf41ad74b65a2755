ghost use Rattle.std.specs.Prelude.{◌≡◌, ◌↔◌, IsTrue, IfOk, IsErrOf, nat_eq, refl, Some};
ghost use Rattle.std.proofs.Common.{rules};
ghost use Rattle.std.specs.Cmp.{partial_equiv_from_equiv};
ghost use Rattle.std.specs.Cmp.Lexicographic.{pointwise, slice_cmp, nat_list_eq_equiv, nat_list_cmp_total, texts_po, texts_ties};
ghost use Rattle.std.specs.Cmp.Rules.{hashing};
ghost use Rattle.std.specs.Hash as fed;
ghost use Rattle.std.specs.Ordering.{nat_cmp};
ghost use Rattle.up_text.specs.Names.{folded, name_of, is_spelled, is_reserved, IsName};

use crate::memory::Memory;
use crate::name_error::NameError;
use crate::words::{fold_case, is_reserved, is_reserved_folded, is_spelled, is_spelled_folded};
use smallvec::SmallVec;
use std::alloc::Global;
use std::cmp::Ordering;
use std::hash::{Hash, Hasher};
use std::marker::Model;

/// A name in lower case, which contracts see as its bytes: a letter, then letters, digits, `-` and `_`, and no reserved word.
///
/// Names of up to 24 bytes lie in the value itself.
#[derive(Debug, Drop)]
pub struct Name {
    bytes: SmallVec<u8, 24>,
}

impl Model for Name {
    ghost use Rattle.std.specs.Prelude.{List, ℕ};
    ghost use Rattle.up_text.specs.Names.{IsName};

    ghost Value = { List ℕ };

    ghost view = { λ n. n.bytes.items };

    ghost invariant = { λ n. IsName n.bytes.items };
}

impl Name {
    /// The name that the bytes fold to.
    ///
    /// `NotAName` comes where the bytes are not a letter followed by letters, digits, `-` and `_`, and `Reserved` where they are a
    /// reserved word in any case of its letters.
    pub fn read(alloc: Global, bytes: &[u8]) -> Result<Name, NameError>
        ensures ok { IfOk result (λ name. name ≡ folded bytes.now) }
        ensures not_a_name { IsErrOf result NameError.NotAName ↔ (¬ IsTrue (is_spelled (folded bytes.now))) }
        ensures reserved { IsErrOf result NameError.Reserved ↔ IsTrue (is_reserved (folded bytes.now)) }
    {
        if !is_spelled_folded(bytes) {
            return Err(NameError::NotAName);
        }
        if is_reserved_folded(bytes) {
            return Err(NameError::Reserved);
        }
        let bytes = fold_case(alloc, bytes)?;
        Ok(Name { bytes })
    }

    /// Bytes as a name, where they are one in lower case.
    pub fn of_bytes(alloc: Global, bytes: &[u8]) -> Result<Option<Name>, Memory>
        ensures { IfOk result (λ n. n ≡ name_of bytes.now) }
    {
        if is_spelled(bytes) && !is_reserved(bytes) {
            let bytes = SmallVec::from_slice(alloc, bytes)?;
            Ok(Some(Name { bytes }))
        } else {
            Ok(None)
        }
    }

    // Bytes that are a name, as one.
    pub(crate) fn of_name(bytes: SmallVec<u8, 24>) -> Name
        requires { IsName bytes.items }
        ensures { result ≡ bytes.items }
    {
        Name { bytes }
    }

    /// The bytes of the name.
    pub fn bytes(&self) -> &[u8]
        ensures bytes { result.now ≡ self.now }
        ensures name { IsName self.now }
    {
        self.bytes.as_slice()
    }

    /// An equal name. It allocates only where the name is longer than 24 bytes.
    pub fn copy(&self, alloc: Global) -> Result<Name, Memory>
        ensures { IfOk result (λ n. n ≡ self.now) }
    {
        let bytes = SmallVec::from_slice(alloc, self.bytes.as_slice())?;
        Ok(Name { bytes })
    }
}

impl PartialEq for Name {
    ghost eq = { pointwise nat_eq };

    ghost laws = { partial_equiv_from_equiv nat_list_eq_equiv };

    fn eq(&self, other: &Self) -> bool {
        self.bytes() == other.bytes()
    }
}

impl Eq for Name {
    ghost laws = { nat_list_eq_equiv };
}

impl PartialOrd for Name {
    ghost partial_cmp = { λ a b. Some (slice_cmp nat_cmp a b) };

    ghost laws = { texts_po };

    fn partial_cmp(&self, other: &Self) -> Option<Ordering> {
        Some(self.cmp(other))
    }
}

impl Ord for Name {
    ghost cmp = { slice_cmp nat_cmp };

    ghost total = { nat_list_cmp_total };

    ghost matches_partial_cmp = { λ a b. refl };

    ghost matches_eq = { texts_ties };

    fn cmp(&self, other: &Self) -> Ordering {
        self.bytes().cmp(other.bytes())
    }
}

impl Hash for Name {
    ghost hash_input = { λ name. fed.slice fed.u8 name };

    ghost respects_eq = { Prim.search (hashing, rules) };

    fn hash<H: Hasher>(&self, state: &mut H) {
        self.bytes().hash(state);
    }
}
