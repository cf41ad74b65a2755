ghost use Rattle.std.specs.Prelude.{◌≡◌, IfOk, IsTrue, Some, None, if◌then◌else◌};
ghost use Rattle.up_text.specs.Names.{is_spelled};
ghost use Rattle.up_text.specs.Fresh.{candidate, is_free, fresh_name, AreTaken, IsFresh};

use crate::memory::Memory;
use crate::name::Name;
use crate::name_set::NameSet;
use crate::words::is_reserved;
use itoa::Buffer;
use smallvec::SmallVec;
use std::alloc::Global;

// The candidate of this number.
fn candidate(alloc: Global, base: &[u8], number: u64) -> Result<SmallVec<u8, 24>, Memory>
    ensures { IfOk result (λ bytes. bytes.items ≡ candidate base.now number) }
{
    let mut bytes = SmallVec::from_slice(alloc, base)?;
    if number > 0 {
        let mut buffer = Buffer::new();
        bytes.push(b'-')?;
        bytes.extend_from_slice(buffer.format(number).as_bytes())?;
    }
    Ok(bytes)
}

// The candidate of this number, where it is free.
fn free_candidate(
    alloc: Global,
    base: &[u8],
    number: u64,
    used: &NameSet,
) -> Result<Option<Name>, Memory>
    requires { IsTrue (is_spelled base.now) }
    ensures { IfOk result (λ name. name ≡ (if is_free used.now (candidate base.now number) then Some (candidate base.now number) else None)) }
{
    let bytes = candidate(alloc, base, number)?;
    if is_reserved(bytes.as_slice()) {
        return Ok(None);
    }
    let name = Name::of_name(bytes);
    if used.has(&name) {
        Ok(None)
    } else {
        Ok(Some(name))
    }
}

/// A fresh name, and which candidate over its base it is: `base` itself is number 0, `base-1` number 1, and so on.
#[derive(Drop)]
pub struct FoundName {
    pub number: u64,
    pub name: Name,
}

/// The first of `base`, `base-1`, `base-2`, .. that is neither used nor reserved, where all of them before the candidate of
/// number `start` are known to be used or reserved: the search begins there.
///
/// The base is spelled as a name in lower case, and may be a reserved word.
pub fn fresh_from(
    alloc: Global,
    base: &[u8],
    start: u64,
    used: &NameSet,
) -> Result<FoundName, Memory>
    requires spelled { IsTrue (is_spelled base.now) }
    requires taken { AreTaken base.now used.now start }
    ensures taken { IfOk result (λ found. AreTaken base.now used.now found.number) }
    ensures fresh { IfOk result (λ found. IsFresh base.now used.now found.name) }
    ensures value { IfOk result (λ found. found.name ≡ fresh_name base.now used.now) }
{
    let _most = used.len();
    let mut number = start;
    'trying: loop {
        match free_candidate(alloc, base, number, used)? {
            Some(name) => return Ok(FoundName { number, name }),
            None => number += 1,
        }
    }
}

/// The first of `base`, `base-1`, `base-2`, .. that is neither used nor reserved.
///
/// The base is spelled as a name in lower case, and may be a reserved word.
pub fn fresh(alloc: Global, base: &[u8], used: &NameSet) -> Result<Name, Memory>
    requires { IsTrue (is_spelled base.now) }
    ensures fresh { IfOk result (IsFresh base.now used.now) }
    ensures value { IfOk result (λ name. name ≡ fresh_name base.now used.now) }
{
    let found = fresh_from(alloc, base, 0, used)?;
    Ok(found.name)
}
