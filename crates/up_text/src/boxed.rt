ghost use Rattle.std.specs.Prelude.{◌≡◌, IfOk};

use crate::memory::Memory;
use sqlite_items::Boxed;
use std::alloc::Global;
use std::marker::Model;

/// A box that contracts see as its value.
#[derive(Debug, Drop)]
pub struct Box<T> {
    inner: Boxed<T>,
}

impl<T> Model for Box<T> {
    ghost Value = { T };

    ghost coded = { T.code };

    ghost view = { λ boxed. boxed.inner };
}

impl<T> Box<T> {
    /// The value.
    pub fn get(&self) -> &T
        ensures { result.now ≡ self.now }
    {
        self.inner.get()
    }

    /// The value, moved out of its box.
    pub fn into_inner(self) -> T
        ensures { result ≡ self }
    {
        let Box { inner } = self;
        inner.into_inner()
    }
}

impl<T: Drop> Box<T> {
    /// A value on the heap. `Memory`: an allocation failed; the value is dropped.
    pub fn new(alloc: Global, value: T) -> Result<Box<T>, Memory>
        ensures { IfOk result (λ b. b ≡ value) }
    {
        Ok(Box {
            inner: Boxed::new(alloc, value)?,
        })
    }
}

impl<T: PartialEq> PartialEq for Box<T> {
    ghost eq = { T.eq };

    ghost laws = { T.laws };

    fn eq(&self, other: &Self) -> bool {
        self.get() == other.get()
    }
}

impl<T: Eq> Eq for Box<T> {
    ghost laws = { T.Eq.laws };
}
