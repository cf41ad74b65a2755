use up_text::Memory;

/// Why a line can't be read on.
#[derive(Clone, Copy, Debug, PartialEq, Eq)]
pub enum LineFault {
    /// An allocation failed.
    Memory,
    /// So many bytes of the line are left where it can't go on.
    Stuck { left: usize },
}

impl From<Memory> for LineFault {
    ghost use Rattle.std.specs.Prelude.{◌≡◌};
    ghost use Rattle.plan_text.specs.declared.line_fault.LineFault.TheVariants.{Memory as OutOfMemory};

    ghost from_gives = { λ _ e. e ≡ OutOfMemory };

    fn from(_: Memory) -> LineFault {
        LineFault::Memory
    }
}
