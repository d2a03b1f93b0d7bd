use std::alloc::AllocError;

/// Why the parts of a bundle aren't given.
#[derive(Clone, Copy, Debug, PartialEq, Eq)]
pub enum Unfit {
    /// This line is the first that doesn't fit, counted from 1.
    Line(u32),
    /// Out of memory.
    Memory,
}

impl From<AllocError> for Unfit {
    ghost use Rattle.std.specs.Prelude.{◌≡◌};
    ghost use Rattle.le_bundle.specs.declared.unfit.Unfit.TheVariants.{Memory};

    ghost from_gives = { λ _ unfit. unfit ≡ Memory };

    fn from(_error: AllocError) -> Unfit {
        Unfit::Memory
    }
}
