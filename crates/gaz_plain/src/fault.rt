//! Why a line isn't stepped in.
use gaz_num::{Reason, Table};
use std::alloc::AllocError;

/// Why a line isn't stepped in.
#[derive(Clone, Copy, Debug, PartialEq, Eq)]
pub enum PlainFault {
    /// The check of its kind has this reason against it.
    Malformed(Reason),
    /// After it the table would have more lines than it may.
    Full(Table),
    /// Memory was wanting.
    Memory,
}

impl From<AllocError> for PlainFault {
    ghost use Rattle.std.specs.Prelude.{◌≡◌};
    ghost use Rattle.gaz_plain.specs.declared.fault.PlainFault.TheVariants.{Memory};

    ghost from_gives = { λ _ fault. fault ≡ Memory };

    fn from(_error: AllocError) -> PlainFault {
        PlainFault::Memory
    }
}
