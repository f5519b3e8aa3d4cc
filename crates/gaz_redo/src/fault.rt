//! Why a commit or a recovery ended early.
use gaz_outside::Failed;

/// Why a commit or a recovery ended early.
#[derive(Clone, Copy, Debug, PartialEq, Eq)]
pub enum RedoFault {
    /// A call on the station failed.
    Failed,
}

impl From<Failed> for RedoFault {
    ghost use Rattle.std.specs.Prelude.{◌≡◌};
    ghost use Rattle.gaz_redo.specs.declared.fault.RedoFault.TheVariants.{Failed};

    ghost from_gives = { λ _ fault. fault ≡ Failed };

    fn from(_failed: Failed) -> RedoFault {
        RedoFault::Failed
    }
}
