//! Why a question of kin came to nothing.
ghost use Rattle.std.specs.Prelude.{◌≡◌};
ghost use Rattle.gaz_rows.specs.Store.{TakesNoMemory};
ghost use Rattle.gaz_kin.specs.Faults.{ask_fault_of};

use gaz_rows::AskFault;

/// Why there is no answer. Memory is never wanting.
#[derive(Clone, Copy, Debug, PartialEq, Eq)]
pub enum KinFault {
    /// What holds the pages failed.
    Failed,
    /// This page isn't what it has to be.
    Damaged(u32),
}

/// The fault of a question that takes no memory.
pub(crate) fn kin_fault(fault: AskFault) -> KinFault
    requires { TakesNoMemory fault }
    ensures { fault ≡ ask_fault_of result }
{
    match fault {
        AskFault::Failed => KinFault::Failed,
        AskFault::Damaged(page) => KinFault::Damaged(page),
        AskFault::Memory => unreachable!(),
    }
}
