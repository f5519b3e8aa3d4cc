//! One type of faults for all questions.
ghost use Rattle.std.specs.Prelude.{◌≡◌};
ghost use Rattle.gaz_kin.specs.Faults.{ask_fault_of};

use gaz_kin::KinFault;
use gaz_rows::AskFault;

/// The fault of a question of kin as one of a store.
pub(crate) fn ask_fault(fault: KinFault) -> AskFault
    ensures { result ≡ ask_fault_of fault }
{
    match fault {
        KinFault::Failed => AskFault::Failed,
        KinFault::Damaged(page) => AskFault::Damaged(page),
    }
}
