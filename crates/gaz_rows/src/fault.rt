//! Why a call on a store came to nothing.
use gaz_num::{Day, FileName, Reason, Table};
use gaz_page::PageFault;

/// Why a question has no answer.
#[derive(Clone, Copy, Debug, PartialEq, Eq)]
pub enum AskFault {
    /// What holds the pages failed.
    Failed,
    /// This page isn't what it has to be.
    Damaged(u32),
    /// There is no memory for it.
    Memory,
}

impl From<PageFault> for AskFault {
    ghost use Rattle.std.specs.Prelude.{◌≡◌};
    ghost use Rattle.gaz_rows.specs.Faults.{fault_of};

    ghost from_gives = { λ cause fault. fault ≡ fault_of cause };

    fn from(cause: PageFault) -> AskFault {
        match cause {
            PageFault::Failed => AskFault::Failed,
            PageFault::Damaged(page) => AskFault::Damaged(page),
            PageFault::Memory => AskFault::Memory,
        }
    }
}

/// Why a line isn't stepped in. After `Failed`, `Damaged` and `Memory` the store is to be dropped.
#[derive(Clone, Copy, Debug, PartialEq, Eq)]
pub enum StepFault {
    /// The check of its kind has this reason against it.
    Malformed(Reason),
    /// After it the table would have more lines than it may.
    Full(Table),
    /// What holds the pages failed.
    Failed,
    /// This page isn't what it has to be.
    Damaged(u32),
    /// There is no memory for it.
    Memory,
}

impl From<PageFault> for StepFault {
    ghost use Rattle.std.specs.Prelude.{◌≡◌};
    ghost use Rattle.gaz_rows.specs.Faults.{step_fault_of};

    ghost from_gives = { λ cause fault. fault ≡ step_fault_of cause };

    fn from(cause: PageFault) -> StepFault {
        match cause {
            PageFault::Failed => StepFault::Failed,
            PageFault::Damaged(page) => StepFault::Damaged(page),
            PageFault::Memory => StepFault::Memory,
        }
    }
}

impl From<AskFault> for StepFault {
    ghost use Rattle.std.specs.Prelude.{◌≡◌};
    ghost use Rattle.gaz_rows.specs.Faults.{step_fault_by};

    ghost from_gives = { λ cause fault. fault ≡ step_fault_by cause };

    fn from(cause: AskFault) -> StepFault {
        match cause {
            AskFault::Failed => StepFault::Failed,
            AskFault::Damaged(page) => StepFault::Damaged(page),
            AskFault::Memory => StepFault::Memory,
        }
    }
}

/// Why a load or a day is refused.
#[derive(Clone, Copy, Debug, PartialEq, Eq)]
pub enum ChangeFault {
    /// No load was accepted yet.
    NotLoaded,
    /// The date isn't the one after this, the gazetteer's.
    Sequence(Day),
    /// The shelf has no such file.
    Absent(FileName),
    /// The shelf failed at this file.
    Shelf(FileName),
    /// The file has more bytes than it may.
    TooLong(FileName),
    /// A line of the file fails its check: its number and the first reason.
    Malformed(FileName, u64, Reason),
    /// After the line with this number the table would have more lines than it may.
    Full(FileName, u64, Table),
    /// The station failed: the old gazetteer stands or the new one, and the mirror isn't used again.
    Station,
    /// This page isn't what it has to be.
    Damaged(u32),
    /// There is no memory for it.
    Memory,
}
