//! The first half of an opening: the areas are synced, and a stop is recovered from.
ghost use Rattle.std.specs.Prelude.{◌≡◌, ◌≤◌, ◌+◌, ◌*◌, ℕ, true, false, IsTrue, IfOk, OnOk};
ghost use Rattle.gaz_outside.specs.Outside.{HasCause};
ghost use Rattle.gaz_outside.specs.Station.{Confined, Counts};
ghost use Rattle.gaz_redo.specs.Slots.{SameBytes};
ghost use Rattle.gaz_redo.specs.Recovered.{AllStable, SlotsToRedo};
ghost use Rattle.gaz_open.specs.Opens.{HasLog, HasNoLog, IsOpening, IsSettled};

use gaz_outside::{Area, Failed, Station};
use gaz_redo::{Recovered, RedoFault, recover};

/// Syncs each area.
fn sync_all<T: Station>(station: &mut T) -> Result<(), Failed>
    ensures stable { OnOk result (IsTrue (T.view station.old).is_told → AllStable (T.view station.new)) }
    ensures stays { IsTrue (T.view station.old).is_told → Confined SameBytes (T.view station.old) (T.view station.new) }
    ensures counts { Counts 0 0 (T.view station.old) (T.view station.new) }
    ensures cause { HasCause (T.view station.old).faults (T.view station.new).faults result }
{
    station.sync(Area::Mark)?;
    station.sync(Area::Log)?;
    station.sync(Area::Root)?;
    station.sync(Area::Left)?;
    station.sync(Area::Right)?;
    Ok(())
}

/// Syncs the areas and recovers from a stop. `false` says that the gate is open over a log that isn't in form.
pub(crate) fn settle<T: Station>(station: &mut T) -> Result<bool, Failed>
    ensures settled { IfOk result (λ ok. IsTrue (T.view station.old).is_told → ok ≡ true → IsSettled (T.view station.old) (T.view station.new)) }
    ensures log { IfOk result (λ ok. IsTrue (T.view station.old).is_told → ok ≡ true → HasLog (T.view station.old).bytes) }
    ensures no_log { IfOk result (λ ok. IsTrue (T.view station.old).is_told → ok ≡ false → HasNoLog (T.view station.old).bytes) }
    ensures opening { IsOpening (T.view station.old) (T.view station.new) }
    ensures reads { IsTrue (T.view station.old).is_told → (slots : ℕ) → SlotsToRedo (T.view station.old) slots → (T.view station.new).reads ≤ (T.view station.old).reads + 8 * (slots + 1) }
    ensures cause { HasCause (T.view station.old).faults (T.view station.new).faults result }
{
    sync_all(station)?;
    let found = match recover(station) {
        Ok(found) => found,
        Err(RedoFault::Failed) => return Err(Failed),
    };
    match found {
        Recovered::Clean => Ok(true),
        Recovered::Redone(_) => Ok(true),
        Recovered::NotALog => Ok(false),
    }
}
