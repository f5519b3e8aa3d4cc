//! All images or none.
ghost use Rattle.std.specs.Prelude.{◌≡◌, ◌+◌, ◌*◌, ◌<◌, ◌^◌, length, IsTrue, OnOk};
ghost use Rattle.gaz_outside.specs.Outside.{HasCause};
ghost use Rattle.gaz_outside.specs.declared.station.Area.{Area};
ghost use Rattle.gaz_outside.specs.Station.{Confined, Counts, IsStable, LeavesOnly};
ghost use Rattle.gaz_redo.specs.Slots.{slots_in, laid_in, IsHome, LeaveNoGap, Scattered, Touches};
ghost use Rattle.gaz_redo.specs.Content.{IsReady, IsCommitted, IsOldOrNew, are_images, are_tight};
ghost use Rattle.gaz_redo.specs.Recovered.{AllStable};

use crate::image::Image;
use crate::place::{log_images, place_images, set_gate};
use crate::{Images, RedoFault};
use gaz_outside::{Failed, Station};

/// Lays the images over their areas, all of them or none, whenever it is stopped: writes and syncs the log, opens the
/// gate, writes and syncs the pages, closes the gate. `Failed` is that of the first call that failed, and the last made.
pub fn commit<T: Station>(station: &mut T, images: &Images) -> Result<(), RedoFault>
    requires { IsTrue (T.view station.old).is_told → IsReady images.now (T.view station.old) }
    ensures stable { OnOk result (IsTrue (T.view station.old).is_told → AllStable (T.view station.old) → AllStable (T.view station.new)) }
    ensures committed { OnOk result (IsTrue (T.view station.old).is_told → IsCommitted images.now (T.view station.old) (T.view station.new)) }

    // Where the images leave no gap, a stop at any moment leaves the old content, or the old one with the images laid over.
    ensures any_moment { IsTrue (T.view station.old).is_told → LeaveNoGap images.now (T.view station.old).bytes
        → LeavesOnly (T.view station.old) (T.view station.new) (IsOldOrNew images.now (T.view station.old)) }
    ensures printed { IsTrue (T.view station.old).is_told → (T.view station.new).printed ≡ (T.view station.old).printed }
    ensures counts { Counts 0 (3 * length images.now + 3) (T.view station.old) (T.view station.new) }
    ensures cause { HasCause (T.view station.old).faults (T.view station.new).faults result }
{
    commit_list(station, images.as_slice())
}

/// Writes the images in their places and syncs the areas that have one, without a log: a stop may leave any part of them. It is for
/// an area that no root page names. `Failed` is that of the first call that failed, and the last made.
pub fn write_in_place<T: Station>(station: &mut T, images: &Images) -> Result<(), Failed>
    ensures placed { OnOk result (IsTrue (T.view station.old).is_told → (a : Area) → (T.view station.new).bytes a ≡ laid_in a images.now ((T.view station.old).bytes a)) }
    ensures stable { OnOk result (IsTrue (T.view station.old).is_told → (a : Area) → IsHome a → Touches a images.now → IsStable (T.view station.new) a) }
    ensures confined { IsTrue (T.view station.old).is_told → Confined (λ a. Scattered a images.now) (T.view station.old) (T.view station.new) }
    ensures counts { Counts 0 (length images.now) (T.view station.old) (T.view station.new) }
    ensures cause { HasCause (T.view station.old).faults (T.view station.new).faults result }
{
    place_images(station, images.as_slice())
}

fn commit_list<T: Station>(station: &mut T, images: &[Image]) -> Result<(), RedoFault>
    requires valid { IsTrue (are_images (slots_in images.now)) }
    requires few { length images.now < 2 ^ 40 }
    requires ready { IsTrue (T.view station.old).is_told → IsReady (slots_in images.now) (T.view station.old) }
    ensures stable { OnOk result (IsTrue (T.view station.old).is_told → AllStable (T.view station.old) → AllStable (T.view station.new)) }
    ensures committed { OnOk result (IsTrue (T.view station.old).is_told → IsCommitted (slots_in images.now) (T.view station.old) (T.view station.new)) }
    ensures any_moment { IsTrue (T.view station.old).is_told → IsTrue (are_tight (slots_in images.now) (T.view station.old).bytes)
        → LeavesOnly (T.view station.old) (T.view station.new) (IsOldOrNew (slots_in images.now) (T.view station.old)) }
    ensures printed { IsTrue (T.view station.old).is_told → (T.view station.new).printed ≡ (T.view station.old).printed }
    ensures counts { Counts 0 (3 * length images.now + 3) (T.view station.old) (T.view station.new) }
    ensures cause { HasCause (T.view station.old).faults (T.view station.new).faults result }
{
    log_images(station, images)?;
    set_gate(station, 1)?;
    place_images(station, images)?;
    set_gate(station, 0)?;
    Ok(())
}
