//! Recovery from a stop.
ghost use Rattle.std.specs.Prelude.{◌≡◌, ◌⊎◌, false, ◌+◌, ◌*◌, ◌^◌, ◌<◌, ◌≤◌, ℕ, true, length, take, drop, slice_index, IsTrue, IfOk, IfSome, OnOk};
ghost use Rattle.std.specs.Int.{w32, from_be_bytes};
ghost use Rattle.gaz_outside.specs.declared.station.Area.{Area};
ghost use Rattle.gaz_outside.specs.declared.station.Area.TheVariants.{Mark, Log};
ghost use Rattle.gaz_outside.specs.Outside.{HasCause};
ghost use Rattle.gaz_outside.specs.Station.{Counts, Confined, LeavesOnly, IsStable};
ghost use Rattle.gaz_redo.specs.Slots.{laid_in, Scattered, IsHome, SameBytes, Touches};
ghost use Rattle.gaz_redo.specs.Content.{is_open, is_log, slots_of, slot_count, slot_at, area_of};
ghost use Rattle.gaz_redo.specs.Recovered.{AllStable, StandsFor, Tells, Means, OnlyRise, SlotsToRedo, answer_of};

use crate::RedoFault;
use crate::batch::Batch;
use crate::checking::check_log;
use crate::group::Group;
use crate::place::set_gate;
use gaz_outside::{Area, Failed, Station};
use gaz_page::PAGE;

#[derive(Clone, Copy, Debug, PartialEq, Eq)]
pub enum Recovered {
    /// The gate was closed.
    Clean,
    /// So many slots were written again.
    Redone(u64),
    /// The gate is open, and the log isn't in form. Nothing was written.
    NotALog,
}

/// The first byte of Mark is there and is 1.
fn gate_is_open<T: Station>(station: &mut T) -> Result<bool, Failed>
    ensures gate { IfOk result (λ b. IsTrue (T.view station.old).is_told → b ≡ is_open ((T.view station.old).bytes Mark)) }
    ensures stays { IsTrue (T.view station.old).is_told → Confined SameBytes (T.view station.old) (T.view station.new) }
    ensures counts { Counts 1 0 (T.view station.old) (T.view station.new) }
    ensures cause { HasCause (T.view station.old).faults (T.view station.new).faults result }
{
    let mut first = [0];
    let n = station.read_at(Area::Mark, 0, &mut first)?;
    Ok(n == 1 && first[0] == 1)
}

/// Writes the images of the log to their homes, and syncs these.
fn redo_images<T: Station>(station: &mut T, count: u64) -> Result<(), Failed>
    requires few { count < 2 ^ 50 }
    requires in_form { IsTrue (T.view station.old).is_told → (is_log (T.view station.old).bytes ≡ true) × (count ≡ slot_count ((T.view station.old).bytes Log)) }
    ensures placed { OnOk result (IsTrue (T.view station.old).is_told → (a : Area) → (T.view station.new).bytes a ≡ laid_in a (slots_of ((T.view station.old).bytes Log)) ((T.view station.old).bytes a)) }
    ensures stable { OnOk result (IsTrue (T.view station.old).is_told → (a : Area) → IsHome a → Touches a (slots_of ((T.view station.old).bytes Log)) → IsStable (T.view station.new) a) }
    ensures confined { IsTrue (T.view station.old).is_told → Confined (λ a. Scattered a (slots_of ((T.view station.old).bytes Log))) (T.view station.old) (T.view station.new) }
    ensures counts { Counts (2 * count) count (T.view station.old) (T.view station.new) }
    ensures cause { HasCause (T.view station.old).faults (T.view station.new).faults result }
{
    write_slots(station, count)?;
    sync_homes(station)
}

/// Writes the images of the log to their homes. Neighbours go out together.
fn write_slots<T: Station>(station: &mut T, count: u64) -> Result<(), Failed>
    requires few { count < 2 ^ 50 }
    requires in_form { IsTrue (T.view station.old).is_told → (is_log (T.view station.old).bytes ≡ true) × (count ≡ slot_count ((T.view station.old).bytes Log)) }
    ensures placed { OnOk result (IsTrue (T.view station.old).is_told → (a : Area) → (T.view station.new).bytes a ≡ laid_in a (slots_of ((T.view station.old).bytes Log)) ((T.view station.old).bytes a)) }
    ensures confined { IsTrue (T.view station.old).is_told → Confined (λ a. Scattered a (slots_of ((T.view station.old).bytes Log))) (T.view station.old) (T.view station.new) }
    ensures counts { Counts (2 * count) count (T.view station.old) (T.view station.new) }
    ensures cause { HasCause (T.view station.old).faults (T.view station.new).faults result }
{
    let mut batch = Batch::new(Area::Root);
    let mut group = Group::new();
    for k in 0..count {
        group.hold(station, k, count)?;
        let (home, image) = group.slot(k);
        batch.put(station, home.area, PAGE as u64 * home.page as u64, image)?;
    }
    batch.write_out(station)?;
    Ok(())
}

/// Syncs the areas of images.
fn sync_homes<T: Station>(station: &mut T) -> Result<(), Failed>
    ensures stable { OnOk result (IsTrue (T.view station.old).is_told → (a : Area) → IsHome a → IsStable (T.view station.new) a) }
    ensures stays { IsTrue (T.view station.old).is_told → Confined SameBytes (T.view station.old) (T.view station.new) }
    ensures counts { Counts 0 0 (T.view station.old) (T.view station.new) }
    ensures cause { HasCause (T.view station.old).faults (T.view station.new).faults result }
{
    station.sync(Area::Root)?;
    station.sync(Area::Left)?;
    station.sync(Area::Right)?;
    Ok(())
}

/// Brings the areas to what they stand for, after a stop. It may be stopped too.
pub fn recover<T: Station>(station: &mut T) -> Result<Recovered, RedoFault>
    requires { IsTrue (T.view station.old).is_told → AllStable (T.view station.old) }
    ensures means { IfOk result (λ r. IsTrue (T.view station.old).is_told → Means (T.view station.old) r) }
    ensures answer { IfOk result (λ r. IsTrue (T.view station.old).is_told → r ≡ answer_of (T.view station.old).bytes) }
    ensures tells { IfOk result (λ r. IsTrue (T.view station.old).is_told → Tells (T.view station.old) (T.view station.new) r) }

    // A stop at any moment leaves the content that was there.
    ensures any_moment { IsTrue (T.view station.old).is_told → LeavesOnly (T.view station.old) (T.view station.new) (StandsFor (T.view station.old)) }
    ensures printed { IsTrue (T.view station.old).is_told → (T.view station.new).printed ≡ (T.view station.old).printed }
    ensures reads { IsTrue (T.view station.old).is_told → (slots : ℕ) → SlotsToRedo (T.view station.old) slots → (T.view station.new).reads ≤ (T.view station.old).reads + 8 * (slots + 1) }
    ensures writes { IsTrue (T.view station.old).is_told → (slots : ℕ) → SlotsToRedo (T.view station.old) slots → (T.view station.new).writes ≤ (T.view station.old).writes + slots + 1 }

    // With a closed gate, or a log that isn't in form, nothing is written: no byte and no outcome changes, at no moment.
    ensures untouched { IsTrue (T.view station.old).is_told → (is_open ((T.view station.old).bytes Mark) ≡ false) ⊎ (is_log (T.view station.old).bytes ≡ false) → Confined SameBytes (T.view station.old) (T.view station.new) }
    ensures unwritten { IsTrue (T.view station.old).is_told → (is_open ((T.view station.old).bytes Mark) ≡ false) ⊎ (is_log (T.view station.old).bytes ≡ false) → (T.view station.new).writes ≡ (T.view station.old).writes }
    ensures counts { OnlyRise (T.view station.old) (T.view station.new) }
    ensures cause { HasCause (T.view station.old).faults (T.view station.new).faults result }
{
    if !gate_is_open(station)? {
        return Ok(Recovered::Clean);
    }
    let Some(count) = check_log(station)? else {
        return Ok(Recovered::NotALog);
    };
    redo_images(station, count)?;
    set_gate(station, 0)?;
    Ok(Recovered::Redone(count))
}
