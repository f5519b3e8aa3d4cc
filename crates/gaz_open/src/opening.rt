//! The opening of a mirror.
ghost use Rattle.std.specs.Prelude.{◌≡◌, ◌≤◌, ◌+◌, ◌*◌, ℕ, [], IsTrue, IfOk, IfErr, OnOk};
ghost use Rattle.gaz_outside.specs.declared.station.Area.TheVariants.{Root as RootArea};
ghost use Rattle.gaz_outside.specs.Station.{Confined, Counts};
ghost use Rattle.gaz_plain.specs.Gazetteer.{Gazetteer};
ghost use Rattle.gaz_redo.specs.Content.{three};
ghost use Rattle.gaz_redo.specs.Slots.{SameBytes};
ghost use Rattle.gaz_redo.specs.Recovered.{OnlyRise, SlotsToRedo};
ghost use Rattle.gaz_pages.specs.Fits.{Names};
ghost use Rattle.gaz_pages.specs.Held.{root_of};
ghost use Rattle.gaz_rows.specs.Content.{HasGaz};
ghost use Rattle.gaz_rows.specs.Holds.{AllHold};
ghost use Rattle.gaz_open.specs.Opens.{HasOpened, IsNoMirror, IsOpening, FailsOnce};
ghost use Rattle.gaz_open.specs.declared.fault.Place.{Place};

use crate::find::{Found, find_root};
use crate::settle::settle;
use crate::{OpenFault, Place};
use gaz_framed::PagedStation;
use gaz_outside::Failed;
use gaz_page::Root;
use gaz_pages::Mirror;
use std::alloc::{AllocError, Global};

/// Reads the mirror of a device whose gate is closed, and reserves the frames by which its pages are read.
fn read_mirror<T: PagedStation>(
    alloc: Global,
    station: &mut T,
    frames: u32,
) -> Result<Mirror, OpenFault>
    requires enough { 8 ≤ frames }
    requires few { frames ≤ 65536 }
    ensures names { IfOk result (λ mirror. IsTrue (T.view station.old).is_told → Names (root_of mirror) ((T.view station.old).bytes RootArea)) }
    ensures none { IfErr result (λ why. IsTrue (T.view station.old).is_told → (place : _) → why ≡ OpenFault.NotAMirror place → (gaz : Gazetteer) → HasGaz (three (T.view station.old).bytes) gaz → ⊥) }
    ensures place { IfErr result (λ why. why ≡ OpenFault.NotAMirror Place.Log → ⊥) }
    ensures stays { IsTrue (T.view station.old).is_told → Confined SameBytes (T.view station.old) (T.view station.new) }
    ensures costs { Counts 1 0 (T.view station.old) (T.view station.new) }
    ensures counts { OnlyRise (T.view station.old) (T.view station.new) }
    ensures room { OnOk result ((T.room station.new ≡ frames) × (T.held station.new ≡ [])) }
    ensures cause { FailsOnce (T.view station.old).faults (T.view station.new).faults result }
{
    let root = match find_root(station) {
        Ok(Found::Empty) => None,
        Ok(Found::Named(root)) => Some(root),
        Ok(Found::NotARoot) => return Err(OpenFault::NotAMirror(Place::Root)),
        Err(Failed) => return Err(OpenFault::Station),
    };
    match station.reserve(alloc, frames) {
        Ok(()) => Ok(Mirror::of(root)),
        Err(AllocError) => Err(OpenFault::Memory),
    }
}

/// Opens the mirror: syncs the areas, recovers from a stop, reads the root page, and reserves frames, 8 to 65,536, by which pages are read.
/// It prints nothing. It may open over areas that mirror no gazetteer, where what Root names is damaged.
pub fn open<T: PagedStation>(
    alloc: Global,
    station: &mut T,
    frames: u32,
) -> Result<Mirror, OpenFault>
    requires enough { 8 ≤ frames }
    requires few { frames ≤ 65536 }

    // The mirror fits the device, of which nothing is pending: all outcomes have what the areas mirrored, or what all outcomes had.
    ensures opened { IfOk result (λ mirror. IsTrue (T.view station.old).is_told → HasOpened (root_of mirror) (T.view station.old) (T.view station.new)) }
    ensures one { IfOk result (λ mirror. IsTrue (T.view station.old).is_told → (gaz : Gazetteer) → AllHold (T.view station.old) gaz → AllHold (T.view station.new) gaz) }

    // It says that there is no mirror only where the areas mirror none.
    ensures none { IfErr result (λ why. IsTrue (T.view station.old).is_told → (place : Place) → why ≡ OpenFault.NotAMirror place → IsNoMirror place (T.view station.old)) }

    // A stop at any moment leaves a gazetteer that some outcome had when it began: the one that was there, if all had one.
    ensures opening { IsOpening (T.view station.old) (T.view station.new) }

    // In pieces of 4,096 bytes: it reads at most eight for each slot to redo and eight more, and the root page.
    ensures reads { IsTrue (T.view station.old).is_told → (slots : ℕ) → SlotsToRedo (T.view station.old) slots
        → (T.view station.new).reads ≤ (T.view station.old).reads + 8 * (slots + 1) + 1 }

    // As many frames as were asked for, all empty.
    ensures room { OnOk result ((T.room station.new ≡ frames) × (T.held station.new ≡ [])) }
    ensures cause { FailsOnce (T.view station.old).faults (T.view station.new).faults result }
{
    match settle(station) {
        Ok(true) => {}
        Ok(false) => return Err(OpenFault::NotAMirror(Place::Log)),
        Err(Failed) => return Err(OpenFault::Station),
    }
    match read_mirror(alloc, station, frames) {
        Ok(mirror) => Ok(mirror),
        Err(fault) => Err(fault),
    }
}
