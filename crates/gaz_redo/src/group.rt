//! Slots of the log that are read together.
ghost use Rattle.std.specs.Prelude.{◌≡◌, ◌+◌, ◌-◌, ◌*◌, ◌<◌, ◌≤◌, ◌^◌, drop, length, IsTrue, OnOk};
ghost use Rattle.gaz_outside.specs.declared.station.Area.TheVariants.{Log};
ghost use Rattle.gaz_outside.specs.Outside.{HasCause};
ghost use Rattle.gaz_outside.specs.Station.{Counts, Confined};
ghost use Rattle.gaz_redo.specs.Content.{slot_at};
ghost use Rattle.gaz_redo.specs.Images.{slot_for};
ghost use Rattle.gaz_redo.specs.Slots.{SameBytes};

use crate::Home;
use crate::checking::home_in;
use crate::place::{HEAD, SLOT};
use gaz_outside::{Area, Failed, Station};

/// At most so many slots are read together.
const MOST: u64 = 15;

/// The slots from `first` on, up to `end`, as the log has them.
#[derive(Drop)]
pub(crate) struct Group {
    bytes: [u8; 61680],
    first: u64,
    end: u64,
    ghost ordered: { first ≤ end },
    ghost within: { end ≤ first + 15 },
}

impl Group {
    ghost use Rattle.gaz_redo.specs.Group.{IsOfLog};

    /// No slots.
    pub fn new() -> Self
        ensures { result.end ≡ 0 }
    {
        Group {
            bytes: [0; 61680],
            first: 0,
            end: 0,
        }
    }

    /// Reads slot `k` with those behind it, of as many as the log has, where it isn't held.
    pub fn hold<T: Station>(&mut self, station: &mut T, k: u64, count: u64) -> Result<(), Failed>
        requires few { count < 2 ^ 50 }
        requires there { k < count }
        requires from { self.old.first ≤ k }
        requires next { k ≤ self.old.end }
        requires fits { self.old.end ≤ count }
        ensures from { OnOk result (self.new.first ≤ k) }
        ensures held { OnOk result (k < self.new.end) }
        ensures fits { OnOk result (self.new.end ≤ count) }
        ensures of_log { OnOk result (IsTrue (T.view station.old).is_told → 16 + 4112 * count ≤ length ((T.view station.old).bytes Log)
            → IsOfLog self.old ((T.view station.old).bytes Log) → IsOfLog self.new ((T.view station.old).bytes Log)) }
        ensures stays { IsTrue (T.view station.old).is_told → Confined SameBytes (T.view station.old) (T.view station.new) }
        ensures counts { Counts (2 * (count - self.old.end)) 0 (T.view station.old) (T.view station.new) }
        ensures reads { OnOk result ((T.view station.new).reads + 2 * self.old.end ≤ (T.view station.old).reads + 2 * self.new.end) }
        ensures cause { HasCause (T.view station.old).faults (T.view station.new).faults result }
    {
        if k < self.end {
            return Ok(());
        }
        let n = (count - k).min(MOST);
        let size = (SLOT * n) as usize;
        station.read_at(Area::Log, HEAD + SLOT * k, &mut self.bytes[0..size])?;
        self.first = k;
        self.end = k + n;
        Ok(())
    }

    /// The home and the image of a slot.
    pub fn slot(&self, k: u64) -> (Home, &[u8])
        requires from { self.now.first ≤ k }
        requires held { k < self.now.end }
        ensures size { length result.1.now ≡ 4096 }
        ensures shown { slot_for result.0 result.1.now ≡ slot_at (drop (4112 * (k - self.now.first)) self.now.bytes) }
    {
        let at = (SLOT * (k - self.first)) as usize;
        let slot = &self.bytes[at..at + SLOT as usize];
        (home_in(slot), &slot[HEAD as usize..])
    }
}
