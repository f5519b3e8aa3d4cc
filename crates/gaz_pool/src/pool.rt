//! The pool of frames.
ghost use Rattle.std.specs.Prelude.{◌≡◌, ◌≢◌, ◌+◌, ◌<◌, ◌≤◌, ℕ, List, false, [], IsTrue, IfOk, OnOk, OnErr, length};
ghost use Rattle.gaz_outside.specs.declared.station.Area.{Area};
ghost use Rattle.gaz_outside.specs.Outside.{HasCause};
ghost use Rattle.gaz_outside.specs.Station.{AnyIn, Confined, Counts};
ghost use Rattle.gaz_pool.specs.Clock.{round_of};
ghost use Rattle.gaz_pool.specs.Frames.{number_of, pages_in, pooled, frame_at, is_beside, Holds, Agrees, IsClean, NoneWaits, NoneWaitsOf, StillAgrees, WhereWaits, PutsPage, IsAdded, TakesPlaceOfOne, refreshed, without_side};
ghost use Rattle.gaz_pool.specs.Keeps.{OnlyReads};
ghost use Rattle.gaz_pool.specs.Numbers.{page_number};
ghost use Rattle.gaz_pool.specs.Rooms.{most_of};
ghost use Rattle.gaz_pool.specs.Sides.{side_area};
ghost use Rattle.gaz_pool.specs.Table.{Has};

use crate::clock::Clock;
use crate::device::{read_page, write_page};
use crate::frame::{Frame, page_of};
use crate::table::Table;
use gaz_outside::{Failed, Station};
use gaz_page::{PAGE, Side};
use std::alloc::{AllocError, Global};

/// What is seen where no frame was asked for.
static ZEROS: [u8; PAGE] = [0; PAGE];

/// Frames, each of which holds a page of a side, or none.
#[derive(Drop)]
pub struct FramePool {
    table: Table,
    clock: Clock,
    /// The place of the frame that was asked for last.
    asked: usize,
    ghost round: { round_of clock ≡ most_of table },
}

impl FramePool {
    ghost use Rattle.gaz_pool.specs.Pool.{frames_in, room_in, loaded_in};

    /// So many frames, all empty: 8 to 65,536. All memory is reserved here.
    pub fn new(alloc: Global, frames: u32) -> Result<FramePool, AllocError>
        requires enough { 8 ≤ frames }
        requires few { frames ≤ 65536 }
        ensures none { IfOk result (λ pool. frames_in pool ≡ []) }
        ensures room { IfOk result (λ pool. room_in pool ≡ frames) }
    {
        Ok(FramePool {
            table: Table::new(alloc, frames)?,
            clock: Clock::new(alloc, frames)?,
            asked: 0,
        })
    }

    /// Tells that a frame was asked for.
    fn ask(&mut self, place: usize)
        requires { place < length (frames_in self.old) }
        ensures frames { frames_in self.new ≡ frames_in self.old }
        ensures room { room_in self.new ≡ room_in self.old }
        ensures asked { loaded_in self.new ≡ (frame_at (frames_in self.old) place).bytes }
    {
        self.clock.mark(place);
        self.asked = place;
    }

    /// Writes the frame at a place out where it waits.
    fn clean<T: Station>(&mut self, station: &mut T, place: usize) -> Result<(), Failed>
        requires { place < length (frames_in self.old) }
        ensures still { OnOk result (IsTrue (T.view station.old).is_told → Agrees (frames_in self.old) (T.view station.old).bytes
            → StillAgrees (frames_in self.old) (T.view station.old).bytes (frames_in self.new) (T.view station.new).bytes) }
        ensures idle { OnOk result ((frame_at (frames_in self.new) place).waits ≡ false) }
        ensures others { (other : ℕ) → other ≢ place → frame_at (frames_in self.new) other ≡ frame_at (frames_in self.old) other }
        ensures pages { pages_in (frames_in self.new) ≡ pages_in (frames_in self.old) }
        ensures none { NoneWaits (frames_in self.old) → frames_in self.new ≡ frames_in self.old }
        ensures reads { NoneWaits (frames_in self.old) → OnlyReads (T.view station.old) (T.view station.new) }
        // At each moment no other area changes than that of this frame.
        ensures only { IsTrue (T.view station.old).is_told → Confined (AnyIn (side_area (frame_at (frames_in self.old) place).side)) (T.view station.old) (T.view station.new) }
        // At each moment only an area changes of which a frame waits.
        ensures confined { IsTrue (T.view station.old).is_told → Confined (WhereWaits (frames_in self.old)) (T.view station.old) (T.view station.new) }
        ensures room { room_in self.new ≡ room_in self.old }
        ensures counts { Counts 0 1 (T.view station.old) (T.view station.new) }
        ensures cause { HasCause (T.view station.old).faults (T.view station.new).faults result }
    {
        let frame = &self.table.frames[place];
        if frame.waits {
            match write_page(station, frame) {
                Ok(()) => {
                    self.table.settle(place);
                    Ok(())
                }
                Err(failed) => Err(failed),
            }
        } else {
            Ok(())
        }
    }

    /// Puts a page that isn't held into an empty frame.
    fn add(&mut self, frame: Frame)
        requires new { Has (pages_in (frames_in self.old)) (number_of frame) → ⊥ }
        requires empty { length (frames_in self.old) < room_in self.old }
        ensures puts { (areas : Area → List ℕ) → Agrees (frames_in self.old) areas → IsClean areas frame
            → PutsPage frame.side frame.page frame.bytes (frames_in self.old) areas (frames_in self.new) areas }
        ensures added { IsAdded frame.side frame.page (frames_in self.old) (frames_in self.new) }
        ensures none { NoneWaits (frames_in self.old) → frame.waits ≡ false → NoneWaits (frames_in self.new) }
        ensures asked { loaded_in self.new ≡ frame.bytes }
        ensures room { room_in self.new ≡ room_in self.old }
    {
        let place = self.table.frames.len();
        self.table.push(frame);
        self.ask(place);
    }

    /// Puts a page that isn't held in the place of one that doesn't wait to be written.
    fn take_place(&mut self, place: usize, frame: Frame)
        requires new { Has (pages_in (frames_in self.old)) (number_of frame) → ⊥ }
        requires there { place < length (frames_in self.old) }
        requires idle { (frame_at (frames_in self.old) place).waits ≡ false }
        ensures puts { (areas : Area → List ℕ) → Agrees (frames_in self.old) areas → IsClean areas frame
            → PutsPage frame.side frame.page frame.bytes (frames_in self.old) areas (frames_in self.new) areas }
        ensures taken { TakesPlaceOfOne frame.side frame.page (frames_in self.old) (frames_in self.new) }
        ensures none { NoneWaits (frames_in self.old) → frame.waits ≡ false → NoneWaits (frames_in self.new) }
        ensures asked { loaded_in self.new ≡ frame.bytes }
        ensures room { room_in self.new ≡ room_in self.old }
    {
        self.table.replace(place, frame);
        self.ask(place);
    }

    /// Puts a page that isn't held into an empty frame, or in the place of one that is given up and written where it waits.
    fn hold<T: Station>(&mut self, station: &mut T, frame: Frame) -> Result<(), Failed>
        requires new { Has (pages_in (frames_in self.old)) (number_of frame) → ⊥ }
        ensures puts { OnOk result (IsTrue (T.view station.old).is_told → Agrees (frames_in self.old) (T.view station.old).bytes → IsClean (T.view station.old).bytes frame
            → PutsPage frame.side frame.page frame.bytes (frames_in self.old) (T.view station.old).bytes (frames_in self.new) (T.view station.new).bytes) }
        ensures added { OnOk result (length (frames_in self.old) < room_in self.old → IsAdded frame.side frame.page (frames_in self.old) (frames_in self.new)) }
        ensures taken { OnOk result (room_in self.old ≤ length (frames_in self.old) → TakesPlaceOfOne frame.side frame.page (frames_in self.old) (frames_in self.new)) }
        ensures kept { OnErr result (pages_in (frames_in self.new) ≡ pages_in (frames_in self.old)) }
        ensures fails { OnErr result (NoneWaits (frames_in self.old) → frames_in self.new ≡ frames_in self.old) }
        ensures none { OnOk result (NoneWaits (frames_in self.old) → frame.waits ≡ false → NoneWaits (frames_in self.new)) }
        ensures asked { OnOk result (loaded_in self.new ≡ frame.bytes) }
        ensures reads { NoneWaits (frames_in self.old) → OnlyReads (T.view station.old) (T.view station.new) }
        // At each moment only an area changes of which a frame waits.
        ensures confined { IsTrue (T.view station.old).is_told → Confined (WhereWaits (frames_in self.old)) (T.view station.old) (T.view station.new) }
        ensures room { room_in self.new ≡ room_in self.old }
        ensures counts { Counts 0 1 (T.view station.old) (T.view station.new) }
        ensures cause { HasCause (T.view station.old).faults (T.view station.new).faults result }
    {
        if !self.table.is_full() {
            self.add(frame);
            return Ok(());
        }
        let place = self.clock.turn();
        match self.clean(station, place) {
            Ok(()) => {
                self.take_place(place, frame);
                Ok(())
            }
            Err(failed) => Err(failed),
        }
    }

    /// Reads a page that isn't held.
    fn fetch<T: Station>(&mut self, station: &mut T, side: Side, page: u32) -> Result<(), Failed>
        requires new { Holds (frames_in self.old) side page → ⊥ }
        ensures bytes { OnOk result (IsTrue (T.view station.old).is_told → Agrees (frames_in self.old) (T.view station.old).bytes
            → loaded_in self.new ≡ pooled (frames_in self.old) (T.view station.old).bytes side page) }
        ensures still { OnOk result (IsTrue (T.view station.old).is_told → Agrees (frames_in self.old) (T.view station.old).bytes
            → StillAgrees (frames_in self.old) (T.view station.old).bytes (frames_in self.new) (T.view station.new).bytes) }
        ensures added { OnOk result (length (frames_in self.old) < room_in self.old → IsAdded side page (frames_in self.old) (frames_in self.new)) }
        ensures taken { OnOk result (room_in self.old ≤ length (frames_in self.old) → TakesPlaceOfOne side page (frames_in self.old) (frames_in self.new)) }
        ensures kept { OnErr result (pages_in (frames_in self.new) ≡ pages_in (frames_in self.old)) }
        ensures fails { OnErr result (NoneWaits (frames_in self.old) → frames_in self.new ≡ frames_in self.old) }
        ensures none { OnOk result (NoneWaits (frames_in self.old) → NoneWaits (frames_in self.new)) }
        ensures reads { NoneWaits (frames_in self.old) → OnlyReads (T.view station.old) (T.view station.new) }
        // At each moment only an area changes of which a frame waits.
        ensures confined { IsTrue (T.view station.old).is_told → Confined (WhereWaits (frames_in self.old)) (T.view station.old) (T.view station.new) }
        ensures room { room_in self.new ≡ room_in self.old }
        ensures counts { Counts 1 1 (T.view station.old) (T.view station.new) }
        ensures cause { HasCause (T.view station.old).faults (T.view station.new).faults result }
    {
        match read_page(station, side, page) {
            Ok(bytes) => {
                let frame = Frame {
                    side,
                    page,
                    waits: false,
                    bytes,
                };
                self.hold(station, frame)
            }
            Err(failed) => Err(failed),
        }
    }

    /// Sees to it that a frame holds the page, which `loaded` then gives: the page as the area has it, with the frames laid over that wait
    /// to be written. It reads nothing where a frame holds the page, and else at most one page, and writes at most one, which is given up.
    pub fn load<T: Station>(&mut self, station: &mut T, side: Side, page: u32) -> Result<(), Failed>
        ensures bytes { OnOk result (IsTrue (T.view station.old).is_told → Agrees (frames_in self.old) (T.view station.old).bytes
            → loaded_in self.new ≡ pooled (frames_in self.old) (T.view station.old).bytes side page) }
        ensures still { OnOk result (IsTrue (T.view station.old).is_told → Agrees (frames_in self.old) (T.view station.old).bytes
            → StillAgrees (frames_in self.old) (T.view station.old).bytes (frames_in self.new) (T.view station.new).bytes) }
        ensures held { Holds (frames_in self.old) side page → frames_in self.new ≡ frames_in self.old }
        ensures unread { Holds (frames_in self.old) side page → Counts 0 0 (T.view station.old) (T.view station.new) }
        ensures added { OnOk result ((Holds (frames_in self.old) side page → ⊥) → length (frames_in self.old) < room_in self.old → IsAdded side page (frames_in self.old) (frames_in self.new)) }
        ensures taken { OnOk result ((Holds (frames_in self.old) side page → ⊥) → room_in self.old ≤ length (frames_in self.old) → TakesPlaceOfOne side page (frames_in self.old) (frames_in self.new)) }
        ensures kept { OnErr result (pages_in (frames_in self.new) ≡ pages_in (frames_in self.old)) }
        // What holds after `Failed` too, where no frame waits to be written.
        ensures fails { OnErr result (NoneWaits (frames_in self.old) → frames_in self.new ≡ frames_in self.old) }
        ensures none { NoneWaits (frames_in self.old) → NoneWaits (frames_in self.new) }
        ensures reads { NoneWaits (frames_in self.old) → OnlyReads (T.view station.old) (T.view station.new) }
        // At each moment only an area changes of which a frame waits.
        ensures confined { IsTrue (T.view station.old).is_told → Confined (WhereWaits (frames_in self.old)) (T.view station.old) (T.view station.new) }
        ensures room { room_in self.new ≡ room_in self.old }
        ensures counts { Counts 1 1 (T.view station.old) (T.view station.new) }
        ensures cause { HasCause (T.view station.old).faults (T.view station.new).faults result }
    {
        match self.table.find(side, page) {
            Some(place) => {
                self.ask(place);
                Ok(())
            }
            None => self.fetch(station, side, page),
        }
    }

    /// The page that was loaded last.
    pub fn loaded(&self) -> &[u8]
        ensures bytes { result.now ≡ loaded_in self.now }
        ensures size { length result.now ≡ 4096 }
    {
        match self.table.frames.get(self.asked) {
            Some(frame) => &frame.bytes,
            None => &ZEROS,
        }
    }

    /// Gives a page these bytes where a frame holds it: they were committed.
    pub fn refresh(&mut self, side: Side, page: u32, bytes: &[u8])
        requires { length bytes.now ≡ 4096 }
        ensures frames { frames_in self.new ≡ refreshed side page bytes.now (frames_in self.old) }
        ensures room { room_in self.new ≡ room_in self.old }
    {
        match self.table.find(side, page) {
            Some(place) => {
                let waits = self.table.frames[place].waits;
                self.table.fill(place, bytes, waits);
            }
            None => {}
        }
    }

    /// Gives a page these bytes, which are written later: when its frame is given up, or by `flush`. It writes at most one page, which is
    /// given up.
    pub fn write_back<T: Station>(
        &mut self,
        station: &mut T,
        side: Side,
        page: u32,
        bytes: &[u8],
    ) -> Result<(), Failed>
        requires { length bytes.now ≡ 4096 }
        ensures puts { OnOk result (IsTrue (T.view station.old).is_told → Agrees (frames_in self.old) (T.view station.old).bytes
            → PutsPage side page bytes.now (frames_in self.old) (T.view station.old).bytes (frames_in self.new) (T.view station.new).bytes) }
        ensures held { Holds (frames_in self.old) side page → pages_in (frames_in self.new) ≡ pages_in (frames_in self.old) }
        ensures unwritten { Holds (frames_in self.old) side page → Counts 0 0 (T.view station.old) (T.view station.new) }
        ensures added { OnOk result ((Holds (frames_in self.old) side page → ⊥) → length (frames_in self.old) < room_in self.old → IsAdded side page (frames_in self.old) (frames_in self.new)) }
        ensures taken { OnOk result ((Holds (frames_in self.old) side page → ⊥) → room_in self.old ≤ length (frames_in self.old) → TakesPlaceOfOne side page (frames_in self.old) (frames_in self.new)) }
        ensures kept { OnErr result (pages_in (frames_in self.new) ≡ pages_in (frames_in self.old)) }
        // At each moment only an area changes of which a frame waits.
        ensures confined { IsTrue (T.view station.old).is_told → Confined (WhereWaits (frames_in self.old)) (T.view station.old) (T.view station.new) }
        ensures room { room_in self.new ≡ room_in self.old }
        ensures counts { Counts 0 1 (T.view station.old) (T.view station.new) }
        ensures cause { HasCause (T.view station.old).faults (T.view station.new).faults result }
    {
        match self.table.find(side, page) {
            Some(place) => {
                self.table.fill(place, bytes, true);
                Ok(())
            }
            None => {
                let frame = Frame {
                    side,
                    page,
                    waits: true,
                    bytes: page_of(bytes),
                };
                self.hold(station, frame)
            }
        }
    }

    /// Writes the frame at a place out where it is of this side and waits.
    fn clean_of<T: Station>(
        &mut self,
        station: &mut T,
        place: usize,
        side: Side,
    ) -> Result<(), Failed>
        requires { place < length (frames_in self.old) }
        ensures still { OnOk result (IsTrue (T.view station.old).is_told → Agrees (frames_in self.old) (T.view station.old).bytes
            → StillAgrees (frames_in self.old) (T.view station.old).bytes (frames_in self.new) (T.view station.new).bytes) }
        ensures idle { OnOk result (is_beside side (frame_at (frames_in self.new) place) ≡ false → (frame_at (frames_in self.new) place).waits ≡ false) }
        ensures others { (other : ℕ) → other ≢ place → frame_at (frames_in self.new) other ≡ frame_at (frames_in self.old) other }
        ensures pages { pages_in (frames_in self.new) ≡ pages_in (frames_in self.old) }
        ensures confined { IsTrue (T.view station.old).is_told → Confined (AnyIn (side_area side)) (T.view station.old) (T.view station.new) }
        ensures room { room_in self.new ≡ room_in self.old }
        ensures counts { Counts 0 1 (T.view station.old) (T.view station.new) }
        ensures cause { HasCause (T.view station.old).faults (T.view station.new).faults result }
    {
        if self.table.is_of(place, side) {
            self.clean(station, place)
        } else {
            Ok(())
        }
    }

    /// Writes the frames of a side that wait to be written.
    pub fn flush<T: Station>(&mut self, station: &mut T, side: Side) -> Result<(), Failed>
        ensures still { OnOk result (IsTrue (T.view station.old).is_told → Agrees (frames_in self.old) (T.view station.old).bytes
            → StillAgrees (frames_in self.old) (T.view station.old).bytes (frames_in self.new) (T.view station.new).bytes) }
        ensures settled { OnOk result (NoneWaitsOf side (frames_in self.new)) }
        ensures pages { pages_in (frames_in self.new) ≡ pages_in (frames_in self.old) }
        // At each moment no other area changes than that of the side.
        ensures confined { IsTrue (T.view station.old).is_told → Confined (AnyIn (side_area side)) (T.view station.old) (T.view station.new) }
        ensures room { room_in self.new ≡ room_in self.old }
        ensures counts { Counts 0 (length (frames_in self.old)) (T.view station.old) (T.view station.new) }
        ensures cause { HasCause (T.view station.old).faults (T.view station.new).faults result }
    {
        for place in 0..self.table.frames.len() {
            self.clean_of(station, place, side)?;
        }
        Ok(())
    }

    /// Drops the frames of a side, written or not: its area is written past the pool.
    pub fn forget(&mut self, side: Side)
        ensures frames { frames_in self.new ≡ without_side side (frames_in self.old) }
        ensures room { room_in self.new ≡ room_in self.old }
    {
        self.table.forget(side);
    }
}
