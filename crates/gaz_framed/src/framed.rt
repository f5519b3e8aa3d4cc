//! A station with a pool of frames.
ghost use Rattle.std.specs.Prelude.{◌≡◌, ◌≤◌, [], IsTrue, IfOk};
ghost use Rattle.gaz_pool.specs.Frames.{Agrees, NoneWaits};
ghost use Rattle.gaz_pool.specs.Pool.{frames_in};
ghost use Rattle.std.proofs.Props.{props};

use crate::PagedStation;
use crate::keep::{drop_of, renew};
use gaz_outside::{Area, Failed, Station};
use gaz_page::Side;
use gaz_pool::FramePool;
use std::alloc::{AllocError, Global};

/// The fewest pages that a station holds.
const FEWEST: u32 = 8;

/// A station, and frames of which each holds a page as its area has it. A page that is loaded comes from its frame; any other call goes to
/// the station, and the frames follow what it writes.
#[derive(Drop)]
pub struct Framed<T: Station> {
    station: T,
    pool: FramePool,
    ghost written: { NoneWaits (frames_in pool) } by { Prim.hlevel props },
    ghost current: { IsTrue (T.view station).is_told → Agrees (frames_in pool) (T.view station).bytes } by { Prim.hlevel props },
}

impl<T: Station + Drop> Framed<T> {
    ghost use Rattle.gaz_framed.specs.Framed.{under};

    /// A station with eight frames, all empty.
    pub fn new(alloc: Global, station: T) -> Result<Framed<T>, AllocError>
        ensures { IfOk result (λ framed. under framed ≡ station) }
    {
        let pool = FramePool::new(alloc, FEWEST)?;
        Ok(Framed { station, pool })
    }

    /// The station under the frames.
    pub fn station(&self) -> &T
        ensures { result.now ≡ under self.now }
    {
        &self.station
    }

    /// The station, without its frames.
    pub fn into_station(self) -> T
        ensures { result ≡ under self }
    {
        self.station
    }
}

impl<T: Station> Station for Framed<T> {
    ghost view = { λ s. T.view s.station };

    ghost counts_now = { λ s t c told le now. T.counts_now s.station t c told le now };

    ghost only_now = { λ s c told left. T.only_now s.station c told left };

    ghost may_stay = { λ s a told. T.may_stay s.station a told };

    ghost faults_fit = { λ s. T.faults_fit s.station };

    fn len(&mut self, area: Area) -> Result<u64, Failed> {
        self.station.len(area)
    }

    fn read_at(&mut self, area: Area, at: u64, buf: &mut [u8]) -> Result<usize, Failed> {
        self.station.read_at(area, at, buf)
    }

    fn write_at(&mut self, area: Area, at: u64, bytes: &[u8]) -> Result<(), Failed> {
        match self.station.write_at(area, at, bytes) {
            Ok(()) => {
                renew(&mut self.pool, area, at, bytes);
                Ok(())
            }
            Err(failed) => {
                drop_of(&mut self.pool, area);
                Err(failed)
            }
        }
    }

    fn sync(&mut self, area: Area) -> Result<(), Failed> {
        self.station.sync(area)
    }

    fn print(&mut self, piece: &[u8]) -> Result<(), Failed> {
        self.station.print(piece)
    }
}

impl<T: Station> PagedStation for Framed<T> {
    ghost use Rattle.gaz_pool.specs.Frames.{pages_in};
    ghost use Rattle.gaz_pool.specs.Pool.{frames_in, room_in, loaded_in};

    ghost loaded_page = { λ s. loaded_in s.pool };

    ghost held = { λ s. pages_in (frames_in s.pool) };

    ghost room = { λ s. room_in s.pool };

    fn reserve(&mut self, alloc: Global, pages: u32) -> Result<(), AllocError> {
        self.pool = FramePool::new(alloc, pages)?;
        Ok(())
    }

    fn load(&mut self, side: Side, page: u32) -> Result<(), Failed> {
        self.pool.load(&mut self.station, side, page)
    }

    fn loaded(&self) -> &[u8] {
        self.pool.loaded()
    }
}
