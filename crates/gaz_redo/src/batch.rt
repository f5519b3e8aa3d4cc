//! Bytes that go out in one write.
ghost use Rattle.std.specs.Prelude.{◌≡◌, ◌+◌, ◌<◌, ◌≤◌, ◌^◌, ◌++◌, [], ◌↔◌, length, IsTrue, OnOk};
ghost use Rattle.gaz_outside.specs.declared.station.Area.{Area};
ghost use Rattle.gaz_outside.specs.Outside.{HasCause};
ghost use Rattle.gaz_outside.specs.Station.{Counts, Confined, pieces};

use gaz_outside::{Area, Failed, Station};

/// At most so many bytes go out in one write.
const MOST: usize = 65_536;

/// Bytes that are to stand one behind the other in an area, and aren't written yet.
#[derive(Drop)]
pub(crate) struct Batch {
    bytes: [u8; 65536],
    size: usize,
    area: Area,
    at: u64,
    ghost within: { size ≤ 65536 },
    ghost idle: { size ≡ 0 → at ≡ 0 },
    ghost fits: { at + size < 2 ^ 64 },
}

impl Batch {
    ghost use Rattle.gaz_redo.specs.Batch.{held, GoesOn, TakesIn, laid_over, once_out, InRangeOf, writes_with};

    /// Nothing, at the start of this area.
    pub fn new(area: Area) -> Self
        ensures held { held result ≡ [] }
        ensures area { result.area ≡ area }
        ensures at { result.at ≡ 0 }
    {
        Batch {
            bytes: [0; 65536],
            size: 0,
            area,
            at: 0,
        }
    }

    /// Takes in bytes that are to stand in the area from `at` on. They go out with those that are held where they stand right
    /// behind these and have room; else these are written first.
    pub fn put<T: Station>(
        &mut self,
        station: &mut T,
        area: Area,
        at: u64,
        bytes: &[u8],
    ) -> Result<(), Failed>
        requires some { 0 < length bytes.now }
        requires most { length bytes.now ≤ 65536 }
        requires fits { at + length bytes.now < 2 ^ 64 }
        ensures takes { OnOk result (TakesIn self.old self.new area at bytes.now) }
        ensures placed { OnOk result (IsTrue (T.view station.old).is_told → (a : Area) → once_out self.new (T.view station.new).bytes a ≡ laid_over area at bytes.now (once_out self.old (T.view station.old).bytes) a) }
        ensures confined { IsTrue (T.view station.old).is_told → Confined (InRangeOf self.old) (T.view station.old) (T.view station.new) }
        ensures waits { GoesOn self.old area at (length bytes.now) → (T.view station.new).writes ≡ (T.view station.old).writes }
        ensures counts { Counts 0 (pieces (length (held self.old))) (T.view station.old) (T.view station.new) }
        ensures writes { OnOk result (writes_with self.new (T.view station.new) ≤ writes_with self.old (T.view station.old) + pieces (length bytes.now)) }
        ensures cause { HasCause (T.view station.old).faults (T.view station.new).faults result }
    {
        if self.goes_on(area, at, bytes.len()) {
            self.push(bytes);
            return Ok(());
        }
        self.write_out(station)?;
        self.begin(area, at, bytes);
        Ok(())
    }

    /// Writes what is held.
    pub fn write_out<T: Station>(&self, station: &mut T) -> Result<(), Failed>
        ensures placed { OnOk result (IsTrue (T.view station.old).is_told → (a : Area) → (T.view station.new).bytes a ≡ once_out self.now (T.view station.old).bytes a) }
        ensures confined { IsTrue (T.view station.old).is_told → Confined (InRangeOf self.now) (T.view station.old) (T.view station.new) }
        ensures counts { Counts 0 (pieces (length (held self.now))) (T.view station.old) (T.view station.new) }
        ensures cause { HasCause (T.view station.old).faults (T.view station.new).faults result }
    {
        if self.size == 0 {
            return Ok(());
        }
        station.write_at(self.area, self.at, &self.bytes[..self.size])
    }

    /// So many bytes from there on stand right behind those that are held, and have room.
    fn goes_on(&self, area: Area, at: u64, size: usize) -> bool
        requires { size ≤ 65536 }
        ensures { IsTrue result ↔ GoesOn self.now area at size }
    {
        self.area == area && self.at + self.size as u64 == at && self.size + size <= MOST
    }

    /// Holds these bytes behind the others.
    fn push(&mut self, bytes: &[u8])
        requires room { length (held self.old) + length bytes.now ≤ 65536 }
        requires fits { self.old.at + length (held self.old) + length bytes.now < 2 ^ 64 }
        ensures held { held self.new ≡ held self.old ++ bytes.now }
        ensures area { self.new.area ≡ self.old.area }
        ensures at { self.new.at ≡ self.old.at }
    {
        let end = self.size + bytes.len();
        self.bytes[self.size..end].copy_from_slice(bytes);
        self.size = end;
    }

    /// Holds these bytes alone.
    fn begin(&mut self, area: Area, at: u64, bytes: &[u8])
        requires some { 0 < length bytes.now }
        requires room { length bytes.now ≤ 65536 }
        requires fits { at + length bytes.now < 2 ^ 64 }
        ensures held { held self.new ≡ bytes.now }
        ensures area { self.new.area ≡ area }
        ensures at { self.new.at ≡ at }
    {
        let end = bytes.len();
        self.bytes[0..end].copy_from_slice(bytes);
        self.size = end;
        self.area = area;
        self.at = at;
    }
}
