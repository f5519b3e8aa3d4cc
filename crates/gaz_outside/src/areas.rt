//! Five areas in memory.
ghost use Rattle.std.specs.Prelude.{◌≡◌, ◌≢◌, ◌+◌, ◌^◌, ◌-◌, ◌<◌, ◌≤◌, [], ◌++◌, replicate, take, drop, length, IfOk, OnOk, OnErr};
ghost use Rattle.gaz_outside.specs.declared.station.Area.{Area};
ghost use Rattle.gaz_outside.specs.Station.{overlaid};
ghost use Rattle.gaz_outside.specs.Events.{area_bytes};

use crate::Area;
use std::alloc::{AllocError, Global};

/// The bytes of each area.
#[derive(Drop)]
pub(crate) struct Areas {
    pub(crate) mark: Vec<u8>,
    pub(crate) log: Vec<u8>,
    pub(crate) root: Vec<u8>,
    pub(crate) left: Vec<u8>,
    pub(crate) right: Vec<u8>,
}

impl Areas {
    /// Five empty areas.
    pub(crate) fn new(alloc: Global) -> Self
        ensures { (a : Area) → area_bytes result a ≡ [] }
    {
        Areas {
            mark: Vec::new(alloc),
            log: Vec::new(alloc),
            root: Vec::new(alloc),
            left: Vec::new(alloc),
            right: Vec::new(alloc),
        }
    }

    /// A copy.
    pub(crate) fn copy(&self, alloc: Global) -> Result<Self, AllocError>
        ensures { IfOk result (λ copy. (a : Area) → area_bytes copy a ≡ area_bytes self.now a) }
    {
        Ok(Areas {
            mark: self.mark.to_vec(alloc)?,
            log: self.log.to_vec(alloc)?,
            root: self.root.to_vec(alloc)?,
            left: self.left.to_vec(alloc)?,
            right: self.right.to_vec(alloc)?,
        })
    }

    /// The bytes of an area.
    pub(crate) fn get(&self, area: Area) -> &[u8]
        ensures { result.now ≡ area_bytes self.now area }
    {
        match area {
            Area::Mark => &self.mark,
            Area::Log => &self.log,
            Area::Root => &self.root,
            Area::Left => &self.left,
            Area::Right => &self.right,
        }
    }

    /// Puts bytes into an area. An `Err` changes nothing.
    pub(crate) fn put(&mut self, area: Area, at: u64, bytes: &[u8]) -> Result<(), AllocError>
        requires { at + length bytes.now < 2 ^ 64 }
        ensures ok { OnOk result (area_bytes self.new area ≡ overlaid (area_bytes self.old area) at bytes.now) }
        ensures others { OnOk result ((a : Area) → a ≢ area → area_bytes self.new a ≡ area_bytes self.old a) }
        ensures err { OnErr result ((a : Area) → area_bytes self.new a ≡ area_bytes self.old a) }
    {
        match area {
            Area::Mark => overlay(&mut self.mark, at, bytes),
            Area::Log => overlay(&mut self.log, at, bytes),
            Area::Root => overlay(&mut self.root, at, bytes),
            Area::Left => overlay(&mut self.left, at, bytes),
            Area::Right => overlay(&mut self.right, at, bytes),
        }
    }
}

/// Puts bytes at an offset, and zeros into a gap before them.
fn overlay(file: &mut Vec<u8>, at: u64, bytes: &[u8]) -> Result<(), AllocError>
    requires { at + length bytes.now < 2 ^ 64 }
    ensures ok { OnOk result (file.new.items ≡ overlaid file.old.items at bytes.now) }
    ensures err { OnErr result (file.new.items ≡ file.old.items) }
{
    let from = at as usize;
    let to = from + bytes.len();
    grow(file, to)?;
    replace(file, from, bytes);
    Ok(())
}

/// Puts zeros behind a file up to a length.
fn grow(file: &mut Vec<u8>, to: usize) -> Result<(), AllocError>
    ensures ok { OnOk result (file.new.items ≡ file.old.items ++ replicate (to - length file.old.items) 0) }
    ensures err { OnErr result (file.new.items ≡ file.old.items) }
{
    if to > file.len() {
        file.resize(to, 0)?;
    }
    Ok(())
}

/// Replaces a range.
fn replace(file: &mut [u8], at: usize, bytes: &[u8])
    requires { at + length bytes.now ≤ length file.old }
    ensures { file.new ≡ take at file.old ++ bytes.now ++ drop (at + length bytes.now) file.old }
{
    file[at..at + bytes.len()].copy_from_slice(bytes);
}
