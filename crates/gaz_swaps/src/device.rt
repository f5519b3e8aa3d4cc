//! A station in memory that tells nothing, so that nothing has to be proved of it where it is used.
ghost use Rattle.std.specs.Prelude.{◌≡◌, ◌≤◌, ◌<◌, ◌^◌};
ghost use Rattle.gaz_outside.specs.Outside.{RisesOnce};
ghost use Rattle.gaz_outside.specs.Untold.{untold_station, not_told};

use crate::stopped::{Stopped, had};
use gaz_framed::Framed;
use gaz_outside::{Area, Failed, MemStation, Station};
use std::alloc::Global;

/// A station in memory, of which one call may fail, or all from one on.
#[derive(Drop)]
pub struct Device {
    inner: MemStation,
    /// How many calls are made up to the one that fails, that one counted; 0 where none does.
    fails_in: u64,
    faults: u64,
    ghost fits: { faults < 2 ^ 64 },
}

impl Device {
    /// A device with nothing on it.
    pub fn new(alloc: Global) -> Device {
        Device {
            inner: MemStation::new(alloc, Vec::new(alloc)),
            fails_in: 0,
            faults: 0,
        }
    }

    /// From so many calls on, every call fails and changes nothing.
    pub fn stop_after(&mut self, calls: u64) {
        self.inner.stop_after(calls);
    }

    /// Of the calls from now on, counted from 1, the one with this number fails and changes nothing.
    pub fn fail_at(&mut self, call: u64) {
        self.fails_in = call;
    }

    /// Whether the call that fails is still to come.
    pub fn is_to_fail(&self) -> bool {
        self.fails_in != 0
    }

    /// The device that a stop leaves now: of the writes that no sync followed the first `keep` are whole, the next one's range holds `fill`,
    /// and the later ones aren't there.
    pub fn after_stop(&self, keep: u64, fill: u8) -> Result<Device, Stopped> {
        let inner = had(self.inner.after_stop(keep, fill))?;
        Ok(Device {
            inner,
            fails_in: 0,
            faults: 0,
        })
    }

    /// What the area reads.
    pub fn area(&self, area: Area) -> &[u8] {
        self.inner.area(area)
    }

    /// Whether every call found memory.
    pub fn is_fed(&self) -> bool {
        self.inner.starved() == 0
    }

    /// Counts a call, and answers whether it is the one that fails.
    fn is_due(&mut self) -> bool
        ensures { self.new.faults ≡ self.old.faults }
    {
        let is_due = self.fails_in == 1;
        self.fails_in = self.fails_in.saturating_sub(1);
        is_due
    }

    fn fault(&mut self) -> Failed
        ensures later { self.old.faults ≤ self.new.faults }
        ensures rose { RisesOnce self.old.faults self.new.faults }
    {
        self.faults = self.faults.saturating_add(1);
        Failed
    }
}

/// The device with eight frames, all empty.
pub fn framed(alloc: Global, device: Device) -> Result<Framed<Device>, Stopped> {
    had(Framed::new(alloc, device))
}

/// The device that a stop leaves now, as `Device::after_stop`, with eight frames.
pub fn left_by_stop(
    alloc: Global,
    device: &Device,
    keep: u64,
    fill: u8,
) -> Result<Framed<Device>, Stopped> {
    framed(alloc, device.after_stop(keep, fill)?)
}

#[tactic(auto, unfolding(gaz_outside::specs::Outside::printed_of))]
impl Station for Device {
    ghost view = { λ s. untold_station s.faults };

    ghost counts_now = { λ s t c told le now. absurd (not_told told) };

    ghost only_now = { λ s c told left. absurd (not_told told) };

    ghost may_stay = { λ s a told. absurd (not_told told) };

    ghost faults_fit = { λ s. s.fits };

    fn len(&mut self, area: Area) -> Result<u64, Failed> {
        if self.is_due() {
            return Err(self.fault());
        }
        match self.inner.len(area) {
            Ok(n) => Ok(n),
            Err(_) => Err(self.fault()),
        }
    }

    fn read_at(&mut self, area: Area, at: u64, buf: &mut [u8]) -> Result<usize, Failed> {
        if self.is_due() {
            return Err(self.fault());
        }
        match self.inner.read_at(area, at, buf) {
            Ok(n) => Ok(n),
            Err(_) => Err(self.fault()),
        }
    }

    fn write_at(&mut self, area: Area, at: u64, bytes: &[u8]) -> Result<(), Failed> {
        if self.is_due() {
            return Err(self.fault());
        }
        match self.inner.write_at(area, at, bytes) {
            Ok(()) => Ok(()),
            Err(_) => Err(self.fault()),
        }
    }

    fn sync(&mut self, area: Area) -> Result<(), Failed> {
        if self.is_due() {
            return Err(self.fault());
        }
        match self.inner.sync(area) {
            Ok(()) => Ok(()),
            Err(_) => Err(self.fault()),
        }
    }

    fn print(&mut self, piece: &[u8]) -> Result<(), Failed> {
        if self.is_due() {
            return Err(self.fault());
        }
        match self.inner.print(piece) {
            Ok(()) => Ok(()),
            Err(_) => Err(self.fault()),
        }
    }
}
