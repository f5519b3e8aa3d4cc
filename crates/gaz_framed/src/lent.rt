//! A station that is lent.
ghost use Rattle.std.specs.Prelude.{◌≡◌};

use gaz_outside::{Area, Failed, Station};

/// A station that is lent, as one: for who can't give it away to its frames.
#[derive(Drop)]
pub struct Lent<'a, T> {
    station: &'a mut T,
}

impl<'a, T: Station> Lent<'a, T> {
    /// The station as it is.
    pub fn new(station: &'a mut T) -> Self
        ensures lent { result.station.ghost_name ≡ station.entry.ghost_name }
        ensures now { result.station.now ≡ station.old }
    {
        Lent { station }
    }
}

impl<'a, T: Station> Station for Lent<'a, T> {
    ghost view = { λ s. T.view s.station.now };

    ghost counts_now = { λ s t c told le now. T.counts_now s.station.now t c told le now };

    ghost only_now = { λ s c told left. T.only_now s.station.now c told left };

    ghost may_stay = { λ s a told. T.may_stay s.station.now a told };

    ghost faults_fit = { λ s. T.faults_fit s.station.now };

    fn len(&mut self, area: Area) -> Result<u64, Failed> {
        self.station.len(area)
    }

    fn read_at(&mut self, area: Area, at: u64, buf: &mut [u8]) -> Result<usize, Failed> {
        self.station.read_at(area, at, buf)
    }

    fn write_at(&mut self, area: Area, at: u64, bytes: &[u8]) -> Result<(), Failed> {
        self.station.write_at(area, at, bytes)
    }

    fn sync(&mut self, area: Area) -> Result<(), Failed> {
        self.station.sync(area)
    }

    fn print(&mut self, piece: &[u8]) -> Result<(), Failed> {
        self.station.print(piece)
    }
}
