//! What a station in memory keeps of its calls.
ghost use Rattle.std.specs.Prelude.{◌≡◌};

use crate::Area;
use crate::areas::Areas;

/// A call that succeeded, or what a stop had left.
#[derive(Drop)]
pub(crate) enum Event {
    /// What a stop had left, before the first call.
    Began(Areas, Vec<u8>),
    /// These bytes, at this place of the area.
    Wrote(Area, u64, Vec<u8>),
    /// This area.
    Synced(Area),
    /// This piece.
    Printed(Vec<u8>),
}

impl Event {
    ghost use Rattle.gaz_outside.specs.Stopped.{syncs};

    /// Whether it's a sync of the area.
    pub(crate) fn syncs(&self, area: Area) -> bool
        ensures { result ≡ syncs self.now area }
    {
        match self {
            Event::Synced(synced) => synced.place() == area.place(),
            _ => false,
        }
    }
}
