//! The committed pages of a mirror.
ghost use Rattle.std.specs.Prelude.{◌≡◌, true, false};

use crate::Extent;
use gaz_framed::PagedStation;
use gaz_page::{PageFault, Pages, Root};

/// The committed pages of a mirror, which can't be changed: `new` makes them read only, and a change of others is refused for want of
/// memory, since they hold none for it.
#[derive(Drop)]
pub struct LivePages<'a, T> {
    station: &'a mut T,
    /// The pages that the mirror's root names.
    extent: Extent,
    read_only: bool,
    /// Whether memory was wanting.
    starved: bool,
}

impl<'a, T: PagedStation> LivePages<'a, T> {
    ghost use Rattle.gaz_pages.specs.Extent.{extent_of};

    /// The pages that the mirror's root names, as the station has them.
    pub fn new(station: &'a mut T, root: Root) -> LivePages<'a, T>
        ensures station { result.station.ghost_name ≡ station.entry.ghost_name }
        ensures station_now { result.station.now ≡ station.old }
        ensures extent { result.extent ≡ extent_of root }
        ensures read_only { result.read_only ≡ true }
        ensures ample { result.starved ≡ false }
    {
        LivePages {
            station,
            extent: Extent::of(&root),
            read_only: true,
            starved: false,
        }
    }
}

impl<'a, T: PagedStation> Pages for LivePages<'a, T> {
    ghost use Rattle.std.specs.Prelude.{◌≡◌, refl};
    ghost use Rattle.std.proofs.Common.{◌∙◌};
    ghost use Rattle.gaz_page.specs.Area.{length-page_at};
    ghost use Rattle.gaz_pages.specs.Areas.{side_area};
    ghost use Rattle.gaz_pages.specs.Views.{live_view};
    ghost use Rattle.gaz_pages.specs.Keeps.{OnlyReads};
    ghost use Rattle.gaz_pages.specs.Reads.{only_reads_start, only_reads_on};

    ghost view = { λ s. live_view s.extent s.read_only s.starved (T.view s.station.now) };

    ghost keeps = { λ old new. (new.station.ghost_name ≡ old.station.ghost_name) × (new.extent ≡ old.extent) × OnlyReads (T.view old.station.now) (T.view new.station.now) };

    ghost sizes = { λ s n. length-page_at ((T.view s.station.now).bytes (side_area s.extent.side)) n };

    ghost faults_fit = { λ s. T.faults_fit s.station.now };

    ghost keeps_same = { λ s. (refl, refl, only_reads_start (T.view s.station.now) (λ told c left. T.only_now s.station.now c told left)) };

    ghost keeps_on = { λ a b c first second. (second.0 ∙ first.0, second.1 ∙ first.1, only_reads_on (T.view a.station.now) (T.view b.station.now) (T.view c.station.now) first.2 second.2) };

    fn read(&mut self, page: u32) -> Result<&[u8], PageFault> {
        match self.station.load(self.extent.side, page) {
            Ok(()) => Ok(self.station.loaded()),
            Err(_) => Err(PageFault::Failed),
        }
    }

    fn write(&mut self, _page: u32, _bytes: &[u8]) -> Result<(), PageFault> {
        self.starved = true;
        Err(PageFault::Memory)
    }

    fn take(&mut self) -> Result<u32, PageFault> {
        self.starved = true;
        Err(PageFault::Memory)
    }

    fn give(&mut self, _page: u32) -> Result<(), PageFault> {
        self.starved = true;
        Err(PageFault::Memory)
    }
}
