//! The committed pages with changed ones on top.
ghost use Rattle.std.specs.Prelude.{◌≡◌, Some, IsTrue};

use crate::held::take;
use crate::{Changed, Extent, area_of};
use gaz_framed::PagedStation;
use gaz_page::{PageFault, Pages, Root};
use gaz_redo::Home;

/// The committed pages of a mirror with changed ones on top, which stay in memory. Nothing is written to the device.
#[derive(Drop)]
pub struct DayPages<'a, T> {
    station: &'a mut T,
    /// The pages that the mirror's root names.
    extent: Extent,
    changed: &'a mut Changed,
}

impl<'a, T: PagedStation> DayPages<'a, T> {
    ghost use Rattle.gaz_pages.specs.Areas.{side_area};
    ghost use Rattle.gaz_pages.specs.Extent.{extent_of};
    ghost use Rattle.gaz_pages.specs.Views.{AreChanged};

    /// The pages that the mirror's root names, as the station has them, with these changed ones on top.
    pub fn new(station: &'a mut T, root: Root, changed: &'a mut Changed) -> DayPages<'a, T>
        requires changed { IsTrue (T.view station.old).is_told → AreChanged (side_area root.side) root.fresh changed.old ((T.view station.old).bytes (side_area root.side)) }
        ensures station { result.station.ghost_name ≡ station.entry.ghost_name }
        ensures changed { result.changed.ghost_name ≡ changed.entry.ghost_name }
        ensures station_now { result.station.now ≡ station.old }
        ensures changed_now { result.changed.now ≡ changed.old }
        ensures extent { result.extent ≡ extent_of root }
    {
        DayPages {
            station,
            extent: Extent::of(&root),
            changed,
        }
    }
}

impl<'a, T: PagedStation> Pages for DayPages<'a, T> {
    ghost use Rattle.std.specs.Prelude.{◌≡◌, refl, IsTrue, ◌++◌};
    ghost use Rattle.std.proofs.Common.{◌∙◌, ap};
    ghost use Rattle.gaz_pages.specs.Areas.{side_area};
    ghost use Rattle.gaz_pages.specs.Laid.{length-imaged};
    ghost use Rattle.gaz_pages.specs.Views.{held_view, all_images, StillChanged};
    ghost use Rattle.gaz_pages.specs.Reads.{only_reads_start, only_reads_on, still_changed_on, side_of_extent, fresh_of_extent};
    ghost use Rattle.gaz_pages.specs.Keeps.{OnlyReads};

    ghost view = { λ s. held_view (side_area s.extent.side) s.changed.now (T.view s.station.now) };

    ghost keeps = { λ old new. (new.station.ghost_name ≡ old.station.ghost_name) × (new.extent ≡ old.extent) × (new.changed.ghost_name ≡ old.changed.ghost_name) × (IsTrue (T.view old.station.now).is_told → StillChanged (side_area old.extent.side) old.extent.fresh old.changed.now new.changed.now ((T.view old.station.now).bytes (side_area old.extent.side))) × OnlyReads (T.view old.station.now) (T.view new.station.now) };

    ghost sizes = { λ s n. length-imaged (side_area s.extent.side) (all_images s.changed.now) ((T.view s.station.now).bytes (side_area s.extent.side)) n };

    ghost faults_fit = { λ s. T.faults_fit s.station.now };

    ghost keeps_same = { λ s. (refl, refl, refl, λ told are. are, only_reads_start (T.view s.station.now) (λ told c left. T.only_now s.station.now c told left)) };

    ghost keeps_on = { λ a b c first second. (
      second.0 ∙ first.0,
      second.1 ∙ first.1,
      second.2 ∙ first.2,
      still_changed_on a.extent.side b.extent.side a.extent.fresh b.extent.fresh (T.view a.station.now) (T.view b.station.now) a.changed.now b.changed.now c.changed.now (side_of_extent first.1) (fresh_of_extent first.1) first.4 first.3 second.3,
      only_reads_on (T.view a.station.now) (T.view b.station.now) (T.view c.station.now) first.4 second.4,
    ) };

    fn read(&mut self, page: u32) -> Result<&[u8], PageFault> {
        let home = Home {
            area: area_of(self.extent.side),
            page,
        };
        if self.changed.has(home) {
            return Ok(self.changed.image(home));
        }
        match self.station.load(self.extent.side, page) {
            Ok(()) => Ok(self.station.loaded()),
            Err(_) => Err(PageFault::Failed),
        }
    }

    fn write(&mut self, page: u32, bytes: &[u8]) -> Result<(), PageFault> {
        let area = area_of(self.extent.side);
        self.changed.put(Home { area, page }, bytes)
    }

    fn take(&mut self) -> Result<u32, PageFault> {
        take(self.station, self.changed, self.extent.side)
    }

    fn give(&mut self, page: u32) -> Result<(), PageFault> {
        let area = area_of(self.extent.side);
        self.changed.give(Home { area, page })
    }
}
