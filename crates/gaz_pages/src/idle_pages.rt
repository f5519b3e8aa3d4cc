//! The pages of the area that isn't in use.
ghost use Rattle.std.specs.Prelude.{◌≡◌, []};

use crate::held::take;
use crate::{Changed, area_of};
use gaz_framed::PagedStation;
use gaz_page::{PageFault, Pages, Side};
use gaz_redo::Home;

/// The pages of the area that the root doesn't name, or of Left where there is no root. None is taken at the start, and they stay in
/// memory until `Changed::finish` writes them.
#[derive(Drop)]
pub struct IdlePages<'a, T> {
    station: &'a mut T,
    side: Side,
    changed: &'a mut Changed,
}

impl<'a, T: PagedStation> IdlePages<'a, T> {
    ghost use Rattle.gaz_pages.specs.Areas.{side_area};

    /// No page is taken yet.
    pub fn new(station: &'a mut T, side: Side, changed: &'a mut Changed) -> IdlePages<'a, T>
        requires untaken { (changed.old.fresh ≡ 1) × (changed.old.free ≡ 0) × (changed.old.images ≡ []) }
        ensures station { result.station.ghost_name ≡ station.entry.ghost_name }
        ensures changed { result.changed.ghost_name ≡ changed.entry.ghost_name }
        ensures station_now { result.station.now ≡ station.old }
        ensures changed_now { result.changed.now ≡ changed.old }
        ensures side { result.side ≡ side }
    {
        IdlePages {
            station,
            side,
            changed,
        }
    }
}

impl<'a, T: PagedStation> Pages for IdlePages<'a, T> {
    ghost use Rattle.std.specs.Prelude.{◌≡◌, refl, IsTrue};
    ghost use Rattle.std.proofs.Common.{◌∙◌};
    ghost use Rattle.gaz_pages.specs.Areas.{side_area};
    ghost use Rattle.gaz_pages.specs.Laid.{length-imaged};
    ghost use Rattle.gaz_pages.specs.Views.{held_view, all_images, StillChanged};
    ghost use Rattle.gaz_pages.specs.Reads.{only_reads_start, only_reads_on, still_changed_on};
    ghost use Rattle.gaz_pages.specs.Keeps.{OnlyReads};

    ghost view = { λ s. held_view (side_area s.side) s.changed.now (T.view s.station.now) };

    ghost keeps = { λ old new. (new.station.ghost_name ≡ old.station.ghost_name) × (new.side ≡ old.side) × (new.changed.ghost_name ≡ old.changed.ghost_name) × (IsTrue (T.view old.station.now).is_told → StillChanged (side_area old.side) 1 old.changed.now new.changed.now ((T.view old.station.now).bytes (side_area old.side))) × OnlyReads (T.view old.station.now) (T.view new.station.now) };

    ghost sizes = { λ s n. length-imaged (side_area s.side) (all_images s.changed.now) ((T.view s.station.now).bytes (side_area s.side)) n };

    ghost faults_fit = { λ s. T.faults_fit s.station.now };

    ghost keeps_same = { λ s. (refl, refl, refl, λ told are. are, only_reads_start (T.view s.station.now) (λ told c left. T.only_now s.station.now c told left)) };

    ghost keeps_on = { λ a b c first second. (
      second.0 ∙ first.0,
      second.1 ∙ first.1,
      second.2 ∙ first.2,
      still_changed_on a.side b.side 1 1 (T.view a.station.now) (T.view b.station.now) a.changed.now b.changed.now c.changed.now first.1 refl first.4 first.3 second.3,
      only_reads_on (T.view a.station.now) (T.view b.station.now) (T.view c.station.now) first.4 second.4,
    ) };

    fn read(&mut self, page: u32) -> Result<&[u8], PageFault> {
        let home = Home {
            area: area_of(self.side),
            page,
        };
        if self.changed.has(home) {
            return Ok(self.changed.image(home));
        }
        match self.station.load(self.side, page) {
            Ok(()) => Ok(self.station.loaded()),
            Err(_) => Err(PageFault::Failed),
        }
    }

    fn write(&mut self, page: u32, bytes: &[u8]) -> Result<(), PageFault> {
        let area = area_of(self.side);
        self.changed.put(Home { area, page }, bytes)
    }

    fn take(&mut self) -> Result<u32, PageFault> {
        take(self.station, self.changed, self.side)
    }

    fn give(&mut self, page: u32) -> Result<(), PageFault> {
        let area = area_of(self.side);
        self.changed.give(Home { area, page })
    }
}
