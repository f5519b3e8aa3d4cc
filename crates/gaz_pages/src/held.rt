//! The next page of an area with changed pages laid over: what the pages of a day and of a load have in common.
ghost use Rattle.std.specs.Prelude.{◌≡◌, ℕ, List, IsTrue, IfOk};
ghost use Rattle.gaz_outside.specs.Outside.{HasCause};
ghost use Rattle.gaz_outside.specs.Station.{Counts as StationCounts};
ghost use Rattle.gaz_page.specs.Free.{free_link};
ghost use Rattle.gaz_page.specs.Pages.{Takes, IsDamaged, damage, Counts, HasPageCause};
ghost use Rattle.gaz_pages.specs.Areas.{side_area};
ghost use Rattle.gaz_pages.specs.Keeps.{OnlyReads};
ghost use Rattle.gaz_pages.specs.Laid.{imaged};
ghost use Rattle.gaz_pages.specs.Views.{all_images, held_view, StillChanged};

use crate::{Changed, area_of};
use gaz_framed::PagedStation;
use gaz_outside::Failed;
use gaz_page::{PageFault, Side, read_free};
use gaz_redo::Home;

/// The page to which a free page links. `None` where it isn't a free page in form.
fn link_of<T: PagedStation>(
    station: &mut T,
    changed: &Changed,
    side: Side,
    page: u32,
) -> Result<Option<u32>, Failed>
    ensures link { IfOk result (λ link. IsTrue (T.view station.old).is_told
        → link ≡ free_link page (imaged (side_area side) (all_images changed.now) ((T.view station.old).bytes (side_area side)) page)) }
    ensures reads { OnlyReads (T.view station.old) (T.view station.new) }
    ensures counts { StationCounts 1 0 (T.view station.old) (T.view station.new) }
    ensures cause { HasCause (T.view station.old).faults (T.view station.new).faults result }
{
    let area = area_of(side);
    let home = Home { area, page };
    if changed.has(home) {
        return Ok(read_free(page, changed.image(home)));
    }
    match station.load(side, page) {
        Ok(()) => Ok(read_free(page, station.loaded())),
        Err(failed) => Err(failed),
    }
}

/// Takes a page: the first free one, else the least that was never taken.
#[tactic(auto, unfolding(gaz_page::specs::Pages::damage))]
pub(crate) fn take<T: PagedStation>(
    station: &mut T,
    changed: &mut Changed,
    side: Side,
) -> Result<u32, PageFault>
    ensures taken { IfOk result (λ page. IsTrue (T.view station.old).is_told → Takes (held_view (side_area side) changed.old (T.view station.old)) (held_view (side_area side) changed.new (T.view station.new)) page) }
    ensures damaged { IsTrue (T.view station.old).is_told → IsDamaged (damage (held_view (side_area side) changed.old (T.view station.old))) result }
    ensures counts { Counts 1 1 (held_view (side_area side) changed.old (T.view station.old)) (held_view (side_area side) changed.new (T.view station.new)) }
    ensures cause { HasPageCause (held_view (side_area side) changed.old (T.view station.old)) (held_view (side_area side) changed.new (T.view station.new)) result }
    ensures reads { OnlyReads (T.view station.old) (T.view station.new) }
    ensures still { (before : ℕ) (file : List ℕ) → StillChanged (side_area side) before changed.old changed.new file }
{
    let page = changed.free;
    if page == 0 {
        return changed.take_fresh(area_of(side));
    }
    match link_of(station, changed, side, page) {
        Ok(Some(link)) => {
            changed.free = link;
            Ok(page)
        }
        Ok(None) => Err(PageFault::Damaged(page)),
        Err(_) => Err(PageFault::Failed),
    }
}
