//! What a station promises that holds pages in memory.
ghost use Rattle.std.specs.Prelude.{◌≡◌, ◌≤◌, ◌<◌, ℕ, List, [], IsTrue, OnOk, OnErr, length};
ghost use Rattle.gaz_outside.specs.Outside.{HasCause};
ghost use Rattle.gaz_outside.specs.Station.{Counts};
ghost use Rattle.gaz_page.specs.Area.{page_at};
ghost use Rattle.gaz_pool.specs.Keeps.{OnlyReads};
ghost use Rattle.gaz_pool.specs.Numbers.{page_number};
ghost use Rattle.gaz_pool.specs.Sides.{side_area};
ghost use Rattle.gaz_pool.specs.Table.{Has};
ghost use Rattle.gaz_framed.specs.Held.{IsAddedTo, TakesPlaceIn};

use gaz_outside::{Failed, Station};
use gaz_page::Side;
use std::alloc::{AllocError, Global};

/// A station that holds pages of its two sides in memory, and hands them out there. It may give up a page that it holds at any other call.
pub trait PagedStation: Station {
    /// The page that was loaded last.
    ghost loaded_page: { Self → List ℕ };

    /// The pages that are held, by their numbers.
    ghost held: { Self → List ℕ };

    /// How many pages may be held.
    ghost room: { Self → ℕ };

    /// Reserves memory for so many pages, 8 to 65,536. None is held then. Where there is no memory all is as it was.
    fn reserve(&mut self, alloc: Global, pages: u32) -> Result<(), AllocError>
        requires enough { 8 ≤ pages }
        requires few { pages ≤ 65536 }
        ensures none { OnOk result (held self.new ≡ []) }
        ensures room { OnOk result (room self.new ≡ pages) }
        ensures reads { OnlyReads (Self.view self.old) (Self.view self.new) }
        ensures counts { Counts 0 0 (Self.view self.old) (Self.view self.new) }
        ensures faults { (Self.view self.new).faults ≡ (Self.view self.old).faults };

    /// Sees to it that the page is held, with zeros behind the area's end. `loaded` then hands it out. A page that is held costs no read, and
    /// one is given up only where as many are held as may be.
    fn load(&mut self, side: Side, page: u32) -> Result<(), Failed>
        ensures bytes { OnOk result (IsTrue (Self.view self.old).is_told → loaded_page self.new ≡ page_at ((Self.view self.old).bytes (side_area side)) page) }
        ensures kept { Has (held self.old) (page_number side page) → held self.new ≡ held self.old }
        ensures unread { Has (held self.old) (page_number side page) → Counts 0 0 (Self.view self.old) (Self.view self.new) }
        ensures added { OnOk result ((Has (held self.old) (page_number side page) → ⊥) → length (held self.old) < room self.old → IsAddedTo (held self.old) (page_number side page) (held self.new)) }
        ensures taken { OnOk result ((Has (held self.old) (page_number side page) → ⊥) → room self.old ≤ length (held self.old) → TakesPlaceIn (held self.old) (page_number side page) (held self.new)) }
        ensures failed { OnErr result (held self.new ≡ held self.old) }
        ensures room { room self.new ≡ room self.old }
        ensures reads { OnlyReads (Self.view self.old) (Self.view self.new) }
        ensures counts { Counts 1 0 (Self.view self.old) (Self.view self.new) }
        ensures cause { HasCause (Self.view self.old).faults (Self.view self.new).faults result };

    /// The page that was loaded last.
    fn loaded(&self) -> &[u8]
        ensures size { length result.now ≡ 4096 }
        ensures bytes { result.now ≡ loaded_page self.now };
}
