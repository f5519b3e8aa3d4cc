//! The law that joins `serve` and the law of lives. To call it is to know it; it does nothing.
ghost use Rattle.std.specs.Prelude.{◌≡◌, ℕ, List, Some, IsTrue};
ghost use Rattle.gaz_outside.specs.Outside.{left_of};
ghost use Rattle.gaz_num.specs.Pieces.{lines_within};
ghost use Rattle.gaz_turns.specs.Life.{KeepsAny};
ghost use Rattle.gaz_serve.specs.Ran.{ServeRan};

use gaz_outside::{Shelf, Source, Station};

/// A run of `serve` over a source, a shelf and a station that tell what they have keeps what it finds. So where each run of a
/// life is one of `serve`, `gaz_turns::lives` says how they go on from one another.
pub fn served_runs_keep<S: Source, F: Shelf, T: Station>()
    ensures law { (old_source new_source : S) (old_shelf new_shelf : F) (old_station new_station : T) (status : ℕ) (bytes : List ℕ)
        → IsTrue (F.view old_shelf).is_told → left_of (S.view old_source) ≡ Some bytes → IsTrue (T.view old_station).is_told
        → ServeRan S.view F.view T.view old_source new_source old_shelf new_shelf old_station new_station status
        → KeepsAny T.view (record { shelf = F.view old_shelf; shelf_now = F.view new_shelf; lines = lines_within bytes; entry = old_station; exit = new_station; status = status }) }
{}
