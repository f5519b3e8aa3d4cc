//! The law of lives. To call it is to know it; it does nothing.
ghost use Rattle.std.specs.Prelude.{IsTrue};
ghost use Rattle.gaz_plain.specs.Gazetteer.{Gazetteer, empty};
ghost use Rattle.gaz_rows.specs.Holds.{AllHold};
ghost use Rattle.gaz_turns.specs.Steps.{RunKeeps};
ghost use Rattle.gaz_turns.specs.Life.{Run, KeepsAny, Life, Follows, BeginsEmpty, AllKeep, GoesOn};

use gaz_outside::Station;

/// Where each run of a life keeps what it finds, each later run begins with the gazetteer of the run before,
/// changed by its first accepted changes: as many as it acknowledged, or one more. It holds of every life on every station.
/// And a run that meets the clause of the top call keeps what it finds.
pub fn lives<T: Station>()
    ensures law { (life : Life T) (follows : Follows T.view life) → BeginsEmpty T.view life → AllKeep T.view life → GoesOn T.view empty life follows }
    ensures runs { (run : Run T) → IsTrue (T.view run.exit).is_told
        → ((gaz : Gazetteer) → AllHold (T.view run.entry) gaz → RunKeeps run.shelf run.shelf_now run.lines (record { gaz = gaz }) (T.view run.entry) (T.view run.exit) run.status)
        → KeepsAny T.view run }
{}
