//! The table, printed.
ghost use Rattle.std.specs.Prelude.{◌≡◌, ◌≤◌};
ghost use Rattle.gaz_outside.specs.Outside.{HasCause, Prints};
ghost use Rattle.gaz_outside.specs.Station.{AreasStay};
ghost use Rattle.gaz_make.specs.Made.{made_table};

use crate::chunk::Chunk;
use crate::rows::{CHUNK_ROWS, Rows};
use gaz_outside::{Failed, Station};

/// Prints the made table of a start, many rows at a time.
pub fn make<T: Station>(station: &mut T, start: u64, rows: u32) -> Result<(), Failed>
    requires { rows ≤ 1000000 }
    ensures printed { Prints (made_table start rows) (T.view station.old) (T.view station.new) result }
    ensures told { (T.view station.new).is_told ≡ (T.view station.old).is_told }
    ensures areas { AreasStay (T.view station.old) (T.view station.new) }
    ensures cause { HasCause (T.view station.old).faults (T.view station.new).faults result }
{
    let mut chunk = Chunk::new();
    let mut made = Rows::new(start);
    while made.done() < rows {
        chunk.clear();
        made.fill(&mut chunk, CHUNK_ROWS.min(rows - made.done()));
        station.print(chunk.text())?;
    }
    Ok(())
}
