//! Pages of a device, read and written one at a time.
ghost use Rattle.std.specs.Prelude.{◌≡◌, ◌*◌, ◌-◌, ◌≤◌, ◌++◌, take, replicate, length, IsTrue, IfOk, OnOk};
ghost use Rattle.gaz_outside.specs.Outside.{HasCause};
ghost use Rattle.gaz_outside.specs.Station.{Counts, Writes, overlaid};
ghost use Rattle.gaz_page.specs.Area.{page_at};
ghost use Rattle.gaz_pool.specs.Keeps.{OnlyReads};
ghost use Rattle.gaz_pool.specs.Sides.{side_area};

use crate::frame::{Frame, area_of};
use gaz_outside::{Failed, Station};
use gaz_page::{PAGE, Side};

/// Writes zeros from a place on.
fn clear(buf: &mut [u8], from: usize)
    requires { from ≤ length buf.old }
    ensures { buf.new ≡ take from buf.old ++ replicate (length buf.old - from) 0 }
{
    buf[from..].fill(0);
}

/// The page of a side, with zeros behind the area's end.
pub(crate) fn read_page<T: Station>(
    station: &mut T,
    side: Side,
    page: u32,
) -> Result<[u8; PAGE], Failed>
    ensures bytes { IfOk result (λ bytes. IsTrue (T.view station.old).is_told → bytes ≡ page_at ((T.view station.old).bytes (side_area side)) page) }
    ensures reads { OnlyReads (T.view station.old) (T.view station.new) }
    ensures counts { Counts 1 0 (T.view station.old) (T.view station.new) }
    ensures cause { HasCause (T.view station.old).faults (T.view station.new).faults result }
{
    let mut bytes = [0; PAGE];
    match station.read_at(area_of(side), PAGE as u64 * page as u64, &mut bytes) {
        Ok(n) => {
            clear(&mut bytes, n);
            Ok(bytes)
        }
        Err(failed) => Err(failed),
    }
}

/// Writes what a frame holds in its place.
pub(crate) fn write_page<T: Station>(station: &mut T, frame: &Frame) -> Result<(), Failed>
    ensures size { length frame.now.bytes ≡ 4096 }
    ensures written { OnOk result (IsTrue (T.view station.old).is_told → (T.view station.new).bytes (side_area frame.now.side) ≡ overlaid ((T.view station.old).bytes (side_area frame.now.side)) (4096 * frame.now.page) frame.now.bytes) }
    ensures changed { IsTrue (T.view station.old).is_told → Writes (side_area frame.now.side) (4096 * frame.now.page) 4096 (T.view station.old) (T.view station.new) }
    ensures counts { Counts 0 1 (T.view station.old) (T.view station.new) }
    ensures cause { HasCause (T.view station.old).faults (T.view station.new).faults result }
{
    station.write_at(
        area_of(frame.side),
        PAGE as u64 * frame.page as u64,
        &frame.bytes,
    )
}
