//! What stops may leave of writes and syncs, over any station, and that a torn write may leave no less than is said here.
ghost use Rattle.std.specs.Prelude.{◌≡◌, ◌≢◌, ◌≤◌, ◌<◌, ◌+◌, ◌^◌, ◌++◌, ℕ, List, length, take, IsTrue, OnOk};
ghost use Rattle.gaz_outside.specs.declared.station.Area.{Area};
ghost use Rattle.gaz_outside.specs.Outside.{HasCause};
ghost use Rattle.gaz_outside.specs.Station.{Outcome, Torn, OnlyIn, TornInTwo, Confined, AreaStays, IsStable, overlaid};

use crate::{Area, Failed, Station};

/// After a write of `n` bytes at `at` that was cut short, a file may be as before; it may have any bytes in any part of
/// the range; it may have any end between the old one and that of a whole write, with any bytes past the old one; and
/// these come together: the front of one torn file, up to any place past the old end, is one.
pub fn torn_writes()
    ensures none { (at n : ℕ) (file : List ℕ) → Torn at n file file }
    ensures fills { (at n from : ℕ) (file fill : List ℕ) → at ≤ from → from + length fill ≤ at + n → Torn at n file (overlaid file from fill) }
    ensures tails { (at n : ℕ) (file tail : List ℕ) → length file + length tail ≤ at + n → Torn at n file (file ++ tail) }
    ensures ends { (at n end : ℕ) (file torn : List ℕ) → length file ≤ end → Torn at n file torn → Torn at n file (take end torn) }
{}

/// A write that is synced: from then on a stop leaves of the area the new bytes and nothing else, until it's written again.
pub fn write_and_sync<T: Station>(
    station: &mut T,
    area: Area,
    at: u64,
    bytes: &[u8],
) -> Result<(), Failed>
    requires { at + length bytes.now < 2 ^ 64 }
    ensures written { OnOk result (IsTrue (T.view station.old).is_told → (T.view station.new).bytes area ≡ overlaid ((T.view station.old).bytes area) at bytes.now) }
    ensures stable { OnOk result (IsTrue (T.view station.old).is_told → IsStable (T.view station.new) area) }
    ensures later { OnOk result (IsTrue (T.view station.old).is_told → (c : Outcome) → (T.view station.new).left_since (T.view station.new).moment c → c.areas area ≡ overlaid ((T.view station.old).bytes area) at bytes.now) }
    // So it is after later calls too, as long as they leave the area.
    ensures outlives { OnOk result (IsTrue (T.view station.old).is_told → (later : T) → AreaStays (T.view station.new) (T.view later) area
        → IsStable (T.view later) area × ((T.view later).bytes area ≡ overlaid ((T.view station.old).bytes area) at bytes.now)) }
    ensures others { IsTrue (T.view station.old).is_told → (a : Area) → a ≢ area → AreaStays (T.view station.old) (T.view station.new) a }
    // Also where a call fails, and at each moment of both.
    ensures confined { IsTrue (T.view station.old).is_told → Confined (OnlyIn area (Torn at (length bytes.now))) (T.view station.old) (T.view station.new) }
    ensures cause { HasCause (T.view station.old).faults (T.view station.new).faults result }
{
    match station.write_at(area, at, bytes) {
        Ok(()) => station.sync(area),
        Err(failed) => Err(failed),
    }
}

/// A write that isn't synced: a stop then leaves of the area an earlier outcome, torn in the range, and of the others theirs.
pub fn write_unsynced<T: Station>(
    station: &mut T,
    area: Area,
    at: u64,
    bytes: &[u8],
) -> Result<(), Failed>
    requires { at + length bytes.now < 2 ^ 64 }
    ensures written { OnOk result (IsTrue (T.view station.old).is_told → (T.view station.new).bytes area ≡ overlaid ((T.view station.old).bytes area) at bytes.now) }
    ensures torn { IsTrue (T.view station.old).is_told → (c : Outcome) → (T.view station.new).left_since (T.view station.new).moment c → (d : List ℕ) × (T.view station.old).may_leave area d × Torn at (length bytes.now) d (c.areas area) }
    ensures others { IsTrue (T.view station.old).is_told → (c : Outcome) → (T.view station.new).left_since (T.view station.new).moment c → (a : Area) → a ≢ area → (T.view station.old).may_leave a (c.areas a) }
    // Also at each moment of the call.
    ensures confined { IsTrue (T.view station.old).is_told → Confined (OnlyIn area (Torn at (length bytes.now))) (T.view station.old) (T.view station.new) }
    ensures cause { HasCause (T.view station.old).faults (T.view station.new).faults result }
{
    station.write_at(area, at, bytes)
}

/// Writes to two areas: a stop at any moment of both leaves of each an earlier outcome, or one that is torn in its range,
/// and of the other areas theirs.
pub fn write_two<T: Station>(
    station: &mut T,
    first: Area,
    at: u64,
    bytes: &[u8],
    second: Area,
    from: u64,
    more: &[u8],
) -> Result<(), Failed>
    requires areas { first ≢ second }
    requires first { at + length bytes.now < 2 ^ 64 }
    requires second { from + length more.now < 2 ^ 64 }
    ensures first_written { OnOk result (IsTrue (T.view station.old).is_told → (T.view station.new).bytes first ≡ overlaid ((T.view station.old).bytes first) at bytes.now) }
    ensures second_written { OnOk result (IsTrue (T.view station.old).is_told → (T.view station.new).bytes second ≡ overlaid ((T.view station.old).bytes second) from more.now) }
    ensures confined { IsTrue (T.view station.old).is_told → Confined (TornInTwo first at (length bytes.now) second from (length more.now)) (T.view station.old) (T.view station.new) }
    ensures cause { HasCause (T.view station.old).faults (T.view station.new).faults result }
{
    match station.write_at(first, at, bytes) {
        Ok(()) => station.write_at(second, from, more),
        Err(failed) => Err(failed),
    }
}
