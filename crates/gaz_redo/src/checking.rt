//! Whether a log is in form.
ghost use Rattle.std.specs.Prelude.{◌≡◌, ◌+◌, ◌*◌, ◌^◌, ◌<◌, ◌≤◌, ◌&&◌, nat_le, ℕ, length, take, drop, slice_index, IsTrue, IfOk, IfSome};
ghost use Rattle.std.specs.Int.{w32, from_be_bytes};
ghost use Rattle.gaz_outside.specs.declared.station.Area.{Area};
ghost use Rattle.gaz_outside.specs.declared.station.Area.TheVariants.{Log};
ghost use Rattle.gaz_outside.specs.Outside.{HasCause};
ghost use Rattle.gaz_outside.specs.Station.{Counts, Confined};
ghost use Rattle.gaz_redo.specs.Slots.{IsHome, SameBytes};
ghost use Rattle.gaz_redo.specs.Content.{is_plain, area_of};
ghost use Rattle.gaz_redo.specs.Passes.{end_at, end_with, lies_before, slots_pass, count_in_header};
ghost use Rattle.gaz_redo.specs.Recovered.{Finds, CountsToCheck};

use crate::Home;
use crate::place::{HEAD, SLOT, area_code};
use gaz_outside::{Area, Failed, Station};
use gaz_page::PAGE;

/// Where the areas of images end.
#[derive(Clone, Copy)]
pub(crate) struct Ends {
    pub root: u64,
    pub left: u64,
    pub right: u64,
}

impl Ends {
    fn at(self, area: Area) -> u64
        ensures { result ≡ end_at self area }
    {
        match area {
            Area::Mark | Area::Log => 0,
            Area::Root => self.root,
            Area::Left => self.left,
            Area::Right => self.right,
        }
    }

    /// The same with one image more.
    fn with(self, home: Home) -> Ends
        ensures { (a : Area) → IsHome a → end_at result a ≡ end_with home (end_at self a) a }
    {
        let end = PAGE as u64 * home.page as u64 + PAGE as u64;
        match home.area {
            Area::Mark | Area::Log => self,
            Area::Root => Ends {
                root: self.root.max(end),
                left: self.left,
                right: self.right,
            },
            Area::Left => Ends {
                root: self.root,
                left: self.left.max(end),
                right: self.right,
            },
            Area::Right => Ends {
                root: self.root,
                left: self.left,
                right: self.right.max(end),
            },
        }
    }
}

/// Reads the head of a slot.
fn read_head<T: Station>(station: &mut T, at: u64) -> Result<[u8; 16], Failed>
    ensures head { IfOk result (λ h. IsTrue (T.view station.old).is_told → at + 16 ≤ length ((T.view station.old).bytes Log) → h ≡ take 16 (drop at ((T.view station.old).bytes Log))) }
    ensures stays { IsTrue (T.view station.old).is_told → Confined SameBytes (T.view station.old) (T.view station.new) }
    ensures counts { Counts 1 0 (T.view station.old) (T.view station.new) }
    ensures cause { HasCause (T.view station.old).faults (T.view station.new).faults result }
{
    let mut head = [0; 16];
    station.read_at(Area::Log, at, &mut head)?;
    Ok(head)
}

/// The home that a slot's head names.
pub(crate) fn home_in(head: &[u8]) -> Home
    requires { 16 ≤ length head.now }
    ensures area { result.area ≡ area_of (slice_index head.now 0) }
    ensures page { result.page ≡ from_be_bytes w32 (take 4 (drop 4 head.now)) }
{
    Home {
        area: match head[0] {
            2 => Area::Root,
            3 => Area::Left,
            _ => Area::Right,
        },
        page: u32::from_be_bytes([head[4], head[5], head[6], head[7]]),
    }
}

/// The fixed bytes are as they must be.
fn is_plain_head(head: &[u8; 16]) -> bool
    ensures { result ≡ is_plain head.now }
{
    head[0] >= 2
        && head[0] <= 4
        && head[1..4] == [0; 3]
        && head[8..16] == [0; 8]
        && (head[0] > 2 || u32::from_be_bytes([head[4], head[5], head[6], head[7]]) == 0)
}

/// The home comes behind the last one.
fn rises_to(last: Home, home: Home) -> bool
    ensures { result ≡ lies_before last home }
{
    let before = area_code(last.area);
    let now = area_code(home.area);
    before < now || (before == now && last.page < home.page)
}

/// A slot with this head may stand behind those so far.
fn is_next(head: &[u8; 16], home: Home, last: Home, ends: Ends) -> bool
    ensures { result ≡ (is_plain head.now && lies_before last home && nat_le (4096 * home.page) (end_at ends home.area)) }
{
    is_plain_head(head)
        && rises_to(last, home)
        && PAGE as u64 * home.page as u64 <= ends.at(home.area)
}

/// The slots have their fixed bytes, rise, and leave no gap behind these ends.
fn are_in_form<T: Station>(station: &mut T, count: u64, from: Ends) -> Result<bool, Failed>
    requires { count < 2 ^ 52 }
    ensures few { IfOk result (λ b. IsTrue b → count < 2 ^ 50) }
    ensures form { IfOk result (λ b. IsTrue (T.view station.old).is_told → 16 + 4112 * count ≤ length ((T.view station.old).bytes Log) → b ≡ slots_pass (end_at from) count (drop 16 ((T.view station.old).bytes Log))) }
    ensures stays { IsTrue (T.view station.old).is_told → Confined SameBytes (T.view station.old) (T.view station.new) }
    ensures counts { Counts count 0 (T.view station.old) (T.view station.new) }
    ensures cause { HasCause (T.view station.old).faults (T.view station.new).faults result }
{
    let mut last = Home {
        area: Area::Mark,
        page: 0,
    };
    let mut ends = from;
    for k in 0..count {
        let head = read_head(station, HEAD + SLOT * k)?;
        let home = home_in(&head);
        if !is_next(&head, home, last, ends) {
            return Ok(false);
        }
        ends = ends.with(home);
        last = home;
    }
    Ok(true)
}

/// How many slots the log's header says there are, where the area has room for them.
fn count_in(head: &[u8; 16], size: u64) -> Option<u64>
    ensures few { IfSome result (λ n. n < 2 ^ 52) }
    ensures count { result ≡ count_in_header head.now size }
{
    let count = u64::from_be_bytes([
        head[0], head[1], head[2], head[3], head[4], head[5], head[6], head[7],
    ]);
    if size < HEAD || (size - HEAD) / SLOT < count || head[8..16] != [0; 8] {
        return None;
    }
    Some(count)
}

/// Reads the log's header.
fn read_count<T: Station>(station: &mut T) -> Result<Option<u64>, Failed>
    ensures few { IfOk result (λ o. IfSome o (λ n. n < 2 ^ 52)) }
    ensures count { IfOk result (λ o. IsTrue (T.view station.old).is_told → o ≡ count_in_header ((T.view station.old).bytes Log) (length ((T.view station.old).bytes Log))) }
    ensures stays { IsTrue (T.view station.old).is_told → Confined SameBytes (T.view station.old) (T.view station.new) }
    ensures counts { Counts 1 0 (T.view station.old) (T.view station.new) }
    ensures cause { HasCause (T.view station.old).faults (T.view station.new).faults result }
{
    let size = station.len(Area::Log)?;
    let head = read_head(station, 0)?;
    Ok(count_in(&head, size))
}

/// Asks where the areas of images end.
fn read_ends<T: Station>(station: &mut T) -> Result<Ends, Failed>
    ensures ends { IfOk result (λ ends. IsTrue (T.view station.old).is_told → (a : Area) → IsHome a → end_at ends a ≡ length ((T.view station.old).bytes a)) }
    ensures stays { IsTrue (T.view station.old).is_told → Confined SameBytes (T.view station.old) (T.view station.new) }
    ensures counts { Counts 0 0 (T.view station.old) (T.view station.new) }
    ensures cause { HasCause (T.view station.old).faults (T.view station.new).faults result }
{
    let root = station.len(Area::Root)?;
    let left = station.len(Area::Left)?;
    let right = station.len(Area::Right)?;
    Ok(Ends { root, left, right })
}

/// Whether the log is in form, and how many slots it has.
pub(crate) fn check_log<T: Station>(station: &mut T) -> Result<Option<u64>, Failed>
    ensures few { IfOk result (λ o. IfSome o (λ n. n < 2 ^ 50)) }
    ensures found { IfOk result (λ o. IsTrue (T.view station.old).is_told → Finds (T.view station.old) o) }
    ensures stays { IsTrue (T.view station.old).is_told → Confined SameBytes (T.view station.old) (T.view station.new) }
    ensures counts { CountsToCheck (T.view station.old) (T.view station.new) }
    ensures cause { HasCause (T.view station.old).faults (T.view station.new).faults result }
{
    let Some(count) = read_count(station)? else {
        return Ok(None);
    };
    let ends = read_ends(station)?;
    if !are_in_form(station, count, ends)? {
        return Ok(None);
    }
    Ok(Some(count))
}
