//! Frames that follow what is written past them.
ghost use Rattle.std.specs.Prelude.{◌≡◌, ◌≢◌, ◌+◌, ◌*◌, ◌/◌, ◌<◌, ◌≤◌, ◌^◌, IfSome, length};
ghost use Rattle.gaz_pool.specs.Frames.{NoneWaits};
ghost use Rattle.gaz_pool.specs.Pool.{frames_in, room_in};
ghost use Rattle.gaz_pool.specs.Sides.{side_area};
ghost use Rattle.gaz_framed.specs.Kept.{side_in, Follows, FollowsAny};

use gaz_outside::Area;
use gaz_page::{PAGE, Side};
use gaz_pool::FramePool;

/// Bytes of the part of an area whose pages have numbers that fit.
const PAGED: u64 = 1 << 44;

/// The side of an area, where it has pages.
fn side_of(area: Area) -> Option<Side>
    ensures { result ≡ side_in area }
{
    match area {
        Area::Left => Some(Side::Left),
        Area::Right => Some(Side::Right),
        Area::Mark | Area::Log | Area::Root => None,
    }
}

/// The first page of so many bytes at this place, where they are whole pages.
fn first_page(at: u64, size: usize) -> Option<u32>
    requires { at + size < 2 ^ 64 }
    ensures at { IfSome result (λ first. at ≡ 4096 * first) }
    ensures whole { IfSome result (λ first. size ≡ 4096 * (size / 4096)) }
    ensures fits { IfSome result (λ first. first + size / 4096 < 2 ^ 32) }
{
    let page = PAGE as u64;
    if at % page == 0 && size % PAGE == 0 && at + (size as u64) < PAGED {
        Some((at / page) as u32)
    } else {
        None
    }
}

/// Gives the frames of a side the pages that were written from this one on.
fn refresh_all(pool: &mut FramePool, side: Side, first: u32, bytes: &[u8])
    requires whole { length bytes.now ≡ 4096 * (length bytes.now / 4096) }
    requires fits { first + length bytes.now / 4096 < 2 ^ 32 }
    ensures follows { Follows (side_area side) (4096 * first) bytes.now (frames_in pool.old) (frames_in pool.new) }
    ensures none { NoneWaits (frames_in pool.old) → NoneWaits (frames_in pool.new) }
    ensures room { room_in pool.new ≡ room_in pool.old }
{
    let count = bytes.len() / PAGE;
    for n in 0..count {
        let at = PAGE * n;
        pool.refresh(side, first + n as u32, &bytes[at..at + PAGE]);
    }
}

/// The frames follow bytes that were written: those of whole pages have them, and where others were written those of the side are dropped.
pub(crate) fn renew(pool: &mut FramePool, area: Area, at: u64, bytes: &[u8])
    requires { at + length bytes.now < 2 ^ 64 }
    ensures follows { Follows area at bytes.now (frames_in pool.old) (frames_in pool.new) }
    ensures none { NoneWaits (frames_in pool.old) → NoneWaits (frames_in pool.new) }
    ensures room { room_in pool.new ≡ room_in pool.old }
{
    let Some(side) = side_of(area) else {
        return;
    };
    match first_page(at, bytes.len()) {
        Some(first) => refresh_all(pool, side, first, bytes),
        None => pool.forget(side),
    }
}

/// Drops the frames of an area, which may have any bytes now.
pub(crate) fn drop_of(pool: &mut FramePool, area: Area)
    ensures follows { FollowsAny area (frames_in pool.old) (frames_in pool.new) }
    ensures none { NoneWaits (frames_in pool.old) → NoneWaits (frames_in pool.new) }
    ensures room { room_in pool.new ≡ room_in pool.old }
{
    match side_of(area) {
        Some(side) => pool.forget(side),
        None => {}
    }
}
