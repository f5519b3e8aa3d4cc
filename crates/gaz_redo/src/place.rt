//! The steps of a commit.
ghost use Rattle.std.specs.Prelude.{◌≡◌, ◌+◌, ◌*◌, ◌<◌, ◌≤◌, ◌^◌, [], ◌∷◌, ◌++◌, replicate, ℕ, List, length, IsTrue, ◌↔◌, OnOk};
ghost use Rattle.gaz_outside.specs.declared.station.Area.{Area};
ghost use Rattle.gaz_outside.specs.declared.station.Area.TheVariants.{Mark, Log};
ghost use Rattle.gaz_outside.specs.Outside.{HasCause};
ghost use Rattle.gaz_outside.specs.Station.{Counts, Confined, AnyIn, IsStable, overlaid, pieces, area_place};
ghost use Rattle.gaz_redo.specs.Batch.{held, once_out, writes_with};
ghost use Rattle.gaz_redo.specs.Slots.{slots_in, slot_of, laid_in, Scattered, Touches, StartsWith, IsHome, SameBytes};
ghost use Rattle.gaz_redo.specs.Content.{spelled, spelled_slot, head_of};
ghost use Rattle.std.specs.Int.{w64, to_be_bytes};

use crate::Home;
use crate::batch::Batch;
use crate::image::Image;
use gaz_outside::{Area, Failed, Station};
use gaz_page::PAGE;

/// How many bytes stand before the slots of the log, and in a slot before the image.
pub(crate) const HEAD: u64 = 16;

/// How many bytes a slot has.
pub(crate) const SLOT: u64 = 4112;

/// Writes each image to its home. Neighbours go out together.
pub(crate) fn write_images<T: Station>(station: &mut T, images: &[Image]) -> Result<(), Failed>
    ensures placed { OnOk result (IsTrue (T.view station.old).is_told → (a : Area) → (T.view station.new).bytes a ≡ laid_in a (slots_in images.now) ((T.view station.old).bytes a)) }
    ensures confined { IsTrue (T.view station.old).is_told → Confined (λ a. Scattered a (slots_in images.now)) (T.view station.old) (T.view station.new) }
    ensures counts { Counts 0 (length images.now) (T.view station.old) (T.view station.new) }
    ensures cause { HasCause (T.view station.old).faults (T.view station.new).faults result }
{
    let mut batch = Batch::new(Area::Root);
    for image in images {
        batch.put(
            station,
            image.home.area,
            PAGE as u64 * image.home.page as u64,
            &image.bytes,
        )?;
    }
    batch.write_out(station)?;
    Ok(())
}

/// Writes the gate's byte, and syncs it.
pub(crate) fn set_gate<T: Station>(station: &mut T, byte: u8) -> Result<(), Failed>
    ensures set { OnOk result (IsTrue (T.view station.old).is_told → (T.view station.new).bytes Mark ≡ overlaid ((T.view station.old).bytes Mark) 0 (byte ∷ [])) }
    ensures stable { OnOk result (IsTrue (T.view station.old).is_told → IsStable (T.view station.new) Mark) }
    ensures confined { IsTrue (T.view station.old).is_told → Confined (AnyIn Mark) (T.view station.old) (T.view station.new) }
    ensures counts { Counts 0 1 (T.view station.old) (T.view station.new) }
    ensures cause { HasCause (T.view station.old).faults (T.view station.new).faults result }
{
    station.write_at(Area::Mark, 0, &[byte])?;
    station.sync(Area::Mark)
}

/// Writes the log's header and its slots, as many in a write as a batch holds.
pub(crate) fn write_log<T: Station>(station: &mut T, images: &[Image]) -> Result<(), Failed>
    requires { length images.now < 2 ^ 40 }
    ensures logged { OnOk result (IsTrue (T.view station.old).is_told → StartsWith (spelled (slots_in images.now)) ((T.view station.new).bytes Log)) }
    ensures confined { IsTrue (T.view station.old).is_told → Confined (AnyIn Log) (T.view station.old) (T.view station.new) }
    ensures counts { Counts 0 (2 * length images.now + 1) (T.view station.old) (T.view station.new) }
    ensures cause { HasCause (T.view station.old).faults (T.view station.new).faults result }
{
    let mut batch = Batch::new(Area::Log);
    batch.put(station, Area::Log, 0, &log_head(images.len() as u64))?;
    let mut at = HEAD;
    for image in images {
        put_slot(&mut batch, station, at, image)?;
        at += SLOT;
    }
    batch.write_out(station)?;
    Ok(())
}

/// The bytes of the log before its slots.
fn log_head(count: u64) -> [u8; 16]
    ensures { result ≡ to_be_bytes w64 count ++ replicate 8 0 }
{
    let b = count.to_be_bytes();
    [
        b[0], b[1], b[2], b[3], b[4], b[5], b[6], b[7], 0, 0, 0, 0, 0, 0, 0, 0,
    ]
}

/// The bytes of a slot before its image.
fn slot_head(home: Home) -> [u8; 16]
    ensures { result ≡ head_of home.area home.page }
{
    let b = home.page.to_be_bytes();
    [
        area_code(home.area),
        0,
        0,
        0,
        b[0],
        b[1],
        b[2],
        b[3],
        0,
        0,
        0,
        0,
        0,
        0,
        0,
        0,
    ]
}

/// Puts a slot into a batch of the log.
fn put_slot<T: Station>(
    batch: &mut Batch,
    station: &mut T,
    at: u64,
    image: &Image,
) -> Result<(), Failed>
    requires far { at < 2 ^ 60 }
    requires area { batch.old.area ≡ Log }
    ensures area { OnOk result (batch.new.area ≡ Log) }
    ensures logged { OnOk result (IsTrue (T.view station.old).is_told → (front : List ℕ) → length front ≡ at → StartsWith front (once_out batch.old (T.view station.old).bytes Log)
        → StartsWith (front ++ spelled_slot (slot_of image.now)) (once_out batch.new (T.view station.new).bytes Log)) }
    ensures confined { IsTrue (T.view station.old).is_told → Confined (AnyIn Log) (T.view station.old) (T.view station.new) }
    ensures counts { Counts 0 (pieces (length (held batch.old)) + 1) (T.view station.old) (T.view station.new) }
    ensures writes { OnOk result (writes_with batch.new (T.view station.new) ≤ writes_with batch.old (T.view station.old) + 2) }
    ensures cause { HasCause (T.view station.old).faults (T.view station.new).faults result }
{
    batch.put(station, Area::Log, at, &slot_head(image.home))?;
    batch.put(station, Area::Log, at + HEAD, &image.bytes)?;
    Ok(())
}

/// The byte that names an area in a slot.
pub(crate) fn area_code(area: Area) -> u8
    ensures { result ≡ area_place area }
{
    match area {
        Area::Mark => 0,
        Area::Log => 1,
        Area::Root => 2,
        Area::Left => 3,
        Area::Right => 4,
    }
}

/// Syncs an area where it has an image.
fn sync_home<T: Station>(station: &mut T, images: &[Image], area: Area) -> Result<(), Failed>
    ensures stable { OnOk result (IsTrue (T.view station.old).is_told → Touches area (slots_in images.now) → IsStable (T.view station.new) area) }
    ensures stays { IsTrue (T.view station.old).is_told → Confined SameBytes (T.view station.old) (T.view station.new) }
    ensures counts { Counts 0 0 (T.view station.old) (T.view station.new) }
    ensures cause { HasCause (T.view station.old).faults (T.view station.new).faults result }
{
    if !has_image(images, area) {
        return Ok(());
    }
    station.sync(area)
}

fn has_image(images: &[Image], area: Area) -> bool
    ensures { IsTrue result ↔ Touches area (slots_in images.now) }
{
    for image in images {
        if image.home.area == area {
            return true;
        }
    }
    false
}

/// Writes each image to its home, and syncs the homes.
pub(crate) fn place_images<T: Station>(station: &mut T, images: &[Image]) -> Result<(), Failed>
    ensures placed { OnOk result (IsTrue (T.view station.old).is_told → (a : Area) → (T.view station.new).bytes a ≡ laid_in a (slots_in images.now) ((T.view station.old).bytes a)) }
    ensures stable { OnOk result (IsTrue (T.view station.old).is_told → (a : Area) → IsHome a → Touches a (slots_in images.now) → IsStable (T.view station.new) a) }
    ensures confined { IsTrue (T.view station.old).is_told → Confined (λ a. Scattered a (slots_in images.now)) (T.view station.old) (T.view station.new) }
    ensures counts { Counts 0 (length images.now) (T.view station.old) (T.view station.new) }
    ensures cause { HasCause (T.view station.old).faults (T.view station.new).faults result }
{
    write_images(station, images)?;
    sync_home(station, images, Area::Root)?;
    sync_home(station, images, Area::Left)?;
    sync_home(station, images, Area::Right)
}

/// Writes the log and syncs it.
pub(crate) fn log_images<T: Station>(station: &mut T, images: &[Image]) -> Result<(), Failed>
    requires { length images.now < 2 ^ 40 }
    ensures logged { OnOk result (IsTrue (T.view station.old).is_told → StartsWith (spelled (slots_in images.now)) ((T.view station.new).bytes Log)) }
    ensures stable { OnOk result (IsTrue (T.view station.old).is_told → IsStable (T.view station.new) Log) }
    ensures confined { IsTrue (T.view station.old).is_told → Confined (AnyIn Log) (T.view station.old) (T.view station.new) }
    ensures counts { Counts 0 (2 * length images.now + 1) (T.view station.old) (T.view station.new) }
    ensures cause { HasCause (T.view station.old).faults (T.view station.new).faults result }
{
    write_log(station, images)?;
    station.sync(Area::Log)
}
