//! The keys of lines.
ghost use Rattle.std.specs.Prelude.{◌≡◌, ◌≤◌, IfOk, IfSome, IsOk, take};
ghost use Rattle.gaz_num.specs.declared.words.Table.TheVariants as table;
ghost use Rattle.gaz_name.specs.Name.{first_bytes};
ghost use Rattle.gaz_keys.specs.Keys as key;
ghost use Rattle.gaz_keys.specs.Lines as lines;

use crate::front::{front_of, put_code};
use crate::makers::{box_key, code_key, country_key, division_key, path_key, text_key};
use gaz_alt::Alt;
use gaz_box::GeoBox;
use gaz_name::name_key;
use gaz_parent::{is_country, level};
use gaz_row::Row;
use std::alloc::{AllocError, Global};

/// The longitude of the antimeridian, in units of 10^-12 degree.
const ANTIMERIDIAN: i64 = 180_000_000_000_000;

/// Admin codes of a row, those of all levels.
const LEVELS: u8 = 4;

/// Whose text a name key is made of.
const NAME: u8 = 0;

const ASCII: u8 = 1;

const ALTERNATE: u8 = 2;

/// The key of a country by any bytes.
pub fn country_key_of(code: &[u8]) -> [u8; 32]
    ensures { result ≡ key.country_key (first_bytes 4 code.now) }
{
    country_key(&front_of(code))
}

/// The key of an admin code in a slot, by any bytes.
pub fn code_key_of(code: &[u8], slot: u32) -> [u8; 32]
    ensures { result ≡ key.code_key (first_bytes 23 code.now) slot }
{
    code_key(&front_of(code), slot)
}

/// The first bytes of the path to a level: the country and the admin codes up to it, each with a zero behind it.
fn path<const SIZE: usize>(level: u8, row: &Row<'_>) -> [u8; SIZE]
    requires { level ≤ 4 }
    ensures { result ≡ first_bytes SIZE (lines.path_to level row.now) }
{
    let mut bytes = [0; SIZE];
    let mut len = put_code(&mut bytes, 0, row.country());
    for above in 0..level {
        len = put_code(&mut bytes, len, row.admin(above + 1));
    }
    bytes
}

/// The level of a division, 0 of a country row, and none of another row.
fn division_level(row: &Row<'_>) -> Option<u8>
    ensures value { result ≡ lines.division_level row.now }
    ensures bound { IfSome result (λ level. level ≤ 4) }
{
    if is_country(row) { Some(0) } else { level(row) }
}

/// The band of a row's latitude.
fn band(row: &Row<'_>) -> u16
    ensures { result ≡ lines.band_at row.now }
{
    GeoBox::band(row.latitude())
}

/// The longitude of a row from the antimeridian on.
fn east(row: &Row<'_>) -> u64
    ensures { result ≡ lines.east_at row.now }
{
    (row.longitude() + ANTIMERIDIAN) as u64
}

/// The keys of a row by where it lies: of tags 8 and 10, and between them of tag 9 for a division or a country row. How many there are.
pub fn row_keys(row: &Row<'_>, out: &mut [[u8; 32]; 3]) -> usize
    ensures keys { take result out.new ≡ lines.row_keys row.now }
    ensures bound { result ≤ 3 }
{
    let id = row.id();
    let divided = path_key(&path(LEVELS, row), id);
    out[0] = box_key(band(row), east(row), id);
    match division_level(row) {
        Some(level) => {
            out[1] = division_key(level, &path(level, row), id);
            out[2] = divided;
            3
        }
        None => {
            out[1] = divided;
            2
        }
    }
}

/// The keys of a row by its name and by its asciiname. Names of at most 64 bytes of ASCII take no memory.
pub fn name_keys(alloc: Global, row: &Row<'_>) -> Result<[[u8; 32]; 2], AllocError>
    ensures keys { IfOk result (λ keys. keys ≡ lines.name_keys row.now) }
    ensures short { lines.HasShortNames table.Rows row.now → IsOk result }
{
    let id = row.id();
    let name = name_key(alloc, row.name())?.first();
    let ascii = if row.ascii() == row.name() {
        name
    } else {
        name_key(alloc, row.ascii())?.first()
    };
    Ok([text_key(&name, NAME, id, 0), text_key(&ascii, ASCII, id, 0)])
}

/// The key of an alternate name by its text. A text of at most 64 bytes of ASCII takes no memory.
pub fn alt_key(alloc: Global, alt: &Alt<'_>) -> Result<[u8; 32], AllocError>
    ensures key { IfOk result (λ key. key ≡ lines.alternate_text_key alt.now) }
    ensures short { lines.HasShortNames table.Alternates alt.now → IsOk result }
{
    let text = name_key(alloc, alt.text())?.first();
    Ok(text_key(&text, ALTERNATE, alt.place(), alt.id()))
}
