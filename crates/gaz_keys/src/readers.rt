//! The parts of a key.
ghost use Rattle.std.specs.Prelude.{◌≡◌, ◌⊎◌, ◌+◌, ◌≤◌, ℕ, IsTrue, length};
ghost use Rattle.gaz_keys.specs.Parts as part;

use gaz_tables::{LinkClass, LinkKey};

/// The tag.
pub fn tag_of(key: &[u8; 32]) -> u8
    ensures { result ≡ part.tag_of key.now }
{
    key[0]
}

/// A number of four bytes.
fn four_at(key: &[u8; 32], at: usize) -> u32
    requires { at ≤ 28 }
    ensures { result ≡ part.four_at at key.now }
{
    u32::from_be_bytes([key[at], key[at + 1], key[at + 2], key[at + 3]])
}

/// The id of a place, of a key with one of the tags 1, 7, 8, 9 and 10.
pub fn id_of(key: &[u8; 32]) -> u32
    requires { IsTrue (part.has_id (part.tag_of key.now)) }
    ensures { result ≡ part.id_of key.now }
{
    match key[0] {
        1 => four_at(key, 1),
        7 => four_at(key, 24),
        8 => four_at(key, 11),
        _ => four_at(key, 28),
    }
}

/// The id of an alternate name, of a key with tag 2 or 7. With tag 7 it is 0 where the name is no alternate.
pub fn alternate_of(key: &[u8; 32]) -> u32
    requires { (part.tag_of key.now ≡ 2) ⊎ (part.tag_of key.now ≡ 7) }
    ensures { result ≡ part.alternate_of key.now }
{
    match key[0] {
        2 => four_at(key, 1),
        _ => four_at(key, 28),
    }
}

/// The class that a byte names.
fn class_by(code: u8) -> LinkClass
    ensures { result ≡ part.class_by code }
{
    match code {
        0 => LinkClass::Adm,
        1 => LinkClass::Plain,
        _ => LinkClass::Other,
    }
}

/// The link of a key with tag 3 or 4, or `None` where the byte of its class is above 2.
pub fn link_of(key: &[u8; 32]) -> Option<LinkKey>
    requires { (part.tag_of key.now ≡ 3) ⊎ (part.tag_of key.now ≡ 4) }
    ensures { result ≡ part.link_of key.now }
{
    if key[5] > 2 {
        return None;
    }
    let class = class_by(key[5]);
    let (first, second) = (four_at(key, 1), four_at(key, 6));
    if key[0] == 3 {
        Some(LinkKey {
            child: first,
            class,
            parent: second,
        })
    } else {
        Some(LinkKey {
            child: second,
            class,
            parent: first,
        })
    }
}

/// The padded text of a key with one of the tags 5, 6, 7, 9 and 10.
pub fn first_of(key: &[u8; 32]) -> &[u8]
    requires { IsTrue (part.has_first (part.tag_of key.now)) }
    ensures { result.now ≡ part.first_of key.now }
{
    match key[0] {
        5 => &key[1..5],
        6 => &key[1..24],
        7 => &key[1..23],
        9 => &key[2..28],
        _ => &key[1..28],
    }
}

/// The slot of a key with tag 6, the last four bytes of any other.
pub fn slot_of(key: &[u8; 32]) -> u32
    ensures { result ≡ part.slot_of key.now }
{
    four_at(key, 28)
}

/// Whose text it is, of a key with tag 7.
pub fn source_of(key: &[u8; 32]) -> u8
    requires { part.tag_of key.now ≡ 7 }
    ensures { result ≡ part.source_of key.now }
{
    key[23]
}

/// The band of a key with tag 8.
pub fn band_of(key: &[u8; 32]) -> u16
    requires { part.tag_of key.now ≡ 8 }
    ensures { result ≡ part.band_of key.now }
{
    u16::from_be_bytes([key[1], key[2]])
}

/// The longitude of a key with tag 8, from -180 degrees on.
pub fn east_of(key: &[u8; 32]) -> u64
    requires { part.tag_of key.now ≡ 8 }
    ensures { result ≡ part.east_of key.now }
{
    u64::from_be_bytes([
        key[3], key[4], key[5], key[6], key[7], key[8], key[9], key[10],
    ])
}

/// The level of a key with tag 9.
pub fn level_of(key: &[u8; 32]) -> u8
    requires { part.tag_of key.now ≡ 9 }
    ensures { result ≡ part.level_of key.now }
{
    key[1]
}
