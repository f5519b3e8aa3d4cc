//! Keys from their parts.
ghost use Rattle.std.specs.Prelude.{◌≡◌};
ghost use Rattle.gaz_tables.specs.Keys.{class_number};
ghost use Rattle.gaz_keys.specs.Keys as key;

use gaz_tables::{LinkClass, LinkKey};

/// The key of a row.
#[tactic(auto, unfolding(crate::specs::Keys::place_key))]
pub fn place_key(id: u32) -> [u8; 32]
    ensures { result ≡ key.place_key id }
{
    let mut key = [0; 32];
    key[0] = 1;
    key[1..5].copy_from_slice(&id.to_be_bytes());
    key
}

/// The key of an alternate name.
#[tactic(auto, unfolding(crate::specs::Keys::alternate_key))]
pub fn alternate_key(id: u32) -> [u8; 32]
    ensures { result ≡ key.alternate_key id }
{
    let mut key = [0; 32];
    key[0] = 2;
    key[1..5].copy_from_slice(&id.to_be_bytes());
    key
}

/// The byte of a class.
fn class_code(class: LinkClass) -> u8
    ensures { result ≡ class_number class }
{
    match class {
        LinkClass::Adm => 0,
        LinkClass::Plain => 1,
        LinkClass::Other => 2,
    }
}

/// The key of a link by its child.
#[tactic(auto, unfolding(crate::specs::Keys::link_key))]
pub fn link_key(link: LinkKey) -> [u8; 32]
    ensures { result ≡ key.link_key_of link }
{
    let mut key = [0; 32];
    key[0] = 3;
    key[1..5].copy_from_slice(&link.child.to_be_bytes());
    key[5] = class_code(link.class);
    key[6..10].copy_from_slice(&link.parent.to_be_bytes());
    key
}

/// The key of a link by its parent.
#[tactic(auto, unfolding(crate::specs::Keys::reverse_key))]
pub fn reverse_key(link: LinkKey) -> [u8; 32]
    ensures { result ≡ key.reverse_key_of link }
{
    let mut key = [0; 32];
    key[0] = 4;
    key[1..5].copy_from_slice(&link.parent.to_be_bytes());
    key[5] = class_code(link.class);
    key[6..10].copy_from_slice(&link.child.to_be_bytes());
    key
}

/// The key of a country, from its code with zeros behind it.
#[tactic(auto, unfolding(crate::specs::Keys::country_key))]
pub fn country_key(code: &[u8; 4]) -> [u8; 32]
    ensures { result ≡ key.country_key code.now }
{
    let mut key = [0; 32];
    key[0] = 5;
    key[1..5].copy_from_slice(code);
    key
}

/// The key of an admin code, from the first bytes of it with zeros behind them.
#[tactic(auto, unfolding(crate::specs::Keys::code_key))]
pub fn code_key(first: &[u8; 23], slot: u32) -> [u8; 32]
    ensures { result ≡ key.code_key first.now slot }
{
    let mut key = [0; 32];
    key[0] = 6;
    key[28..32].copy_from_slice(&slot.to_be_bytes());
    key[1..24].copy_from_slice(first);
    key
}

/// The key of a name, from the first bytes of its name key with zeros behind them.
#[tactic(auto, unfolding(crate::specs::Keys::text_key))]
pub fn text_key(first: &[u8; 22], source: u8, place: u32, alternate: u32) -> [u8; 32]
    ensures { result ≡ key.text_key first.now source place alternate }
{
    let mut key = [0; 32];
    key[0] = 7;
    key[23] = source;
    key[24..28].copy_from_slice(&place.to_be_bytes());
    key[28..32].copy_from_slice(&alternate.to_be_bytes());
    key[1..23].copy_from_slice(first);
    key
}

/// The key of a row by where it lies: the band of its latitude, and its longitude from -180 degrees on.
#[tactic(auto, unfolding(crate::specs::Keys::box_key))]
pub fn box_key(band: u16, east: u64, id: u32) -> [u8; 32]
    ensures { result ≡ key.box_key band east id }
{
    let mut key = [0; 32];
    key[0] = 8;
    key[1..3].copy_from_slice(&band.to_be_bytes());
    key[3..11].copy_from_slice(&east.to_be_bytes());
    key[11..15].copy_from_slice(&id.to_be_bytes());
    key
}

/// The key of a division or a country row.
#[tactic(auto, unfolding(crate::specs::Keys::division_key))]
pub fn division_key(level: u8, first: &[u8; 26], id: u32) -> [u8; 32]
    ensures { result ≡ key.division_key level first.now id }
{
    let mut key = [0; 32];
    key[0] = 9;
    key[1] = level;
    key[28..32].copy_from_slice(&id.to_be_bytes());
    key[2..28].copy_from_slice(first);
    key
}

/// The key of a row by its divisions.
#[tactic(auto, unfolding(crate::specs::Keys::path_key))]
pub fn path_key(first: &[u8; 27], id: u32) -> [u8; 32]
    ensures { result ≡ key.path_key first.now id }
{
    let mut key = [0; 32];
    key[0] = 10;
    key[28..32].copy_from_slice(&id.to_be_bytes());
    key[1..28].copy_from_slice(first);
    key
}
