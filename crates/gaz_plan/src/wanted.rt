//! What a search asks of the names of a row.
ghost use Rattle.std.specs.Prelude.{◌≡◌, ◌≤◌, ◌-◌, ◌++◌, take, replicate, IsOk, IfOk};
ghost use Rattle.std.specs.Option.{option_copied};
ghost use Rattle.gaz_pick.specs.Asked.{absent, name_asked};
ghost use Rattle.gaz_plain.specs.Names.{counts_in, is_no_language};
ghost use Rattle.gaz_plan.specs.Wanted.{wanted_of, is_nothing, fits, fits_own, fits_other, least_front, greatest_front};

use gaz_alt::Alt;
use gaz_name::{NameKey, name_key};
use gaz_pick::NameTest;
use gaz_row::Row;
use std::alloc::{AllocError, Global};

/// The bytes of a name key that stand in the keys of the index.
const FRONT: usize = 22;

/// What is asked of names, with the key of the value.
#[derive(Drop)]
pub(crate) enum Test {
    Nothing,
    Equals(NameKey),
    Starts(NameKey),
}

/// The test, and where memory is taken for it.
#[derive(Drop)]
pub(crate) struct Wanted {
    alloc: Global,
    test: Test,
}

/// Whether texts of the language are no names.
fn is_no_language(language: &str) -> bool
    ensures { result ≡ is_no_language language.now }
{
    language == "link" || language == "wkdt" || language == "post"
}

/// Whether the text of an alternate name counts as a name, where a language is asked for or none.
fn counts(lang: Option<&str>, alternate: &Alt<'_>) -> bool
    ensures { result ≡ counts_in (option_copied lang.entry) alternate.now }
{
    match lang {
        Some(lang) => alternate.language() == lang,
        None => !is_no_language(alternate.language()),
    }
}

/// The greatest of the texts that begin with the first `len` of these bytes.
fn greatest_from(first: &[u8; FRONT], len: usize) -> [u8; FRONT]
    requires { len ≤ 22 }
    ensures { result ≡ take len first.now ++ replicate (22 - len) 255 }
{
    let mut last = [255; FRONT];
    last[..len].copy_from_slice(&first[..len]);
    last
}

impl Wanted {
    /// The first bytes of the least key that fits.
    pub fn least_front(&self) -> [u8; FRONT]
        ensures { result ≡ least_front self.now.test }
    {
        match &self.test {
            Test::Nothing => [0; FRONT],
            Test::Equals(key) => key.first(),
            Test::Starts(key) => key.first(),
        }
    }

    /// The first bytes of the greatest key that fits.
    pub fn greatest_front(&self) -> [u8; FRONT]
        ensures { result ≡ greatest_front self.now.test }
    {
        match &self.test {
            Test::Nothing => [255; FRONT],
            Test::Equals(key) => key.first(),
            Test::Starts(key) => greatest_from(&key.first(), key.len().min(FRONT)),
        }
    }

    /// Makes the key of the value. Where nothing is asked it takes no memory.
    pub fn of(alloc: Global, name: &NameTest<'_>) -> Result<Wanted, AllocError>
        ensures wanted { IfOk result (λ wanted. wanted.test ≡ wanted_of (name_asked name.now)) }
        ensures absent { name_asked name.now ≡ absent → IsOk result }
    {
        let test = match name {
            NameTest::Absent => Test::Nothing,
            NameTest::Equals(value) => Test::Equals(name_key(alloc, value)?),
            NameTest::Starts(value) => Test::Starts(name_key(alloc, value)?),
        };
        Ok(Wanted { alloc, test })
    }

    /// Whether nothing is asked of names.
    pub fn is_nothing(&self) -> bool
        ensures { result ≡ is_nothing self.now.test }
    {
        match self.test {
            Test::Nothing => true,
            Test::Equals(_) | Test::Starts(_) => false,
        }
    }

    /// Whether the key of a name fits.
    fn fits(&self, name: &str) -> Result<bool, AllocError>
        ensures { IfOk result (λ is. is ≡ fits self.now.test name.now) }
    {
        match &self.test {
            Test::Nothing => Ok(true),
            Test::Equals(key) => Ok(name_key(self.alloc, name)?.equals(key)),
            Test::Starts(key) => Ok(name_key(self.alloc, name)?.starts(key)),
        }
    }

    /// Whether a name of the row itself fits: its name, or else its asciiname. Where a language is asked for it has none.
    pub fn fits_own(&self, lang: Option<&str>, row: &Row<'_>) -> Result<bool, AllocError>
        ensures { IfOk result (λ is. is ≡ fits_own self.now.test (option_copied lang.entry) row.now) }
    {
        if lang.is_some() {
            return Ok(false);
        }
        if self.fits(row.name())? {
            return Ok(true);
        }
        self.fits(row.ascii())
    }

    /// Whether an alternate name counts and fits, as a name of its own place.
    pub fn fits_other(&self, lang: Option<&str>, alternate: &Alt<'_>) -> Result<bool, AllocError>
        ensures { IfOk result (λ is. is ≡ fits_other self.now.test (option_copied lang.entry) alternate.now) }
    {
        if !counts(lang, alternate) {
            return Ok(false);
        }
        self.fits(alternate.text())
    }
}
