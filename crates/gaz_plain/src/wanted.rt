//! What a search asks of the names of a row.
ghost use Rattle.std.specs.Prelude.{◌≡◌, IsOk, IfOk};
ghost use Rattle.std.specs.Option.{option_copied};
ghost use Rattle.gaz_pick.specs.Asked.{absent, name_asked};
ghost use Rattle.gaz_plain.specs.Names.{counts_in};
ghost use Rattle.gaz_plain.specs.Wanted.{wanted_of, is_nothing, fits, fits_own, fits_as};

use gaz_alt::Alt;
use gaz_name::{NameKey, name_key};
use gaz_pick::NameTest;
use gaz_row::Row;
use std::alloc::{AllocError, Global};

/// What is asked of names, with the key of the value.
#[derive(Drop)]
pub(crate) enum Wanted {
    Nothing,
    Equals(NameKey),
    Starts(NameKey),
}

/// Whether the text of an alternate counts as a name. Where no language is asked for, those don't whose language is a
/// code for links, Wikidata ids or postal codes.
fn counts(lang: Option<&str>, alternate: &Alt<'_>) -> bool
    ensures { result ≡ counts_in (option_copied lang.entry) alternate.now }
{
    match lang {
        Some(lang) => alternate.language() == lang,
        None => !is_no_language(alternate.language()),
    }
}

/// Whether texts of the language are no names.
fn is_no_language(language: &str) -> bool
    ensures { result ≡ is_no_language language.now }
{
    language == "link" || language == "wkdt" || language == "post"
}

ghost use Rattle.gaz_plain.specs.Names.{is_no_language};

impl Wanted {
    /// Makes the key of the value. Where nothing is asked it takes no memory.
    pub fn of(alloc: Global, name: &NameTest<'_>) -> Result<Wanted, AllocError>
        ensures wanted { IfOk result (λ wanted. wanted ≡ wanted_of (name_asked name.now)) }
        ensures absent { name_asked name.now ≡ absent → IsOk result }
    {
        match name {
            NameTest::Absent => Ok(Wanted::Nothing),
            NameTest::Equals(value) => Ok(Wanted::Equals(name_key(alloc, value)?)),
            NameTest::Starts(value) => Ok(Wanted::Starts(name_key(alloc, value)?)),
        }
    }

    /// Whether nothing is asked of names.
    pub fn is_nothing(&self) -> bool
        ensures { result ≡ is_nothing self.now }
    {
        match self {
            Wanted::Nothing => true,
            Wanted::Equals(_) | Wanted::Starts(_) => false,
        }
    }

    /// Whether the key of a name fits.
    fn fits(&self, alloc: Global, name: &str) -> Result<bool, AllocError>
        ensures { IfOk result (λ is. is ≡ fits self.now name.now) }
    {
        match self {
            Wanted::Nothing => Ok(true),
            Wanted::Equals(key) => Ok(name_key(alloc, name)?.equals(key)),
            Wanted::Starts(key) => Ok(name_key(alloc, name)?.starts(key)),
        }
    }

    /// Whether a name of its own fits: its name, or else its asciiname. Where a language is asked for it has none.
    pub fn fits_own(
        &self,
        alloc: Global,
        lang: Option<&str>,
        row: &Row<'_>,
    ) -> Result<bool, AllocError>
        ensures { IfOk result (λ is. is ≡ fits_own self.now (option_copied lang.entry) row.now) }
    {
        if lang.is_some() {
            return Ok(false);
        }
        if self.fits(alloc, row.name())? {
            return Ok(true);
        }
        self.fits(alloc, row.ascii())
    }

    /// Whether an alternate fits as a name of the place with this id.
    pub fn fits_as(
        &self,
        alloc: Global,
        lang: Option<&str>,
        id: u32,
        alternate: &Alt<'_>,
    ) -> Result<bool, AllocError>
        ensures { IfOk result (λ is. is ≡ fits_as self.now (option_copied lang.entry) id alternate.now) }
    {
        if alternate.place() != id || !counts(lang, alternate) {
            return Ok(false);
        }
        self.fits(alloc, alternate.text())
    }
}
