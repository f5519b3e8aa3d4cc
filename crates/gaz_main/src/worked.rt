//! What the tests share: rows, files and words, and objects in memory.
ghost use Rattle.std.specs.Prelude.{false, [], ◌<◌, ◌^◌};

use gaz_outside::{Failed, MemShelf, MemSource, MemStation, Source};
use std::alloc::{AllocError, Global};

pub(crate) const A1: &str = "1\tA\t\t\t0\t0\tP\tPPL\tAA\t\t\t\t\t\t1\t\t\t\t2024-02-01\n";

pub(crate) const B2: &str = "2\tB\t\t\t0\t0\tP\tPPL\tAA\t\t\t\t\t\t2\t\t\t\t2024-02-01\n";

pub(crate) const C3: &str = "3\tC\t\t\t0\t0\tP\tPPL\tAA\t\t\t\t\t\t3\t\t\t\t2024-02-01\n";

/// A later row of the id of B2.
pub(crate) const X2: &str = "2\tX\t\t\t0\t0\tP\tPPL\tAA\t\t\t\t\t\t9\t\t\t\t2024-02-01\n";

pub(crate) const DUMP: &str = "allCountries.txt";

pub(crate) const ALTERNATES: &str = "alternateNamesV2.txt";

pub(crate) const LINKS: &str = "hierarchy.txt";

pub(crate) const COUNTRIES: &str = "countryInfo.txt";

pub(crate) const ADMIN1: &str = "admin1CodesASCII.txt";

pub(crate) const ADMIN2: &str = "admin2Codes.txt";

pub(crate) const MODIFICATIONS: &str = "modifications-2024-03-02.txt";

pub(crate) const DELETES: &str = "deletes-2024-03-02.txt";

pub(crate) const ALT_MODIFICATIONS: &str = "alternateNamesModifications-2024-03-02.txt";

pub(crate) const ALT_DELETES: &str = "alternateNamesDeletes-2024-03-02.txt";

/// A file by its name and the texts of which it is made.
pub(crate) type File<'a> = (&'a str, &'a [&'a str]);

/// These texts, one behind the other.
pub(crate) fn joined(alloc: Global, pieces: &[&str]) -> Result<Vec<u8>, AllocError> {
    let mut bytes = Vec::new(alloc);
    for piece in pieces {
        bytes.extend_from_slice(piece.as_bytes())?;
    }
    Ok(bytes)
}

/// The words of a command line, between spaces; an empty one has none.
pub(crate) fn words_of(alloc: Global, line: &str) -> Result<Vec<String>, AllocError> {
    let mut words = Vec::new(alloc);
    if line.is_empty() {
        return Ok(words);
    }
    for word in line.split(' ') {
        words.push(String::from_str(alloc, word)?)?;
    }
    Ok(words)
}

/// A source of these bytes, whose calls with these numbers fail.
pub(crate) fn source_of(
    alloc: Global,
    bytes: &[u8],
    fails: &[u64],
) -> Result<MemSource, AllocError> {
    Ok(MemSource::new(bytes.to_vec(alloc)?, fails.to_vec(alloc)?))
}

/// A shelf of these files, whose calls with these numbers fail.
pub(crate) fn shelf_of(
    alloc: Global,
    files: &[File<'_>],
    fails: &[u64],
) -> Result<MemShelf, AllocError> {
    let mut shelved = Vec::new(alloc);
    for (name, pieces) in files {
        shelved.push((String::from_str(alloc, name)?, joined(alloc, pieces)?))?;
    }
    MemShelf::new(shelved, fails.to_vec(alloc)?)
}

/// A station with empty areas, whose calls with these numbers fail.
pub(crate) fn station_of(alloc: Global, fails: &[u64]) -> Result<MemStation, AllocError> {
    Ok(MemStation::new(alloc, fails.to_vec(alloc)?))
}

/// A source that hands out one byte a call. It tells nothing.
#[derive(Drop)]
pub(crate) struct OneByte {
    inner: MemSource,
    faults: u64,
    ghost fits: { faults < 2 ^ 64 },
}

impl OneByte {
    /// A source of these bytes, whose calls with these numbers fail.
    pub(crate) fn new(alloc: Global, bytes: &[u8], fails: &[u64]) -> Result<Self, AllocError> {
        Ok(OneByte {
            inner: source_of(alloc, bytes, fails)?,
            faults: 0,
        })
    }
}

#[tactic(auto, unfolding(gaz_outside::specs::Outside::left_of))]
impl Source for OneByte {
    ghost view = { λ s. record { is_told = false; left = []; faults = s.faults } };

    ghost faults_fit = { λ s. s.fits };

    fn take(&mut self, buf: &mut [u8]) -> Result<usize, Failed> {
        let room = buf.len().min(1);
        match self.inner.take(&mut buf[..room]) {
            Ok(n) => Ok(n),
            Err(failed) => {
                self.faults = self.faults.saturating_add(1);
                Err(failed)
            }
        }
    }
}
