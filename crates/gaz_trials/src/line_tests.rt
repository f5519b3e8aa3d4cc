//! Lines of small sources and files, over objects in memory.
ghost use Rattle.std.specs.Prelude.{◌≤◌, ◌<◌, ◌^◌, false, [], length};
ghost use Rattle.gaz_lines.specs.Cutter.{IsFresh};

use gaz_lines::{LineCutter, LineFault};
use gaz_outside::{Failed, MemShelf, MemSource, Shelf, Source};
use std::alloc::{AllocError, Global};
use std::test::Fail;

/// A source that hands out one byte a call. It tells nothing.
#[derive(Drop)]
struct OneByteSource {
    inner: MemSource,
    faults: u64,
    ghost fits: { faults < 2 ^ 64 },
}

#[tactic(auto, unfolding(gaz_outside::specs::Outside::left_of))]
impl Source for OneByteSource {
    ghost view = { λ s. record { is_told = false; left = []; faults = s.faults } };

    ghost faults_fit = { λ s. s.fits };

    fn take(&mut self, buf: &mut [u8]) -> Result<usize, Failed> {
        let room = buf.len().min(1);
        match self.inner.take(&mut buf[..room]) {
            Ok(count) => Ok(count),
            Err(failed) => {
                self.faults = self.faults.saturating_add(1);
                Err(failed)
            }
        }
    }
}

/// What was given, one outcome a line, of at most so many calls.
fn lines_of<S: Source>(
    alloc: Global,
    cutter: &mut LineCutter,
    source: &mut S,
    calls: usize,
) -> Result<Vec<u8>, AllocError>
    requires { IsFresh cutter.old }
{
    let mut text = Vec::new(alloc);
    for _ in 0..calls {
        match cutter.next_source(source) {
            Ok(Some(line)) => text.extend_from_slice(line)?,
            Ok(None) => return Ok(text),
            Err(LineFault::TooLong(_)) => text.extend_from_slice(b"too long")?,
            Err(LineFault::FileTooLong) => text.extend_from_slice(b"past")?,
            Err(LineFault::Failed) => continue,
        }
        text.push(b'\n')?;
    }
    Ok(text)
}

/// The same of a file of the shelf.
fn lines_of_file<F: Shelf>(
    alloc: Global,
    cutter: &mut LineCutter,
    shelf: &mut F,
    name: &str,
    calls: usize,
) -> Result<Vec<u8>, AllocError>
    requires fresh { IsFresh cutter.old }
    requires name { length name.now ≤ 48 }
{
    let mut text = Vec::new(alloc);
    let Ok(Some(file)) = shelf.open(name) else {
        return Ok(text);
    };
    for _ in 0..calls {
        match cutter.next_shelf(shelf, file) {
            Ok(Some(line)) => text.extend_from_slice(line)?,
            Ok(None) => return Ok(text),
            Err(LineFault::TooLong(_)) => text.extend_from_slice(b"too long")?,
            Err(LineFault::FileTooLong) => text.extend_from_slice(b"past")?,
            Err(LineFault::Failed) => continue,
        }
        text.push(b'\n')?;
    }
    Ok(text)
}

fn source_of(alloc: Global, bytes: &[u8], fails: &[u64]) -> Result<MemSource, AllocError> {
    Ok(MemSource::new(bytes.to_vec(alloc)?, fails.to_vec(alloc)?))
}

fn shelf_of(alloc: Global, bytes: &[u8], fails: &[u64]) -> Result<MemShelf, AllocError> {
    let mut files = Vec::new(alloc);
    files.push((String::from_str(alloc, "a")?, bytes.to_vec(alloc)?))?;
    MemShelf::new(files, fails.to_vec(alloc)?)
}

/// Texts of 19, 20 and 21 bytes with a line limit of 8 and a file limit of 20, and what is given of them in six calls.
const SMALL: [(&[u8], &[u8]); 6] = [
    (b"12345678\n123456789\n", b"12345678\ntoo long\n"),
    (b"12345678\n1234\n12345\n", b"12345678\n1234\n12345\n"),
    (b"12345678\n1234\n123456", b"12345678\n1234\n123456\n"),
    (b"12345678\n12345678901", b"12345678\ntoo long\n"),
    (
        b"12345678\n1234\n123456\n",
        b"12345678\n1234\npast\npast\npast\npast\n",
    ),
    (
        b"123456789012345678901",
        b"past\npast\npast\npast\npast\npast\n",
    ),
];

#[test]
fn limits_refuse_what_is_longer(rt: HostRuntime) -> Result<(), Fail> {
    let alloc = rt.alloc();
    for (bytes, lines) in SMALL {
        let mut cutter = LineCutter::new(alloc, 8, 20)?;
        let given = lines_of(alloc, &mut cutter, &mut source_of(alloc, bytes, &[])?, 6)?;
        assert_eq!(&rt; given.as_slice(), lines);
        cutter.restart();
        let given = lines_of_file(
            alloc,
            &mut cutter,
            &mut shelf_of(alloc, bytes, &[])?,
            "a",
            6,
        )?;
        assert_eq!(&rt; given.as_slice(), lines);
    }
    Ok(())
}

const BYTES: &[u8] = b"one\n\ntwo too\nlast";

const LINES: &[u8] = b"one\n\ntwo too\nlast\n";

#[test]
fn bytes_one_by_one_and_failures_give_the_same_lines(rt: HostRuntime) -> Result<(), Fail> {
    let alloc = rt.alloc();
    let mut cutter = LineCutter::new(alloc, 8, 20)?;
    for call in 1..20 {
        let inner = source_of(alloc, BYTES, &[call])?;
        let mut source = OneByteSource { inner, faults: 0 };
        let given = lines_of(alloc, &mut cutter, &mut source, 6)?;
        assert_eq!(&rt; given.as_slice(), LINES, "call {call}");
        cutter.restart();
    }
    for call in 2..5 {
        let mut shelf = shelf_of(alloc, BYTES, &[call])?;
        let given = lines_of_file(alloc, &mut cutter, &mut shelf, "a", 6)?;
        assert_eq!(&rt; given.as_slice(), LINES, "call {call}");
        cutter.restart();
    }
    Ok(())
}

/// The buffer holds 65,536 bytes.
#[test]
fn lines_that_fill_the_buffer(rt: HostRuntime) -> Result<(), Fail> {
    let alloc = rt.alloc();
    let mut cutter = LineCutter::new(alloc, 65_535, 1 << 40)?;
    for count in [65_534, 65_535, 65_536, 140_000] {
        let mut bytes = vec![in alloc; b'\t'; count]?;
        bytes.extend_from_slice(b"\nb\n")?;
        let given = lines_of(alloc, &mut cutter, &mut source_of(alloc, &bytes, &[])?, 6)?;
        if count <= 65_535 {
            assert_eq!(&rt; given, bytes, "{count} tabs");
        } else {
            assert_eq!(&rt;
                given.as_slice(),
                b"too long\nb\n".as_slice(),
                "{count} tabs"
            );
        }
        cutter.restart();
    }
    Ok(())
}
