//! The buffer: bytes that were taken and not given yet, and room behind them.
ghost use Rattle.std.specs.Prelude.{◌≡◌, ◌≤◌, ◌<◌, ◌+◌, ◌-◌, ℕ, List, [], ◌++◌, vec_len, length, take, drop, IfOk, OnErr, IfSome, IsSome, Some, MatchOption, slice_index};
ghost use Rattle.gaz_outside.specs.Outside.{HasCause, SameNumbers, SameFiles, Blames, left_of};
ghost use Rattle.std.specs.Io.KnownBytes.{prepend_known};
ghost use Rattle.gaz_lines.specs.Lines.{IsLine};

use gaz_outside::{Failed, Shelf, Source};
use memchr::memchr;
use std::alloc::{AllocError, Global};

/// One byte more than the longest line, so that a line with its LF fits.
pub(crate) const SIZE: usize = 65_536;

/// Bytes that were taken and not given yet stand from `start` to `end`.
#[derive(Drop)]
pub(crate) struct Window {
    bytes: Vec<u8>,
    start: usize,
    end: usize,
    ghost ordered: { start ≤ end },
    ghost within: { end ≤ vec_len bytes },
    ghost size: { vec_len bytes ≡ 65536 },
}

/// Where a line stands in the buffer.
#[derive(Clone, Copy)]
pub(crate) struct Span {
    pub(crate) from: usize,
    pub(crate) to: usize,
}

impl Window {
    ghost use Rattle.gaz_lines.specs.Window.{items, bytes_at, has_room};
    ghost use Rattle.gaz_lines.specs.Files.{left_at};

    pub(crate) fn new(alloc: Global) -> Result<Self, AllocError>
        ensures { IfOk result (λ window. items window ≡ []) }
    {
        let bytes = vec![in alloc; 0u8; SIZE]?;
        Ok(Window {
            bytes,
            start: 0,
            end: 0,
        })
    }

    pub(crate) fn clear(&mut self)
        ensures items { items self.new ≡ [] }
        ensures room { has_room self.new }
    {
        self.start = 0;
        self.end = 0;
    }

    pub(crate) fn len(&self) -> usize
        ensures count { result ≡ length (items self.now) }
        ensures fits { result ≤ 65536 }
    {
        self.end - self.start
    }

    /// Where the first LF stands in the held bytes from `from` up to `stop`.
    pub(crate) fn line_end(&self, from: usize, stop: usize) -> Option<usize>
        requires ordered { from ≤ stop }
        requires within { stop ≤ length (items self.now) }
        requires searched { IsLine (take from (items self.now)) }
        ensures { MatchOption result (IsLine (take stop (items self.now)))
            (λ n. IsLine (take n (items self.now)) × (n < stop) × (slice_index (items self.now) n ≡ 10)) }
    {
        match memchr(b'\n', &self.bytes[self.start + from..self.start + stop]) {
            Some(place) => Some(from + place),
            None => None,
        }
    }

    /// Where the first so many held bytes stand.
    pub(crate) fn front(&self, size: usize) -> Span
        requires { size ≤ length (items self.now) }
        ensures { bytes_at self.now result ≡ Some (take size (items self.now)) }
    {
        Span {
            from: self.start,
            to: self.start + size,
        }
    }

    /// The first so many held bytes aren't held any more. They stand where they stood.
    pub(crate) fn consume(&mut self, count: usize)
        requires { count ≤ length (items self.old) }
        ensures items { items self.new ≡ drop count (items self.old) }
        ensures stands { (span : Span) → bytes_at self.new span ≡ bytes_at self.old span }
    {
        self.start += count;
    }

    /// The bytes that stand there.
    pub(crate) fn shown(&self, span: Span) -> &[u8]
        requires { IsSome (bytes_at self.now span) }
        ensures { Some result.now ≡ bytes_at self.now span }
    {
        &self.bytes[span.from..span.to]
    }

    /// Moves what is held to the front.
    pub(crate) fn move_to_front(&mut self)
        ensures items { items self.new ≡ items self.old }
        ensures room { length (items self.new) < 65536 → has_room self.new }
    {
        let (start, end) = (self.start, self.end);
        if start > 0 {
            self.bytes.copy_within(start..end, 0);
            self.start = 0;
            self.end = end - start;
        }
    }

    /// Takes more bytes behind those that are held, and answers how many.
    pub(crate) fn take_from<S: Source>(&mut self, source: &mut S) -> Result<usize, Failed>
        requires { has_room self.old }
        ensures count { IfOk result (λ n. n ≤ 65536) }
        ensures ok { IfOk result (λ n. (chunk : List ℕ) × (length chunk ≡ n) × (items self.new ≡ items self.old ++ chunk)
            × (left_of (S.view source.old) ≡ prepend_known chunk (left_of (S.view source.new)))) }
        ensures end { IfOk result (λ n. n ≡ 0 → IfSome (left_of (S.view source.old)) (λ bytes. bytes ≡ [])) }
        ensures err { OnErr result ((items self.new ≡ items self.old) × (left_of (S.view source.new) ≡ left_of (S.view source.old))) }
        ensures told { (S.view source.new).is_told ≡ (S.view source.old).is_told }
        ensures cause { HasCause (S.view source.old).faults (S.view source.new).faults result }
    {
        let end = self.end;
        let count = source.take(&mut self.bytes[end..])?;
        self.end = end + count;
        Ok(count)
    }

    /// Reads the bytes of the file from `at` on behind those that are held, and answers how many.
    pub(crate) fn read_from<F: Shelf>(
        &mut self,
        shelf: &mut F,
        file: u64,
        at: u64,
    ) -> Result<usize, Failed>
        requires room { has_room self.old }
        requires opened { IsSome ((F.view shelf.old).opened file) }
        ensures count { IfOk result (λ n. n ≤ 65536) }
        ensures ok { IfOk result (λ n. (chunk : List ℕ) × (length chunk ≡ n) × (items self.new ≡ items self.old ++ chunk)
            × (left_at (F.view shelf.old) file at ≡ prepend_known chunk (left_at (F.view shelf.new) file (at + n)))) }
        ensures end { IfOk result (λ n. n ≡ 0 → IfSome (left_at (F.view shelf.old) file at) (λ bytes. bytes ≡ [])) }
        ensures kept { OnErr result (items self.new ≡ items self.old) }
        ensures unread { OnErr result (left_at (F.view shelf.new) file at ≡ left_at (F.view shelf.old) file at) }
        ensures numbers { SameNumbers (F.view shelf.old) (F.view shelf.new) }
        ensures same { SameFiles (F.view shelf.old) (F.view shelf.new) }
        ensures blames { Blames ((F.view shelf.old).opened file) (F.view shelf.old) (F.view shelf.new) result }
        ensures cause { HasCause (F.view shelf.old).faults (F.view shelf.new).faults result }
    {
        let end = self.end;
        match shelf.read(file, at, &mut self.bytes[end..]) {
            Ok(count) => {
                self.end = end + count;
                Ok(count)
            }
            Err(failed) => Err(failed),
        }
    }
}
