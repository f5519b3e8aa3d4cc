//! The cutter, without what it reads: it finds lines in what it holds.
ghost use Rattle.std.specs.Prelude.{◌≡◌, ◌≤◌, ◌<◌, ◌^◌, ◌+◌, ◌⊎◌, [], length, take, IfOk, IfSome, IsSome, Err};
ghost use Rattle.std.specs.Borrow.{sem};
ghost use Rattle.std.specs.Io.BufRead.{Rests};
ghost use Rattle.gaz_outside.specs.Outside.{SameFiles, SameNumbers, left_of};
ghost use Rattle.gaz_lines.specs.Files.{place_in, left_at};
ghost use Rattle.gaz_lines.specs.Window.{items};

use crate::LineFault;
use crate::window::{SIZE, Span, Window};
use gaz_outside::{Failed, Shelf, Source};
use std::alloc::{AllocError, Global};

/// What was read since `new` or the last `restart`.
#[derive(Clone, Copy)]
pub(crate) enum Reads {
    Nothing,
    Source,
    /// The file with this number, up to this place. It may pass the greatest file limit by a buffer, so it is no u64.
    File(u64, u128),
}

/// Cuts lines out of the bytes of a source or a file.
#[derive(Drop)]
pub struct LineCutter {
    window: Window,
    /// How many bytes of the line at hand were let go, as it is too long.
    dropped: u64,
    /// How many bytes of the file limit are behind the lines that were given or refused.
    allowed: u64,
    number: u64,
    ended: bool,
    reads: Reads,
    line_limit: u32,
    file_limit: u64,
    ghost line_fits: { line_limit ≤ 65535 },
    ghost file_fits: { file_limit < 2 ^ 64 },
    ghost counted: { number + allowed ≤ file_limit },
    ghost within: { dropped ≤ allowed },
    ghost too_long: { 0 < dropped → line_limit < dropped },
    ghost placed: { place_in reads + allowed ≤ file_limit + (dropped + length (items window)) },
}

/// What the cutter makes of what it holds.
pub(crate) enum Step {
    /// A line, a refusal, or the end.
    Done(Result<Option<Span>, LineFault>),
    /// More bytes are wanted, and there is room. No LF stands in the first so many held bytes.
    More(usize),
}

impl LineCutter {
    ghost use Rattle.gaz_lines.specs.Lines.{IsLine};
    ghost use Rattle.gaz_lines.specs.Window.{bytes_at, text_at};
    ghost use Rattle.gaz_lines.specs.Cutter.{held, pending, HasEnded, IsPast, ReadsSource, MayReadSource, line_limit_of, file_limit_of, allowed_of, line_of, place_of, ReadsFile, MayReadFile, BlamesFile, IsFresh, Gave, GaveOfSource, GaveOfFile, Waited, FailedOnce, IfLine, OnFailed, answer_of};
    ghost use Rattle.gaz_lines.specs.declared.fault.LineFault.TheVariants.{FileTooLong};
    ghost use Rattle.gaz_lines.specs.contracts.cutter.LineCutter.{the_row};
    ghost use Rattle.gaz_lines.specs.Step.{CutOff, Stepped, MadeRoom};

    /// A cutter that gives lines up to the line limit, of texts up to the file limit, in bytes. It reserves its buffer.
    pub fn new(alloc: Global, line_limit: u32, file_limit: u64) -> Result<Self, AllocError>
        requires least { 1 ≤ line_limit }
        requires most { line_limit ≤ 65535 }
        ensures line_limit { IfOk result (λ cutter. line_limit_of cutter ≡ line_limit) }
        ensures file_limit { IfOk result (λ cutter. file_limit_of cutter ≡ file_limit) }
        ensures fresh { IfOk result (λ cutter. IsFresh cutter) }
    {
        let window = Window::new(alloc)?;
        Ok(LineCutter {
            window,
            dropped: 0,
            allowed: file_limit,
            number: 0,
            ended: false,
            reads: Reads::Nothing,
            line_limit,
            file_limit,
        })
    }

    /// Forgets all that was read. The limits stay.
    pub fn restart(&mut self)
        ensures line_limit { line_limit_of self.new ≡ line_limit_of self.old }
        ensures file_limit { file_limit_of self.new ≡ file_limit_of self.old }
        ensures fresh { IsFresh self.new }
    {
        self.window.clear();
        self.dropped = 0;
        self.allowed = self.file_limit;
        self.number = 0;
        self.ended = false;
        self.reads = Reads::Nothing;
    }

    /// The number of the last line given or refused, 0 before the first.
    pub fn line(&self) -> u64
        ensures { result ≡ line_of self.now }
    {
        self.number
    }

    /// Takes a line off what is held, with `ending` bytes behind it.
    fn cut(&mut self, size: usize, ending: usize) -> Result<Option<Span>, LineFault>
        requires held { size + ending ≤ length (items self.old.window) }
        requires within { self.old.dropped + (size + ending) ≤ self.old.allowed }
        requires some { 0 < self.old.dropped + (size + ending) }
        ensures { CutOff size ending self.old self.new result }
    {
        let length = self.dropped + size as u64;
        let span = self.window.front(size);
        self.window.consume(size + ending);
        self.allowed -= length + ending as u64;
        self.dropped = 0;
        self.number += 1;
        if length > u64::from(self.line_limit) {
            Err(LineFault::TooLong(self.number))
        } else {
            Ok(Some(span))
        }
    }

    /// Moves what is held to the front, or lets it go where it fills the buffer: then its line is too long.
    /// Answers how many bytes are held.
    fn make_room(&mut self) -> usize
        requires { self.old.dropped + length (items self.old.window) ≤ self.old.allowed }
        ensures { MadeRoom self.old self.new result }
    {
        self.window.move_to_front();
        let count = self.window.len();
        if count < SIZE {
            return count;
        }
        self.dropped += count as u64;
        self.window.clear();
        0
    }

    /// Looks for the end of the line in what is held, of which the first so many bytes hold no LF.
    pub(crate) fn step(&mut self, searched: usize) -> Step
        requires line { IsLine (take searched (items self.old.window)) }
        requires held { searched ≤ length (items self.old.window) }
        requires within { self.old.dropped + searched ≤ self.old.allowed }
        ensures { Stepped self.old self.new result }
    {
        let room = self.allowed - self.dropped;
        let count = self.window.len();
        let stop = if room < count as u64 {
            room as usize
        } else {
            count
        };
        match self.window.line_end(searched, stop) {
            Some(size) => Step::Done(self.cut(size, 1)),
            None if stop < count => Step::Done(Err(LineFault::FileTooLong)),
            None if !self.ended => Step::More(self.make_room()),
            None if self.dropped == 0 && count == 0 => Step::Done(Ok(None)),
            None => Step::Done(self.cut(count, 0)),
        }
    }

    /// Finds the next line, and asks the source only where none is held.
    fn find_in<S: Source>(&mut self, source: &mut S) -> Result<Option<Span>, LineFault>
        requires { HasEnded self.old → IfSome (left_of (S.view source.old)) (λ bytes. bytes ≡ []) }
        ensures gave { Gave self.old self.new (left_of (S.view source.old)) (left_of (S.view source.new)) (answer_of (text_at self.new.window) result) }
        ensures stands { IfLine (λ span. IsSome (bytes_at self.new.window span)) result }
        ensures reads { ReadsSource self.new }
        ensures waits { (source.new ≡ source.old)
            ⊎ Waited self.old.allowed 65536 (held self.old) (pending self.old (left_of (S.view source.old))) (left_of (S.view source.new)) }
        ensures waits_in_vain { OnFailed result (Waited self.old.allowed 0 (held self.old) (pending self.old (left_of (S.view source.old))) (left_of (S.view source.new))) }
        ensures past { IsPast self.old → result ≡ Err FileTooLong }
        ensures rests { HasEnded self.old → (source.new ≡ source.old) × OnFailed result ⊥ }
        ensures told { (S.view source.new).is_told ≡ (S.view source.old).is_told }
        ensures cause { FailedOnce (S.view source.old).faults (S.view source.new).faults result }
    {
        self.reads = Reads::Source;
        let mut searched = 0;
        loop {
            match self.step(searched) {
                Step::Done(result) => return result,
                Step::More(count) => searched = count,
            }
            match self.window.take_from(source) {
                Ok(count) => self.ended = count == 0,
                Err(Failed) => return Err(LineFault::Failed),
            }
        }
    }

    /// The next line, borrowed from the buffer, or none at the end. The source is to be the one that was read since `new`
    /// or the last `restart`.
    pub fn next_source<S: Source>(&mut self, source: &mut S) -> Result<Option<&[u8]>, LineFault>
        requires reads { MayReadSource self.old }
        requires ended { HasEnded self.old → IfSome (left_of (S.view source.old)) (λ bytes. bytes ≡ []) }
        ensures* after_borrow { sem 𝓛 (Rests the_row self.entry (λ new.
            GaveOfSource self.old new (left_of (S.view source.old)) (left_of (S.view source.new)) (answer_of (λ line. line.now) result))) }
        ensures line { IfLine (λ line. IsLine line.now × (length line.now ≤ line_limit_of self.old)) result }
        ensures waits { (source.new ≡ source.old)
            ⊎ Waited (allowed_of self.old) 65536 (held self.old) (pending self.old (left_of (S.view source.old))) (left_of (S.view source.new)) }
        ensures waits_in_vain { OnFailed result (Waited (allowed_of self.old) 0 (held self.old) (pending self.old (left_of (S.view source.old))) (left_of (S.view source.new))) }
        ensures past { IsPast self.old → result ≡ Err FileTooLong }
        ensures rests { HasEnded self.old → (source.new ≡ source.old) × OnFailed result ⊥ }
        ensures told { (S.view source.new).is_told ≡ (S.view source.old).is_told }
        ensures cause { FailedOnce (S.view source.old).faults (S.view source.new).faults result }
    {
        match self.find_in(source) {
            Ok(Some(span)) => Ok(Some(self.window.shown(span))),
            Ok(None) => Ok(None),
            Err(fault) => Err(fault),
        }
    }

    /// How far the file was read.
    fn place(&self) -> u128
        ensures { result ≡ place_of self.now }
    {
        match self.reads {
            Reads::File(_, at) => at,
            _ => 0,
        }
    }

    /// Finds the next line, and reads the file only where none is held.
    fn find_in_file<F: Shelf>(
        &mut self,
        shelf: &mut F,
        file: u64,
    ) -> Result<Option<Span>, LineFault>
        requires reads { MayReadFile self.old file }
        requires opened { IsSome ((F.view shelf.old).opened file) }
        requires ended { HasEnded self.old → IfSome (left_at (F.view shelf.old) file (place_of self.old)) (λ bytes. bytes ≡ []) }
        ensures gave { Gave self.old self.new (left_at (F.view shelf.old) file (place_of self.old)) (left_at (F.view shelf.new) file (place_of self.new)) (answer_of (text_at self.new.window) result) }
        ensures stands { IfLine (λ span. IsSome (bytes_at self.new.window span)) result }
        ensures reads { ReadsFile self.new file }
        ensures waits { (shelf.new ≡ shelf.old)
            ⊎ Waited self.old.allowed 65536 (held self.old) (pending self.old (left_at (F.view shelf.old) file (place_of self.old))) (left_at (F.view shelf.new) file (place_of self.new)) }
        ensures waits_in_vain { OnFailed result (Waited self.old.allowed 0 (held self.old) (pending self.old (left_at (F.view shelf.old) file (place_of self.old))) (left_at (F.view shelf.new) file (place_of self.new))) }
        ensures past { IsPast self.old → result ≡ Err FileTooLong }
        ensures rests { HasEnded self.old → (shelf.new ≡ shelf.old) × OnFailed result ⊥ }
        ensures same { SameFiles (F.view shelf.old) (F.view shelf.new) }
        ensures numbers { SameNumbers (F.view shelf.old) (F.view shelf.new) }
        ensures blames { BlamesFile ((F.view shelf.old).opened file) (F.view shelf.old) (F.view shelf.new) result }
        ensures cause { FailedOnce (F.view shelf.old).faults (F.view shelf.new).faults result }
    {
        self.reads = Reads::File(file, self.place());
        let mut searched = 0;
        loop {
            match self.step(searched) {
                Step::Done(result) => return result,
                Step::More(count) => searched = count,
            }
            let at = self.place();
            match self.window.read_from(shelf, file, at as u64) {
                Ok(count) => {
                    self.ended = count == 0;
                    self.reads = Reads::File(file, at + count as u128);
                }
                Err(Failed) => return Err(LineFault::Failed),
            }
        }
    }

    /// The next line of the open file, borrowed from the buffer, or none at the end. The file is to be the one that was read
    /// since `new` or the last `restart`.
    pub fn next_shelf<F: Shelf>(
        &mut self,
        shelf: &mut F,
        file: u64,
    ) -> Result<Option<&[u8]>, LineFault>
        requires reads { MayReadFile self.old file }
        requires opened { IsSome ((F.view shelf.old).opened file) }
        requires ended { HasEnded self.old → IfSome (left_at (F.view shelf.old) file (place_of self.old)) (λ bytes. bytes ≡ []) }
        ensures* after_borrow { sem 𝓛 (Rests the_row self.entry (λ new.
            GaveOfFile (shelf.new ≡ shelf.old) self.old new file (F.view shelf.old) (F.view shelf.new) (answer_of (λ line. line.now) result))) }
        ensures line { IfLine (λ line. IsLine line.now × (length line.now ≤ line_limit_of self.old)) result }
        ensures past { IsPast self.old → result ≡ Err FileTooLong }
        ensures rests { HasEnded self.old → (shelf.new ≡ shelf.old) × OnFailed result ⊥ }
        ensures same { SameFiles (F.view shelf.old) (F.view shelf.new) }
        ensures numbers { SameNumbers (F.view shelf.old) (F.view shelf.new) }
        ensures blames { BlamesFile ((F.view shelf.old).opened file) (F.view shelf.old) (F.view shelf.new) result }
        ensures cause { FailedOnce (F.view shelf.old).faults (F.view shelf.new).faults result }
    {
        match self.find_in_file(shelf, file) {
            Ok(Some(span)) => Ok(Some(self.window.shown(span))),
            Ok(None) => Ok(None),
            Err(fault) => Err(fault),
        }
    }
}
