//! A shelf in memory, for tests. It fails exactly at the calls whose numbers it is given.
ghost use Rattle.std.specs.Prelude.{◌≡◌, ◌≢◌, ℕ, List, [], true, false, All, map, reverse, slice_index_or, ◌≤◌, ◌<◌, ◌↔◌, ◌+◌, ◌-◌, ◌^◌, ◌⊎◌, length, take, drop, min, vec_len, Some, None, IsNone, IsSome, IsTrue, IsErr, IfOk, IfSome, Contains, option_map};
ghost use Rattle.gaz_outside.specs.Outside.{FindsFiles, SameFiles, SameNumbers, Opens, Blames, HasCause, files_of, bytes_of};
ghost use Rattle.gaz_outside.specs.Listed.{IsLastNamed, file_named, listed, name_at, opened_in, open_is_named};

use crate::mem_source::{admit, copy_front};
use crate::short_name::{ShortName, short_name};
use crate::{Failed, Shelf};
use std::alloc::AllocError;
use std::mem;

/// A list of names and bytes, of which the last with a name stands.
type Files = Vec<(String, Vec<u8>)>;

/// A shelf of files. An open number is the file's place in the list. It may have several lists, one after another.
#[derive(Drop)]
pub struct MemShelf {
    files: Files,
    /// Which places are open. Each list has room in it.
    is_open: Vec<bool>,
    /// The lists of before, up to `next`, and from there on those that come later.
    others: Vec<Files>,
    next: usize,
    /// The next `open` finds the next list, if there is one. No place is open then.
    finds_next: bool,
    fails: Vec<u64>,
    calls: u64,
    last_fault: Option<ShortName>,
    faults: u64,
    ghost fits: { faults < 2 ^ 64 },
    ghost room: { vec_len files ≤ vec_len is_open },
    ghost room_later: { All (λ other. vec_len other ≤ vec_len is_open) others.items },
    ghost within: { next ≤ vec_len others },
    ghost closed: { finds_next ≡ true → (place : ℕ) → slice_index_or is_open.items place false ≡ false },
    ghost last: { (place : ℕ) (name : List ℕ) → opened_in (listed files.items) is_open.items place ≡ Some name → IsLastNamed (listed files.items) name place },
    ghost short: { (place : ℕ) (name : List ℕ) → opened_in (listed files.items) is_open.items place ≡ Some name → length name ≤ 48 },
}

/// The number of files in the longest of these lists.
fn longest(files: &Files, later: &[Files]) -> usize
    ensures first { vec_len files.now ≤ result }
    ensures each { All (λ other. vec_len other ≤ result) later.now }
{
    let mut most = files.len();
    for other in later {
        most = most.max(other.len());
    }
    most
}

#[tactic(auto, unfolding(crate::specs::Outside::files_of))]
impl MemShelf {
    ghost use Rattle.gaz_outside.specs.Memory.{failing_reads, listed_files, later_files, finds_next, files_found, later_found, reads_made};

    /// A shelf of these files, with no open number. Its calls of `open` and `read` with these numbers fail, where both are
    /// counted together, from 1. Only this takes memory.
    pub fn new(files: Vec<(String, Vec<u8>)>, fails: Vec<u64>) -> Result<Self, AllocError>
        ensures told { IfOk result (λ shelf. IsTrue (⟦<MemShelf as Shelf>⟧.view shelf).is_told) }
        ensures files { IfOk result (λ shelf. (⟦<MemShelf as Shelf>⟧.view shelf).files ≡ file_named (listed files.items)) }
        ensures closed { IfOk result (λ shelf. (n : ℕ) → (⟦<MemShelf as Shelf>⟧.view shelf).opened n ≡ None) }
        ensures no_fault { IfOk result (λ shelf. (⟦<MemShelf as Shelf>⟧.view shelf).last_fault ≡ None) }
        ensures faults { IfOk result (λ shelf. (⟦<MemShelf as Shelf>⟧.view shelf).faults ≡ 0) }
        ensures kept { IfOk result (λ shelf. listed_files shelf ≡ listed files.items) }
        ensures later { IfOk result (λ shelf. later_files shelf ≡ []) }
        ensures fails { IfOk result (λ shelf. failing_reads shelf ≡ fails.items) }
        ensures calls { IfOk result (λ shelf. reads_made shelf ≡ 0) }
    {
        let later = Vec::new(*files.allocator());
        MemShelf::changing(files, later, fails)
    }

    /// A shelf that has these files at first, and then the later ones, one list after another: the first `open` after each
    /// `close_all` finds the next list, and the last one stays. So each request that opens files finds a list of its own.
    pub fn changing(
        files: Vec<(String, Vec<u8>)>,
        later: Vec<Vec<(String, Vec<u8>)>>,
        fails: Vec<u64>,
    ) -> Result<Self, AllocError>
        ensures told { IfOk result (λ shelf. IsTrue (⟦<MemShelf as Shelf>⟧.view shelf).is_told) }
        ensures files { IfOk result (λ shelf. (⟦<MemShelf as Shelf>⟧.view shelf).files ≡ file_named (listed files.items)) }
        ensures closed { IfOk result (λ shelf. (n : ℕ) → (⟦<MemShelf as Shelf>⟧.view shelf).opened n ≡ None) }
        ensures no_fault { IfOk result (λ shelf. (⟦<MemShelf as Shelf>⟧.view shelf).last_fault ≡ None) }
        ensures faults { IfOk result (λ shelf. (⟦<MemShelf as Shelf>⟧.view shelf).faults ≡ 0) }
        ensures kept { IfOk result (λ shelf. listed_files shelf ≡ listed files.items) }
        ensures later { IfOk result (λ shelf. later_files shelf ≡ map (λ files. listed files.items) later.items) }
        ensures first { IfOk result (λ shelf. finds_next shelf ≡ false) }
        ensures fails { IfOk result (λ shelf. failing_reads shelf ≡ fails.items) }
        ensures calls { IfOk result (λ shelf. reads_made shelf ≡ 0) }
    {
        let is_open = vec![in *files.allocator(); false; longest(&files, &later)]?;
        Ok(MemShelf {
            files,
            is_open,
            others: later,
            next: 0,
            finds_next: false,
            fails,
            calls: 0,
            last_fault: None,
            faults: 0,
        })
    }

    /// Finds the next list, where that is due.
    fn look(&mut self)
        ensures files { FindsFiles (⟦<MemShelf as Shelf>⟧.view self.old) (⟦<MemShelf as Shelf>⟧.view self.new) }
        ensures kept { listed_files self.new ≡ files_found (finds_next self.old) (listed_files self.old) (later_files self.old) }
        ensures later { later_files self.new ≡ later_found (finds_next self.old) (later_files self.old) }
        ensures found { finds_next self.new ≡ false }
        ensures numbers { SameNumbers (⟦<MemShelf as Shelf>⟧.view self.old) (⟦<MemShelf as Shelf>⟧.view self.new) }
        ensures blamed { (⟦<MemShelf as Shelf>⟧.view self.new).last_fault ≡ (⟦<MemShelf as Shelf>⟧.view self.old).last_fault }
        ensures faults { (⟦<MemShelf as Shelf>⟧.view self.new).faults ≡ (⟦<MemShelf as Shelf>⟧.view self.old).faults }
        ensures calls { reads_made self.new ≡ reads_made self.old }
        ensures plan { failing_reads self.new ≡ failing_reads self.old }
    {
        if self.finds_next && self.next < self.others.len() {
            mem::swap(&mut self.files, &mut self.others[self.next]);
            self.next += 1;
        }
        self.finds_next = false;
    }

    /// Opens a file of the list that it has.
    fn open_found(&mut self, name: &str) -> Result<Option<u64>, Failed>
        requires name { length name.now ≤ 48 }
        requires found { finds_next self.old ≡ false }
        ensures found { IfOk result (λ number. IsSome number ↔ IsSome (file_named (listed_files self.old) name.now)) }
        ensures opens { Opens name.now (⟦<MemShelf as Shelf>⟧.view self.old) (⟦<MemShelf as Shelf>⟧.view self.new) result }
        ensures same { SameFiles (⟦<MemShelf as Shelf>⟧.view self.old) (⟦<MemShelf as Shelf>⟧.view self.new) }
        ensures blames { Blames (Some name.now) (⟦<MemShelf as Shelf>⟧.view self.old) (⟦<MemShelf as Shelf>⟧.view self.new) result }
        ensures cause { HasCause (⟦<MemShelf as Shelf>⟧.view self.old).faults (⟦<MemShelf as Shelf>⟧.view self.new).faults result }
        ensures place { IfOk result (λ number. IfSome number (IsLastNamed (listed_files self.old) name.now)) }
        ensures kept { listed_files self.new ≡ listed_files self.old }
        ensures later { later_files self.new ≡ later_files self.old }
        ensures next { finds_next self.new ≡ false }
        ensures fails { IsErr result ↔ Contains (failing_reads self.old) (reads_made self.new) }
        ensures calls { reads_made self.new ≡ min (reads_made self.old + 1) (2 ^ 64 - 1) }
        ensures plan { failing_reads self.new ≡ failing_reads self.old }
    {
        if let Err(failed) = admit(&self.fails, &mut self.calls, &mut self.faults) {
            self.last_fault = Some(short_name(name));
            return Err(failed);
        }
        match place_of(&self.files, name) {
            Some(place) => {
                self.is_open[place] = true;
                Ok(Some(place as u64))
            }
            None => Ok(None),
        }
    }
}

/// The place of the last file with the name.
fn place_of(files: &[(String, Vec<u8>)], name: &str) -> Option<usize>
    ensures last { IfSome result (IsLastNamed (listed files.now) name.now) }
    ensures none { IsNone result → (place : ℕ) → name_at (listed files.now) place ≢ Some name.now }
{
    for place in (0..files.len()).rev() {
        if files[place].0.as_str() == name {
            return Some(place);
        }
    }
    None
}

#[tactic(auto, unfolding(crate::specs::Outside::files_of, crate::specs::Outside::bytes_of))]
impl Shelf for MemShelf {
    ghost use Rattle.gaz_outside.specs.Memory.{failing_reads, listed_files, later_files, finds_next, files_found, later_found, reads_made};

    ghost view = { λ s. record {
      is_told = true;
      files = file_named (listed s.files.items);
      earlier = map (λ files. file_named (listed files.items)) (reverse (take s.next s.others.items));
      opened = opened_in (listed s.files.items) s.is_open.items;
      last_fault = option_map (λ name. name.bytes) s.last_fault;
      faults = s.faults;
    } };

    ghost faults_fit = { λ s. s.fits };

    ghost open_told = { λ s n told. open_is_named (listed s.files.items) s.is_open.items n };

    /// The number is the place of the last file with the name. It fails exactly at the calls with the numbers that the
    /// shelf was given.
    fn open(&mut self, name: &str) -> Result<Option<u64>, Failed>
        requires { length name.now ≤ 48 }
        ensures found { IfOk result (λ number. IfSome (files_of (⟦<MemShelf as Shelf>⟧.view self.new)) (λ files. IsSome number ↔ IsSome (files name.now))) }
        ensures opens { Opens name.now (⟦<MemShelf as Shelf>⟧.view self.old) (⟦<MemShelf as Shelf>⟧.view self.new) result }
        ensures files { FindsFiles (⟦<MemShelf as Shelf>⟧.view self.old) (⟦<MemShelf as Shelf>⟧.view self.new) }
        ensures blames { Blames (Some name.now) (⟦<MemShelf as Shelf>⟧.view self.old) (⟦<MemShelf as Shelf>⟧.view self.new) result }
        ensures cause { HasCause (⟦<MemShelf as Shelf>⟧.view self.old).faults (⟦<MemShelf as Shelf>⟧.view self.new).faults result }
        ensures place { IfOk result (λ number. IfSome number (IsLastNamed (listed_files self.new) name.now)) }
        ensures kept { listed_files self.new ≡ files_found (finds_next self.old) (listed_files self.old) (later_files self.old) }
        ensures later { later_files self.new ≡ later_found (finds_next self.old) (later_files self.old) }
        ensures next { finds_next self.new ≡ false }
        ensures fails { IsErr result ↔ Contains (failing_reads self.old) (reads_made self.new) }
        ensures calls { reads_made self.new ≡ min (reads_made self.old + 1) (2 ^ 64 - 1) }
        ensures plan { failing_reads self.new ≡ failing_reads self.old }
    {
        self.look();
        self.open_found(name)
    }

    /// It gives as much as there is room for and bytes, and fails exactly at the calls with the numbers that the shelf was
    /// given.
    fn read(&mut self, file: u64, at: u64, buf: &mut [u8]) -> Result<usize, Failed>
        requires { IsSome ((⟦<MemShelf as Shelf>⟧.view self.old).opened file) }
        ensures count { IfOk result (λ n. n ≤ length buf.old) }
        ensures bytes { IfOk result (λ n. IfSome (bytes_of (⟦<MemShelf as Shelf>⟧.view self.old) file) (λ bytes. take n buf.new ≡ take n (drop at bytes))) }
        ensures end { IfOk result (λ n. IfSome (bytes_of (⟦<MemShelf as Shelf>⟧.view self.old) file) (λ bytes. (n ≡ 0) ↔ ((length buf.old ≡ 0) ⊎ (length bytes ≤ at)))) }
        ensures numbers { SameNumbers (⟦<MemShelf as Shelf>⟧.view self.old) (⟦<MemShelf as Shelf>⟧.view self.new) }
        ensures same { SameFiles (⟦<MemShelf as Shelf>⟧.view self.old) (⟦<MemShelf as Shelf>⟧.view self.new) }
        ensures blames { Blames ((⟦<MemShelf as Shelf>⟧.view self.old).opened file) (⟦<MemShelf as Shelf>⟧.view self.old) (⟦<MemShelf as Shelf>⟧.view self.new) result }
        ensures cause { HasCause (⟦<MemShelf as Shelf>⟧.view self.old).faults (⟦<MemShelf as Shelf>⟧.view self.new).faults result }
        ensures whole { IfOk result (λ n. IfSome (bytes_of (⟦<MemShelf as Shelf>⟧.view self.old) file) (λ bytes. n ≡ min (length buf.old) (length bytes - at))) }
        ensures kept { listed_files self.new ≡ listed_files self.old }
        ensures later { later_files self.new ≡ later_files self.old }
        ensures next { finds_next self.new ≡ finds_next self.old }
        ensures fails { IsErr result ↔ Contains (failing_reads self.old) (reads_made self.new) }
        ensures calls { reads_made self.new ≡ min (reads_made self.old + 1) (2 ^ 64 - 1) }
        ensures plan { failing_reads self.new ≡ failing_reads self.old }
    {
        let (name, bytes) = &self.files[file as usize];
        if let Err(failed) = admit(&self.fails, &mut self.calls, &mut self.faults) {
            self.last_fault = Some(short_name(name.as_str()));
            return Err(failed);
        }
        let start = (at as usize).min(bytes.len());
        Ok(copy_front(&bytes[start..], buf))
    }

    /// It isn't counted as a call. The next `open` finds the next files, if there are any.
    fn close_all(&mut self)
        ensures closed { (n : ℕ) → (⟦<MemShelf as Shelf>⟧.view self.new).opened n ≡ None }
        ensures same { SameFiles (⟦<MemShelf as Shelf>⟧.view self.old) (⟦<MemShelf as Shelf>⟧.view self.new) }
        ensures blamed { (⟦<MemShelf as Shelf>⟧.view self.new).last_fault ≡ (⟦<MemShelf as Shelf>⟧.view self.old).last_fault }
        ensures faults { (⟦<MemShelf as Shelf>⟧.view self.new).faults ≡ (⟦<MemShelf as Shelf>⟧.view self.old).faults }
        ensures kept { listed_files self.new ≡ listed_files self.old }
        ensures later { later_files self.new ≡ later_files self.old }
        ensures next { finds_next self.new ≡ true }
        ensures calls { reads_made self.new ≡ reads_made self.old }
        ensures plan { failing_reads self.new ≡ failing_reads self.old }
    {
        self.is_open.fill(false);
        self.finds_next = true;
    }
}
