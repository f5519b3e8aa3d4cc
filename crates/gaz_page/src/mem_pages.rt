//! Pages in memory, for tests and benchmarks.
ghost use Rattle.std.specs.Prelude.{◌≡◌, ◌≢◌, ◌≤◌, ◌<◌, ◌↔◌, ◌+◌, ◌-◌, ◌*◌, ◌%◌, ◌^◌, false, ℕ, List, ◌++◌, replicate, take, drop, length, vec_len, min, IsTrue, IsErr, Some, IfOk, IfErr, OnOk, OnErr, Contains};
ghost use Rattle.std.specs.Borrow.{sem};
ghost use Rattle.std.specs.Io.BufRead.{Rests};
ghost use Rattle.gaz_num.specs.Counts.{RisesOnce};
ghost use Rattle.gaz_page.specs.Pages.{PagesView, IsCounted, IsFailed, HasReads, HasPageCause, Counts, Writes, Takes, Gives, IsDamaged, NotDamaged, damage, with_page};
ghost use Rattle.gaz_page.specs.Area.{page_at};
ghost use Rattle.gaz_page.specs.Free.{free_link};

use crate::free::{read_free, write_free};
use crate::{PAGE, PageFault, Pages};
use std::alloc::{AllocError, Global};

/// What a page is that was never written.
static ZEROS: [u8; PAGE] = [0; PAGE];

/// Pages that are zeros until they are written.
#[derive(Drop)]
pub struct MemPages {
    area: Vec<u8>,
    free: u32,
    fresh: u32,
    fails: Vec<u64>,
    calls: u64,
    faults: u64,
    starved: bool,
    reads: u64,
    changed: u64,
    ghost whole: { vec_len area % 4096 ≡ 0 },
    ghost faults_fit: { faults < 2 ^ 64 },
}

/// The page that stands there.
fn page_of(area: &[u8], page: u32) -> &[u8]
    requires { length area.now % 4096 ≡ 0 }
    ensures bytes { result.now ≡ page_at area.now page }
    ensures size { length result.now ≡ 4096 }
{
    let from = page as usize * PAGE;
    if area.len() < from + PAGE {
        return &ZEROS;
    }
    &area[from..from + PAGE]
}

/// Puts zeros behind the area up to a length. An `Err` changes nothing.
fn grow(area: &mut Vec<u8>, to: usize) -> Result<(), AllocError>
    requires whole { length area.old.items % 4096 ≡ 0 }
    requires pages { to % 4096 ≡ 0 }
    ensures ok { OnOk result (area.new.items ≡ area.old.items ++ replicate (to - length area.old.items) 0) }
    ensures whole { length area.new.items % 4096 ≡ 0 }
    ensures err { OnErr result (area.new.items ≡ area.old.items) }
{
    if to > area.len() {
        area.resize(to, 0)?;
    }
    Ok(())
}

/// Replaces a range.
fn replace(area: &mut [u8], at: usize, bytes: &[u8])
    requires { at + length bytes.now ≤ length area.old }
    ensures { area.new ≡ take at area.old ++ bytes.now ++ drop (at + length bytes.now) area.old }
{
    area[at..at + bytes.len()].copy_from_slice(bytes);
}

/// Replaces a page of the area, which grows to have it. An `Err` changes nothing.
fn put_page(area: &mut Vec<u8>, page: u32, bytes: &[u8]) -> Result<(), AllocError>
    requires whole { length area.old.items % 4096 ≡ 0 }
    requires size { length bytes.now ≡ 4096 }
    ensures ok { OnOk result (page_at area.new.items ≡ with_page page bytes.now (page_at area.old.items)) }
    ensures whole { length area.new.items % 4096 ≡ 0 }
    ensures err { OnErr result (area.new.items ≡ area.old.items) }
{
    let from = page as usize * PAGE;
    grow(area, from + PAGE)?;
    replace(area, from, bytes);
    Ok(())
}

/// Counts a call, and fails where its number is listed.
fn admit(fails: &[u64], calls: &mut u64, faults: &mut u64) -> Result<(), PageFault>
    ensures fits { faults.new < 2 ^ 64 }
    ensures calls { calls.new ≡ min (calls.old + 1) (2 ^ 64 - 1) }
    ensures more { calls.old ≤ calls.new }
    ensures fails { IsErr result ↔ Contains fails.now calls.new }
    ensures failed { IfErr result (λ fault. fault ≡ PageFault.Failed) }
    ensures grows { faults.old ≤ faults.new }
    ensures cause { IsCounted faults.old faults.new result }
{
    // Read first, so that their ranges are known.
    let _faults = *faults;
    let _calls = *calls;
    *calls = calls.saturating_add(1);
    if fails.contains(calls) {
        *faults = faults.saturating_add(1);
        return Err(PageFault::Failed);
    }
    Ok(())
}

/// Makes a page of the area a free one, which links to another. An `Err` changes nothing.
fn put_free(area: &mut Vec<u8>, page: u32, link: u32) -> Result<(), AllocError>
    requires { length area.old.items % 4096 ≡ 0 }
    ensures linked { OnOk result (free_link page (page_at area.new.items page) ≡ Some link) }
    ensures others { OnOk result ((n : ℕ) → n ≢ page → page_at area.new.items n ≡ page_at area.old.items n) }
    ensures whole { length area.new.items % 4096 ≡ 0 }
    ensures err { OnErr result (area.new.items ≡ area.old.items) }
{
    let mut bytes = [0; PAGE];
    write_free(page, link, &mut bytes);
    put_page(area, page, &bytes)
}

impl MemPages {
    ghost use Rattle.gaz_page.specs.Memory.{failing, calls_made, next_call, Counted};
    ghost use Rattle.gaz_page.specs.Pages.{SamePages};

    /// Pages of which none was taken, whose calls with these numbers, from 1, fail.
    pub fn new(fails: Vec<u64>) -> Self
        ensures told { IsTrue (⟦<MemPages as Pages>⟧.view result).is_told }
        ensures zeros { (n : ℕ) → (⟦<MemPages as Pages>⟧.view result).page n ≡ replicate 4096 0 }
        ensures free { (⟦<MemPages as Pages>⟧.view result).free ≡ 0 }
        ensures fresh { (⟦<MemPages as Pages>⟧.view result).fresh ≡ 1 }
        ensures faults { (⟦<MemPages as Pages>⟧.view result).faults ≡ 0 }
        ensures ample { (⟦<MemPages as Pages>⟧.view result).is_starved ≡ false }
        ensures counts { ((⟦<MemPages as Pages>⟧.view result).reads ≡ 0) × ((⟦<MemPages as Pages>⟧.view result).changed ≡ 0) }
        ensures may_change { (⟦<MemPages as Pages>⟧.view result).is_read_only ≡ false }
        ensures fails { failing result ≡ fails.items }
        ensures calls { calls_made result ≡ 0 }
    {
        let alloc = *fails.allocator();
        MemPages {
            area: Vec::new(alloc),
            free: 0,
            fresh: 1,
            fails,
            calls: 0,
            faults: 0,
            starved: false,
            reads: 0,
            changed: 0,
        }
    }

    /// Counts a read, and fails where its number is listed.
    fn begin_read(&mut self) -> Result<(), PageFault>
        ensures same { SamePages (⟦<MemPages as Pages>⟧.view self.old) (⟦<MemPages as Pages>⟧.view self.new) }
        ensures cause { HasPageCause (⟦<MemPages as Pages>⟧.view self.old) (⟦<MemPages as Pages>⟧.view self.new) result }
        ensures failed { IfErr result (λ fault. fault ≡ PageFault.Failed) }
        ensures fails { IsFailed result ↔ Contains (failing self.old) (next_call self.old) }
        ensures counted { Counted self.old self.new }
        ensures more { calls_made self.old ≤ calls_made self.new }
        ensures read { OnOk result (RisesOnce (⟦<MemPages as Pages>⟧.view self.old).reads (⟦<MemPages as Pages>⟧.view self.new).reads) }
        ensures unread { OnErr result ((⟦<MemPages as Pages>⟧.view self.new).reads ≡ (⟦<MemPages as Pages>⟧.view self.old).reads) }
        ensures grows { (⟦<MemPages as Pages>⟧.view self.old).reads ≤ (⟦<MemPages as Pages>⟧.view self.new).reads }
        ensures unchanged { (⟦<MemPages as Pages>⟧.view self.new).changed ≡ (⟦<MemPages as Pages>⟧.view self.old).changed }
    {
        admit(&self.fails, &mut self.calls, &mut self.faults)?;
        self.reads = self.reads.saturating_add(1);
        Ok(())
    }

    /// How many calls were made, those that failed among them.
    pub fn calls(&self) -> u64
        ensures { result ≡ calls_made self.now }
    {
        self.calls
    }

    /// How many pages were read.
    pub fn reads(&self) -> u64
        ensures { result ≡ (⟦<MemPages as Pages>⟧.view self.now).reads }
    {
        self.reads
    }

    /// How many pages were written or given.
    pub fn changed(&self) -> u64
        ensures { result ≡ (⟦<MemPages as Pages>⟧.view self.now).changed }
    {
        self.changed
    }

    /// The least page that was never taken.
    pub fn fresh(&self) -> u32
        ensures { result ≡ (⟦<MemPages as Pages>⟧.view self.now).fresh }
    {
        self.fresh
    }

    /// The first free page, or 0.
    pub fn free(&self) -> u32
        ensures { result ≡ (⟦<MemPages as Pages>⟧.view self.now).free }
    {
        self.free
    }
}

#[tactic(auto, unfolding(crate::specs::Pages::damage))]
impl Pages for MemPages {
    ghost use Rattle.std.specs.Prelude.{true, false};
    ghost use Rattle.gaz_page.specs.Memory.{failing, calls_made};
    ghost use Rattle.gaz_page.specs.Memory.{Counted, next_call, keeps_itself, keeps_further};
    ghost use Rattle.gaz_page.specs.Area.{length-page_at};
    ghost use Rattle.gaz_page.specs.contracts.mem_pages.MemPages.{the_row};

    ghost view = { λ s. record { is_told = true; page = page_at s.area.items; free = s.free; fresh = s.fresh; faults = s.faults; is_starved = s.starved; reads = s.reads; changed = s.changed; is_read_only = false } };

    ghost keeps = { λ old new. (failing new ≡ failing old) × (calls_made old ≤ calls_made new) };

    ghost sizes = { λ s n. length-page_at s.area.items n };

    ghost faults_fit = { λ s. s.faults_fit };

    ghost keeps_same = { λ s. keeps_itself s };

    ghost keeps_on = { λ a b c first second. keeps_further a b c first second };

    fn read(&mut self, page: u32) -> Result<&[u8], PageFault>
        ensures size { IfOk result (λ bytes. length bytes.now ≡ 4096) }
        ensures bytes { IfOk result (λ bytes. IsTrue (⟦<MemPages as Pages>⟧.view self.old).is_told → bytes.now ≡ (⟦<MemPages as Pages>⟧.view self.old).page page) }
        ensures failed { IfErr result (λ fault. fault ≡ PageFault.Failed) }
        ensures* after_borrow { sem 𝓛 (Rests the_row self.entry (λ new. ⟦<MemPages as Pages>⟧.keeps self.old new × HasReads 1 (⟦<MemPages as Pages>⟧.view self.old) (⟦<MemPages as Pages>⟧.view new) result)) }
        ensures fails { IsFailed result ↔ Contains (failing self.old) (next_call self.old) }
    {
        self.begin_read()?;
        Ok(page_of(&self.area, page))
    }

    fn write(&mut self, page: u32, bytes: &[u8]) -> Result<(), PageFault>
        requires may_change { (⟦<MemPages as Pages>⟧.view self.old).is_read_only ≡ false }
        requires size { length bytes.now ≡ 4096 }
        ensures written { OnOk result (IsTrue (⟦<MemPages as Pages>⟧.view self.old).is_told → Writes page bytes.now (⟦<MemPages as Pages>⟧.view self.old) (⟦<MemPages as Pages>⟧.view self.new)) }
        ensures fault { IfErr result NotDamaged }
        ensures counts { Counts 0 1 (⟦<MemPages as Pages>⟧.view self.old) (⟦<MemPages as Pages>⟧.view self.new) }
        ensures cause { HasPageCause (⟦<MemPages as Pages>⟧.view self.old) (⟦<MemPages as Pages>⟧.view self.new) result }
        ensures keeps { ⟦<MemPages as Pages>⟧.keeps self.old self.new }
        ensures fails { IsFailed result ↔ Contains (failing self.old) (next_call self.old) }
        ensures counted { Counted self.old self.new }
        ensures exact { OnOk result (RisesOnce (⟦<MemPages as Pages>⟧.view self.old).changed (⟦<MemPages as Pages>⟧.view self.new).changed) }
        ensures unread { (⟦<MemPages as Pages>⟧.view self.new).reads ≡ (⟦<MemPages as Pages>⟧.view self.old).reads }
    {
        admit(&self.fails, &mut self.calls, &mut self.faults)?;
        match put_page(&mut self.area, page, bytes) {
            Ok(()) => {
                self.changed = self.changed.saturating_add(1);
                Ok(())
            }
            Err(_) => {
                self.starved = true;
                Err(PageFault::Memory)
            }
        }
    }

    fn take(&mut self) -> Result<u32, PageFault>
        ensures taken { IfOk result (λ page. IsTrue (⟦<MemPages as Pages>⟧.view self.old).is_told → Takes (⟦<MemPages as Pages>⟧.view self.old) (⟦<MemPages as Pages>⟧.view self.new) page) }
        ensures damaged { IsTrue (⟦<MemPages as Pages>⟧.view self.old).is_told → IsDamaged (damage (⟦<MemPages as Pages>⟧.view self.old)) result }
        ensures counts { Counts 1 1 (⟦<MemPages as Pages>⟧.view self.old) (⟦<MemPages as Pages>⟧.view self.new) }
        ensures cause { HasPageCause (⟦<MemPages as Pages>⟧.view self.old) (⟦<MemPages as Pages>⟧.view self.new) result }
        ensures keeps { ⟦<MemPages as Pages>⟧.keeps self.old self.new }
        ensures fails { IsFailed result ↔ Contains (failing self.old) (next_call self.old) }
        ensures counted { Counted self.old self.new }
        ensures exact { (⟦<MemPages as Pages>⟧.view self.new).changed ≡ (⟦<MemPages as Pages>⟧.view self.old).changed }
        ensures unread { (⟦<MemPages as Pages>⟧.view self.new).reads ≡ (⟦<MemPages as Pages>⟧.view self.old).reads }
    {
        admit(&self.fails, &mut self.calls, &mut self.faults)?;
        let page = self.free;
        if page == 0 {
            let fresh = self.fresh;
            if fresh == u32::MAX {
                return Err(PageFault::Damaged(0));
            }
            self.fresh = fresh + 1;
            return Ok(fresh);
        }
        match read_free(page, page_of(&self.area, page)) {
            Some(link) => {
                self.free = link;
                Ok(page)
            }
            None => Err(PageFault::Damaged(page)),
        }
    }

    fn give(&mut self, page: u32) -> Result<(), PageFault>
        ensures given { OnOk result (IsTrue (⟦<MemPages as Pages>⟧.view self.old).is_told → Gives page (⟦<MemPages as Pages>⟧.view self.old) (⟦<MemPages as Pages>⟧.view self.new)) }
        ensures fault { IfErr result NotDamaged }
        ensures counts { Counts 0 1 (⟦<MemPages as Pages>⟧.view self.old) (⟦<MemPages as Pages>⟧.view self.new) }
        ensures cause { HasPageCause (⟦<MemPages as Pages>⟧.view self.old) (⟦<MemPages as Pages>⟧.view self.new) result }
        ensures keeps { ⟦<MemPages as Pages>⟧.keeps self.old self.new }
        ensures fails { IsFailed result ↔ Contains (failing self.old) (next_call self.old) }
        ensures counted { Counted self.old self.new }
        ensures exact { OnOk result (RisesOnce (⟦<MemPages as Pages>⟧.view self.old).changed (⟦<MemPages as Pages>⟧.view self.new).changed) }
        ensures unread { (⟦<MemPages as Pages>⟧.view self.new).reads ≡ (⟦<MemPages as Pages>⟧.view self.old).reads }
    {
        admit(&self.fails, &mut self.calls, &mut self.faults)?;
        match put_free(&mut self.area, page, self.free) {
            Ok(()) => {
                self.free = page;
                self.changed = self.changed.saturating_add(1);
                Ok(())
            }
            Err(_) => {
                self.starved = true;
                Err(PageFault::Memory)
            }
        }
    }
}
