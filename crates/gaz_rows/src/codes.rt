//! Admin codes: of those with equal first bytes, which share all of their keys but the slot, the one that is asked for.
ghost use Rattle.std.specs.Prelude.{◌≡◌, ◌≤◌, ◌+◌, ◌-◌, ◌*◌, ◌^◌, ◌==◌, min, if◌then◌else◌, ℕ, List, length, IsTrue, IfOk, IfErr, IfSome};
ghost use Rattle.gaz_num.specs.declared.words.Table.TheVariants.{Codes};
ghost use Rattle.gaz_plain.specs.Gazetteer.{Gazetteer};
ghost use Rattle.gaz_leaf.specs.Node.{Pair};
ghost use Rattle.gaz_scan.specs.Scan.{Comes, tree_of};
ghost use Rattle.gaz_rows.specs.Store.{Answers, HasAsked, IsSoundOver, IsSound, IsStoreBut};
ghost use Rattle.gaz_rows.specs.Found.{Looks, IsShort, OverRange, HaveRecords, Searches, like_codes, size_found, slot_found};
ghost use Rattle.gaz_rows.specs.Steps.{IsSlotFor};

use crate::fault::AskFault;
use crate::store::{RowStore, has_code};
use gaz_keys::{code_key_of, slot_of};
use gaz_page::Pages;
use gaz_scan::Scan;

/// What a look at the next line of a scan comes to.
pub(crate) enum Look {
    /// None was left.
    Last,
    /// The line with the code.
    Found { slot: u32, size: usize },
    /// Another line, with this slot.
    Other(u32),
}

/// What a search for an admin code comes to.
#[derive(Clone, Copy)]
pub(crate) enum Search {
    /// Its slot, and how many bytes its line has.
    Found { slot: u32, size: usize },
    /// No line has it, and this is the least slot that none has.
    Free(u32),
}

/// How often to look for one of so many codes: once for each, and once for the end.
fn turns_for(codes: u32) -> u64
    ensures turns { result ≡ codes + 1 }
    ensures fits { result ≤ 2 ^ 32 }
{
    u64::from(codes) + 1
}

/// The least free slot behind one that is taken, where slots rise and all below `free` are taken.
fn free_behind(free: u32, slot: u32) -> u32
    ensures { result ≡ if slot == free then min (free + 1) (2 ^ 32 - 1) else free }
{
    if slot == free {
        free.saturating_add(1)
    } else {
        free
    }
}

impl<P: Pages> RowStore<P> {
    /// Looks at the next line of a scan.
    fn look(&mut self, scan: &mut Scan, code: &[u8], buf: &mut [u8]) -> Result<Look, AskFault>
        requires room { 65535 ≤ length buf.old }
        ensures looks { IsTrue (P.view self.old.pages).is_told → (left : List Pair) → Comes (P.view self.old.pages).page scan.old left
            → HaveRecords (P.view self.old.pages).page left → Looks code.now (P.view self.old.pages).page (P.view self.new.pages).page scan.new buf.new left result }
        ensures fits { IfOk result IsShort }
        ensures tree { tree_of scan.new ≡ tree_of scan.old }
        ensures size { length buf.new ≡ length buf.old }
        ensures asked { HasAsked (2 * (tree_of scan.old).height + 17) (P.view self.old.pages) (P.view self.new.pages) result }
        ensures root { self.new.root ≡ self.old.root }
        ensures keeps { P.keeps self.old.pages self.new.pages }
    {
        let (key, place) = match self.next(scan) {
            Ok(Some(found)) => found,
            Ok(None) => return Ok(Look::Last),
            Err(fault) => return Err(fault),
        };
        let slot = slot_of(&key);
        match self.record(place, buf) {
            Ok(size) if has_code(&buf[..size], code) => Ok(Look::Found { slot, size }),
            Ok(_) => Ok(Look::Other(slot)),
            Err(fault) => Err(fault),
        }
    }

    /// Of the lines of a scan the first with the code, or the least slot that none has. A table of codes has as many lines as the root
    /// says, so a scan that gives more goes over damaged pages.
    fn find_code(
        &mut self,
        scan: &mut Scan,
        code: &[u8],
        buf: &mut [u8],
    ) -> Result<Search, AskFault>
        requires room { 65535 ≤ length buf.old }
        ensures fits { IfOk result (λ search. IfSome (size_found search) (λ size. size ≤ 65535)) }
        ensures code { IfOk result (λ search. OverRange self.old.root.counts.codes (P.view self.old.pages) scan.old (λ left. Searches code.now (P.view self.old.pages).page buf.new left search)) }
        ensures damaged { IfErr result (λ fault. OverRange self.old.root.counts.codes (P.view self.old.pages) scan.old (λ left. IsSound fault)) }
        ensures few { OverRange self.old.root.counts.codes (P.view self.old.pages) scan.old
            (λ left. (P.view self.new.pages).reads ≤ (P.view self.old.pages).reads + (2 * (tree_of scan.old).height + 17) * (length left + 1)) }
        ensures size { length buf.new ≡ length buf.old }
        ensures asked { HasAsked ((2 * (tree_of scan.old).height + 17) * (self.old.root.counts.codes + 1)) (P.view self.old.pages) (P.view self.new.pages) result }
        ensures root { self.new.root ≡ self.old.root }
        ensures keeps { P.keeps self.old.pages self.new.pages }
    {
        let mut free = 0;
        for _turn in 0..turns_for(self.root.counts.codes) {
            match self.look(scan, code, buf) {
                Ok(Look::Last) => return Ok(Search::Free(free)),
                Ok(Look::Found { slot, size }) => return Ok(Search::Found { slot, size }),
                Ok(Look::Other(slot)) => free = free_behind(free, slot),
                Err(fault) => return Err(fault),
            }
        }
        Err(AskFault::Damaged(self.root.top))
    }

    /// Looks for an admin code, which may be any bytes, among the codes with its first bytes. For each of these it reads a few pages.
    fn search_code(&mut self, code: &[u8], buf: &mut [u8]) -> Result<Search, AskFault>
        requires room { 65535 ≤ length buf.old }
        ensures line { IfOk result (λ search. Answers Codes code.now (P.view self.old.pages) self.old.root buf.new (size_found search)) }
        ensures slot { IfOk result (λ search. IsTrue (P.view self.old.pages).is_told → (waiting : List (List ℕ)) (gaz : Gazetteer)
            → (stands : IsStoreBut waiting gaz (P.view self.old.pages) self.old.root) → IsSlotFor stands.slots gaz code.now (slot_found search)) }
        ensures fits { IfOk result (λ search. IfSome (size_found search) (λ size. size ≤ 65535)) }
        ensures damaged { IfErr result (IsSoundOver (P.view self.old.pages) self.old.root) }
        ensures few { IsTrue (P.view self.old.pages).is_told → (waiting : List (List ℕ)) (gaz : Gazetteer) → IsStoreBut waiting gaz (P.view self.old.pages) self.old.root
            → (P.view self.new.pages).reads ≤ (P.view self.old.pages).reads + (2 * self.old.root.height + 17) * (like_codes gaz code.now + 1) }
        ensures size { length buf.new ≡ length buf.old }
        ensures asked { HasAsked ((2 * self.old.root.height + 17) * (self.old.root.counts.codes + 1)) (P.view self.old.pages) (P.view self.new.pages) result }
        ensures root { self.new.root ≡ self.old.root }
        ensures keeps { P.keeps self.old.pages self.new.pages }
    {
        let mut scan = self.scan(code_key_of(code, 0), code_key_of(code, u32::MAX));
        self.find_code(&mut scan, code, buf)
    }

    /// The line of an admin code, which may be any bytes: of the codes with its first bytes the one that equals it. For each of these
    /// it reads a few pages.
    pub fn get_code(&mut self, code: &[u8], buf: &mut [u8]) -> Result<Option<usize>, AskFault>
        requires room { 65535 ≤ length buf.old }
        ensures line { IfOk result (Answers Codes code.now (P.view self.old.pages) self.old.root buf.new) }
        ensures fits { IfOk result (λ found. IfSome found (λ size. size ≤ 65535)) }
        ensures damaged { IfErr result (IsSoundOver (P.view self.old.pages) self.old.root) }
        ensures few { IsTrue (P.view self.old.pages).is_told → (waiting : List (List ℕ)) (gaz : Gazetteer) → IsStoreBut waiting gaz (P.view self.old.pages) self.old.root
            → (P.view self.new.pages).reads ≤ (P.view self.old.pages).reads + (2 * self.old.root.height + 17) * (like_codes gaz code.now + 1) }
        ensures size { length buf.new ≡ length buf.old }
        ensures asked { HasAsked ((2 * self.old.root.height + 17) * (self.old.root.counts.codes + 1)) (P.view self.old.pages) (P.view self.new.pages) result }
        ensures root { self.new.root ≡ self.old.root }
        ensures keeps { P.keeps self.old.pages self.new.pages }
    {
        match self.search_code(code, buf) {
            Ok(Search::Found { size, .. }) => Ok(Some(size)),
            Ok(Search::Free(_)) => Ok(None),
            Err(fault) => Err(fault),
        }
    }

    /// The slot of an admin code: its own where the table has the code, and else the least that no code with the same first bytes has.
    pub(crate) fn slot_of(&mut self, code: &[u8], buf: &mut [u8]) -> Result<u32, AskFault>
        requires room { 65535 ≤ length buf.old }
        ensures slot { IfOk result (λ slot. IsTrue (P.view self.old.pages).is_told → (waiting : List (List ℕ)) (gaz : Gazetteer)
            → (stands : IsStoreBut waiting gaz (P.view self.old.pages) self.old.root) → IsSlotFor stands.slots gaz code.now slot) }
        ensures damaged { IfErr result (IsSoundOver (P.view self.old.pages) self.old.root) }
        ensures size { length buf.new ≡ length buf.old }
        ensures asked { HasAsked ((2 * self.old.root.height + 17) * (self.old.root.counts.codes + 1)) (P.view self.old.pages) (P.view self.new.pages) result }
        ensures root { self.new.root ≡ self.old.root }
        ensures keeps { P.keeps self.old.pages self.new.pages }
    {
        match self.search_code(code, buf) {
            Ok(Search::Found { slot, .. }) => Ok(slot),
            Ok(Search::Free(slot)) => Ok(slot),
            Err(fault) => Err(fault),
        }
    }
}
