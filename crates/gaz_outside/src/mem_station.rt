//! A station in memory, for tests. It keeps a record of its writes, syncs and prints, from which its moments are told.
//! The trait says that a stop leaves no more than its outcomes. Here the calls also say that each of these is one, so
//! that it's no kinder than a real device. A call that fails changes nothing.
ghost use Rattle.std.specs.Prelude.{◌≡◌, ◌≢◌, ◌+◌, ◌-◌, ◌^◌, ◌<◌, ◌≤◌, min, [], ◌∷◌, ◌++◌, reverse, ◌⊎◌, ℕ, List, IsTrue, IsErr, Some, slice_get, is_err, length, take, drop, IfOk, OnOk, OnErr};
ghost use Rattle.gaz_outside.specs.declared.station.Area.{Area};
ghost use Rattle.gaz_outside.specs.Outside.{HasCause, Prints, RisesOnce};
ghost use Rattle.gaz_outside.specs.Station.{Leaves, overlaid, pieces, IsStable, Stays, Writes, Appends, Counts, StillMayLeave, KeepsOutcomes, MayTear, MayCut};
ghost use Rattle.gaz_outside.specs.Events.{area_bytes, seen, text_of, view_of, only_after, still_after, may_read, is_due, next_plan};
ghost use Rattle.gaz_outside.specs.Stopped.{end_of, stopped, HasBegun, KeepsWrite, KeepsPrint};
ghost use Rattle.gaz_outside.specs.declared.event.Event.{Event};

use crate::areas::Areas;
use crate::event::Event;
use crate::stopped::stopped_areas;
use crate::{Area, Failed, Station};
use std::alloc::{AllocError, Global};

/// Five areas and a text in memory.
#[derive(Drop)]
pub struct MemStation {
    alloc: Global,
    areas: Areas,
    text: Vec<u8>,
    record_of_calls: Vec<Event>,
    fails: Vec<u64>,
    calls: u64,
    calls_left: u64,
    faults: u64,
    starved: u64,
    reads: u64,
    writes: u64,
    ghost areas_kept: { (a : Area) → area_bytes areas a ≡ seen (reverse record_of_calls.items) a },
    ghost text_kept: { text.items ≡ text_of (reverse record_of_calls.items) },
    ghost fits: { faults < 2 ^ 64 },
    ghost ends_fit: { (place : ℕ) (event : Event) → slice_get record_of_calls.items place ≡ Some event → end_of event < 2 ^ 64 },
}

impl MemStation {
    ghost use Rattle.gaz_outside.specs.Memory.{plan_of, record_kept, starved_calls};

    /// A station with empty areas and no text, whose calls with these numbers, from 1, fail.
    pub fn new(alloc: Global, fails: Vec<u64>) -> Self
        ensures told { IsTrue (⟦<MemStation as Station>⟧.view result).is_told }
        ensures empty { (a : Area) → (⟦<MemStation as Station>⟧.view result).bytes a ≡ [] }
        ensures stable { (a : Area) (c : List ℕ) → (⟦<MemStation as Station>⟧.view result).may_leave a c → c ≡ [] }
        ensures printed { (⟦<MemStation as Station>⟧.view result).printed ≡ [] }
        ensures plan { plan_of result ≡ record { fails = fails.items; calls = 0; left = 2 ^ 64 - 1 } }
        ensures faults { (⟦<MemStation as Station>⟧.view result).faults ≡ 0 }
        ensures counts { ((⟦<MemStation as Station>⟧.view result).reads ≡ 0) × ((⟦<MemStation as Station>⟧.view result).writes ≡ 0) }
        ensures starved { starved_calls result ≡ 0 }
        ensures kept { record_kept result ≡ [] }
    {
        MemStation {
            alloc,
            areas: Areas::new(alloc),
            text: Vec::new(alloc),
            record_of_calls: Vec::new(alloc),
            fails,
            calls: 0,
            calls_left: u64::MAX,
            faults: 0,
            starved: 0,
            reads: 0,
            writes: 0,
        }
    }

    /// From so many calls on, every call fails and changes nothing.
    pub fn stop_after(&mut self, calls: u64)
        ensures stays { Stays (⟦<MemStation as Station>⟧.view self.old) (⟦<MemStation as Station>⟧.view self.new) }
        ensures keeps { KeepsOutcomes (⟦<MemStation as Station>⟧.view self.old) (⟦<MemStation as Station>⟧.view self.new) }
        ensures plan { plan_of self.new ≡ record (plan_of self.old) { left = calls } }
        ensures starved { starved_calls self.new ≡ starved_calls self.old }
        ensures kept { record_kept self.new ≡ record_kept self.old }
        ensures counts { Counts 0 0 (⟦<MemStation as Station>⟧.view self.old) (⟦<MemStation as Station>⟧.view self.new) }
        ensures faults { (⟦<MemStation as Station>⟧.view self.new).faults ≡ (⟦<MemStation as Station>⟧.view self.old).faults }
    {
        self.calls_left = calls;
    }

    /// The station that a stop leaves now. Of the writes that no sync of their area followed the first `keep` are whole, the
    /// next one's range holds `fill` in each byte, and the later ones aren't there. Of its calls none fails by its number.
    pub fn after_stop(&self, keep: u64, fill: u8) -> Result<MemStation, AllocError>
        ensures outcome { IfOk result (λ after. Leaves (⟦<MemStation as Station>⟧.view self.now) (record { areas = (⟦<MemStation as Station>⟧.view after).bytes; text = (⟦<MemStation as Station>⟧.view after).printed })) }
        ensures bytes { IfOk result (λ after. (a : Area) → (⟦<MemStation as Station>⟧.view after).bytes a ≡ stopped keep fill (record_kept self.now) [] a) }
        ensures stable { IfOk result (λ after. (a : Area) → IsStable (⟦<MemStation as Station>⟧.view after) a) }
        ensures told { IfOk result (λ after. IsTrue (⟦<MemStation as Station>⟧.view after).is_told) }
        ensures plan { IfOk result (λ after. plan_of after ≡ record { fails = []; calls = 0; left = 2 ^ 64 - 1 }) }
        ensures faults { IfOk result (λ after. (⟦<MemStation as Station>⟧.view after).faults ≡ 0) }
        ensures counts { IfOk result (λ after. ((⟦<MemStation as Station>⟧.view after).reads ≡ 0) × ((⟦<MemStation as Station>⟧.view after).writes ≡ 0)) }
        ensures starved { IfOk result (λ after. starved_calls after ≡ 0) }
        ensures kept { IfOk result (λ after. HasBegun (record_kept after)) }
    {
        let areas = stopped_areas(self.alloc, &self.record_of_calls, keep, fill)?;
        let text = self.text.to_vec(self.alloc)?;
        let mut record_of_calls = Vec::new(self.alloc);
        record_of_calls.push(Event::Began(areas.copy(self.alloc)?, text.to_vec(self.alloc)?))?;
        Ok(MemStation {
            alloc: self.alloc,
            areas,
            text,
            record_of_calls,
            fails: Vec::new(self.alloc),
            calls: 0,
            calls_left: u64::MAX,
            faults: 0,
            starved: 0,
            reads: 0,
            writes: 0,
        })
    }

    /// What the area reads.
    pub fn area(&self, area: Area) -> &[u8]
        ensures { result.now ≡ (⟦<MemStation as Station>⟧.view self.now).bytes area }
    {
        self.areas.get(area)
    }

    /// What was printed.
    pub fn printed(&self) -> &[u8]
        ensures { result.now ≡ (⟦<MemStation as Station>⟧.view self.now).printed }
    {
        &self.text
    }

    /// How many pieces of 4,096 bytes were read.
    pub fn reads(&self) -> u64
        ensures { result ≡ (⟦<MemStation as Station>⟧.view self.now).reads }
    {
        self.reads
    }

    /// How many calls found no memory.
    pub fn starved(&self) -> u64
        ensures { result ≡ starved_calls self.now }
    {
        self.starved
    }
}

/// Counts a call, and answers whether it may go on.
fn admit_call(
    fails: &[u64],
    calls: &mut u64,
    calls_left: &mut u64,
    faults: &mut u64,
) -> Result<(), Failed>
    ensures fits { faults.new < 2 ^ 64 }
    ensures due { is_err result ≡ is_due (record { fails = fails.now; calls = calls.old; left = calls_left.old }) }
    ensures calls { calls.new ≡ min (calls.old + 1) (2 ^ 64 - 1) }
    ensures left { calls_left.new ≡ calls_left.old - 1 }
    ensures ok { OnOk result (faults.new ≡ faults.old) }
    ensures err { OnErr result (RisesOnce faults.old faults.new × (faults.old ≤ faults.new)) }
{
    // Read first, so that its range is known.
    let _faults = *faults;
    *calls = calls.saturating_add(1);
    if *calls_left == 0 || fails.contains(calls) {
        *faults = faults.saturating_add(1);
        *calls_left = calls_left.saturating_sub(1);
        return Err(Failed);
    }
    *calls_left -= 1;
    Ok(())
}

/// Counts a call that found no memory.
fn starve(faults: &mut u64, starved: &mut u64) -> Failed
    ensures fits { faults.new < 2 ^ 64 }
    ensures risen { RisesOnce faults.old faults.new }
    ensures starved { RisesOnce starved.old starved.new }
    ensures grows { faults.old ≤ faults.new }
{
    *faults = faults.saturating_add(1);
    *starved = starved.saturating_add(1);
    Failed
}

/// Keeps a write and makes it, or does neither.
fn keep_write(
    alloc: Global,
    areas: &mut Areas,
    calls: &mut Vec<Event>,
    area: Area,
    at: u64,
    bytes: &[u8],
) -> Result<(), AllocError>
    requires { at + length bytes.now < 2 ^ 64 }
    ensures kept { OnOk result ((v : _) × (v.items ≡ bytes.now) × (calls.new.items ≡ calls.old.items ++ Event.Wrote area at v ∷ [])) }
    ensures made { OnOk result (area_bytes areas.new area ≡ overlaid (area_bytes areas.old area) at bytes.now) }
    ensures others { OnOk result ((a : Area) → a ≢ area → area_bytes areas.new a ≡ area_bytes areas.old a) }
    ensures err { OnErr result ((calls.new.items ≡ calls.old.items) × ((a : Area) → area_bytes areas.new a ≡ area_bytes areas.old a)) }
{
    let copy = bytes.to_vec(alloc)?;
    calls.push(Event::Wrote(area, at, copy))?;
    if let Err(error) = areas.put(area, at, bytes) {
        calls.pop();
        return Err(error);
    }
    Ok(())
}

/// Keeps a sync.
fn keep_sync(calls: &mut Vec<Event>, area: Area) -> Result<(), AllocError>
    ensures kept { OnOk result (calls.new.items ≡ calls.old.items ++ Event.Synced area ∷ []) }
    ensures err { OnErr result (calls.new.items ≡ calls.old.items) }
{
    calls.push(Event::Synced(area))?;
    Ok(())
}

/// Keeps a print and makes it, or does neither.
fn keep_print(
    alloc: Global,
    text: &mut Vec<u8>,
    calls: &mut Vec<Event>,
    bytes: &[u8],
) -> Result<(), AllocError>
    ensures kept { OnOk result ((v : _) × (v.items ≡ bytes.now) × (calls.new.items ≡ calls.old.items ++ Event.Printed v ∷ [])) }
    ensures made { OnOk result (text.new.items ≡ text.old.items ++ bytes.now) }
    ensures err { OnErr result ((calls.new.items ≡ calls.old.items) × (text.new.items ≡ text.old.items)) }
{
    let copy = bytes.to_vec(alloc)?;
    calls.push(Event::Printed(copy))?;
    if let Err(error) = text.extend_from_slice(bytes) {
        calls.pop();
        return Err(error);
    }
    Ok(())
}

/// Reads what stands there.
fn read_part(file: &[u8], at: u64, buf: &mut [u8]) -> usize
    ensures count { result ≡ min (length buf.old) (length file.now - at) }
    ensures read { take result buf.new ≡ take result (drop at file.now) }
{
    let from = at as usize;
    if from >= file.len() {
        return 0;
    }
    let n = buf.len().min(file.len() - from);
    buf[..n].copy_from_slice(&file[from..from + n]);
    n
}

/// How many pieces of 4,096 bytes that are.
fn count_pieces(n: usize) -> u64
    requires { n < 2 ^ 63 }
    ensures { result ≡ pieces n }
{
    (n as u64 + 4095) / 4096
}

#[tactic(auto, unfolding(crate::specs::Outside::printed_of))]
impl Station for MemStation {
    ghost use Rattle.gaz_outside.specs.Memory.{plan_of, record_kept, starved_calls};

    ghost view = { λ m. view_of (reverse m.record_of_calls.items) m.faults m.reads m.writes };

    ghost counts_now = { λ m t c told le now. still_after (reverse m.record_of_calls.items) t c (now.areas, now.text) };

    ghost only_now = { λ m c told left. let h = only_after (reverse m.record_of_calls.items) c left in record { areas = h.0; text = h.1 } };

    ghost may_stay = { λ m a told. may_read (reverse m.record_of_calls.items) a };

    ghost faults_fit = { λ m. m.fits };

    fn len(&mut self, area: Area) -> Result<u64, Failed>
        ensures len { IfOk result (λ n. IsTrue (⟦<MemStation as Station>⟧.view self.old).is_told → n ≡ length ((⟦<MemStation as Station>⟧.view self.old).bytes area)) }
        ensures stays { IsTrue (⟦<MemStation as Station>⟧.view self.old).is_told → Stays (⟦<MemStation as Station>⟧.view self.old) (⟦<MemStation as Station>⟧.view self.new) }
        ensures counts { Counts 0 0 (⟦<MemStation as Station>⟧.view self.old) (⟦<MemStation as Station>⟧.view self.new) }
        ensures cause { HasCause (⟦<MemStation as Station>⟧.view self.old).faults (⟦<MemStation as Station>⟧.view self.new).faults result }
        ensures keeps { KeepsOutcomes (⟦<MemStation as Station>⟧.view self.old) (⟦<MemStation as Station>⟧.view self.new) }
        ensures due { IsTrue (is_due (plan_of self.old)) → IsErr result }
        ensures fails { IsErr result → IsTrue (is_due (plan_of self.old)) }
        ensures kept { record_kept self.new ≡ record_kept self.old }
        ensures plan { plan_of self.new ≡ next_plan (plan_of self.old) }
        ensures fed { starved_calls self.new ≡ starved_calls self.old }
    {
        admit_call(
            &self.fails,
            &mut self.calls,
            &mut self.calls_left,
            &mut self.faults,
        )?;
        Ok(self.areas.get(area).len() as u64)
    }

    fn read_at(&mut self, area: Area, at: u64, buf: &mut [u8]) -> Result<usize, Failed>
        ensures within { IfOk result (λ n. n ≤ length buf.old) }
        ensures count { IfOk result (λ n. IsTrue (⟦<MemStation as Station>⟧.view self.old).is_told → n ≡ min (length buf.old) (length ((⟦<MemStation as Station>⟧.view self.old).bytes area) - at)) }
        ensures read { IfOk result (λ n. IsTrue (⟦<MemStation as Station>⟧.view self.old).is_told → take n buf.new ≡ take n (drop at ((⟦<MemStation as Station>⟧.view self.old).bytes area))) }
        ensures stays { IsTrue (⟦<MemStation as Station>⟧.view self.old).is_told → Stays (⟦<MemStation as Station>⟧.view self.old) (⟦<MemStation as Station>⟧.view self.new) }
        ensures counts { Counts (pieces (length buf.old)) 0 (⟦<MemStation as Station>⟧.view self.old) (⟦<MemStation as Station>⟧.view self.new) }
        ensures cause { HasCause (⟦<MemStation as Station>⟧.view self.old).faults (⟦<MemStation as Station>⟧.view self.new).faults result }
        ensures keeps { KeepsOutcomes (⟦<MemStation as Station>⟧.view self.old) (⟦<MemStation as Station>⟧.view self.new) }
        ensures rises { OnOk result ((⟦<MemStation as Station>⟧.view self.new).reads ≡ min ((⟦<MemStation as Station>⟧.view self.old).reads + pieces (length buf.old)) (2 ^ 64 - 1)) }
        ensures uncounted { OnErr result ((⟦<MemStation as Station>⟧.view self.new).reads ≡ (⟦<MemStation as Station>⟧.view self.old).reads) }
        ensures due { IsTrue (is_due (plan_of self.old)) → IsErr result }
        ensures fails { IsErr result → IsTrue (is_due (plan_of self.old)) }
        ensures kept { record_kept self.new ≡ record_kept self.old }
        ensures plan { plan_of self.new ≡ next_plan (plan_of self.old) }
        ensures fed { starved_calls self.new ≡ starved_calls self.old }
    {
        admit_call(
            &self.fails,
            &mut self.calls,
            &mut self.calls_left,
            &mut self.faults,
        )?;
        self.reads = self.reads.saturating_add(count_pieces(buf.len()));
        Ok(read_part(self.areas.get(area), at, buf))
    }

    /// Beside the trait: what each torn write may leave is an outcome, and a call that fails changes nothing.
    fn write_at(&mut self, area: Area, at: u64, bytes: &[u8]) -> Result<(), Failed>
        requires { at + length bytes.now < 2 ^ 64 }
        ensures written { OnOk result (IsTrue (⟦<MemStation as Station>⟧.view self.old).is_told → (⟦<MemStation as Station>⟧.view self.new).bytes area ≡ overlaid ((⟦<MemStation as Station>⟧.view self.old).bytes area) at bytes.now) }
        ensures changed { IsTrue (⟦<MemStation as Station>⟧.view self.old).is_told → Writes area at (length bytes.now) (⟦<MemStation as Station>⟧.view self.old) (⟦<MemStation as Station>⟧.view self.new) }
        ensures counts { Counts 0 (pieces (length bytes.now)) (⟦<MemStation as Station>⟧.view self.old) (⟦<MemStation as Station>⟧.view self.new) }
        ensures cause { HasCause (⟦<MemStation as Station>⟧.view self.old).faults (⟦<MemStation as Station>⟧.view self.new).faults result }
        ensures tears { OnOk result (MayTear area at (length bytes.now) (⟦<MemStation as Station>⟧.view self.old) (⟦<MemStation as Station>⟧.view self.new)) }
        ensures keeps { OnErr result (KeepsOutcomes (⟦<MemStation as Station>⟧.view self.old) (⟦<MemStation as Station>⟧.view self.new)) }
        ensures nothing { IsErr result → Stays (⟦<MemStation as Station>⟧.view self.old) (⟦<MemStation as Station>⟧.view self.new) }
        ensures rises { OnOk result ((⟦<MemStation as Station>⟧.view self.new).writes ≡ min ((⟦<MemStation as Station>⟧.view self.old).writes + pieces (length bytes.now)) (2 ^ 64 - 1)) }
        ensures uncounted { OnErr result ((⟦<MemStation as Station>⟧.view self.new).writes ≡ (⟦<MemStation as Station>⟧.view self.old).writes) }
        ensures due { IsTrue (is_due (plan_of self.old)) → IsErr result }
        ensures fails { IsErr result → IsTrue (is_due (plan_of self.old)) ⊎ RisesOnce (starved_calls self.old) (starved_calls self.new) }
        ensures by_number { IsTrue (is_due (plan_of self.old)) → starved_calls self.new ≡ starved_calls self.old }
        ensures fed { OnOk result (starved_calls self.new ≡ starved_calls self.old) }
        ensures kept { OnOk result (KeepsWrite area at bytes.now (record_kept self.old) (record_kept self.new)) }
        ensures unkept { OnErr result (record_kept self.new ≡ record_kept self.old) }
        ensures plan { plan_of self.new ≡ next_plan (plan_of self.old) }
    {
        admit_call(
            &self.fails,
            &mut self.calls,
            &mut self.calls_left,
            &mut self.faults,
        )?;
        if let Err(_) = keep_write(
            self.alloc,
            &mut self.areas,
            &mut self.record_of_calls,
            area,
            at,
            bytes,
        ) {
            return Err(starve(&mut self.faults, &mut self.starved));
        }
        self.writes = self.writes.saturating_add(count_pieces(bytes.len()));
        Ok(())
    }

    /// Beside the trait: no other area loses an outcome.
    fn sync(&mut self, area: Area) -> Result<(), Failed>
        ensures stable { OnOk result (IsTrue (⟦<MemStation as Station>⟧.view self.old).is_told → IsStable (⟦<MemStation as Station>⟧.view self.new) area) }
        ensures stays { IsTrue (⟦<MemStation as Station>⟧.view self.old).is_told → Stays (⟦<MemStation as Station>⟧.view self.old) (⟦<MemStation as Station>⟧.view self.new) }
        ensures counts { Counts 0 0 (⟦<MemStation as Station>⟧.view self.old) (⟦<MemStation as Station>⟧.view self.new) }
        ensures cause { HasCause (⟦<MemStation as Station>⟧.view self.old).faults (⟦<MemStation as Station>⟧.view self.new).faults result }
        ensures others { (a : Area) → a ≢ area → StillMayLeave a (⟦<MemStation as Station>⟧.view self.old) (⟦<MemStation as Station>⟧.view self.new) }
        ensures keeps { OnErr result (KeepsOutcomes (⟦<MemStation as Station>⟧.view self.old) (⟦<MemStation as Station>⟧.view self.new)) }
        ensures due { IsTrue (is_due (plan_of self.old)) → IsErr result }
        ensures fails { IsErr result → IsTrue (is_due (plan_of self.old)) ⊎ RisesOnce (starved_calls self.old) (starved_calls self.new) }
        ensures by_number { IsTrue (is_due (plan_of self.old)) → starved_calls self.new ≡ starved_calls self.old }
        ensures fed { OnOk result (starved_calls self.new ≡ starved_calls self.old) }
        ensures kept { OnOk result (record_kept self.new ≡ Event.Synced area ∷ record_kept self.old) }
        ensures unkept { OnErr result (record_kept self.new ≡ record_kept self.old) }
        ensures plan { plan_of self.new ≡ next_plan (plan_of self.old) }
    {
        admit_call(
            &self.fails,
            &mut self.calls,
            &mut self.calls_left,
            &mut self.faults,
        )?;
        if let Err(_) = keep_sync(&mut self.record_of_calls, area) {
            return Err(starve(&mut self.faults, &mut self.starved));
        }
        Ok(())
    }

    /// Beside the trait: each front of the piece is what a stop inside may have left, and a call that fails prints nothing.
    fn print(&mut self, piece: &[u8]) -> Result<(), Failed>
        ensures printed { Prints piece.now (⟦<MemStation as Station>⟧.view self.old) (⟦<MemStation as Station>⟧.view self.new) result }
        ensures appends { IsTrue (⟦<MemStation as Station>⟧.view self.old).is_told → Appends piece.now (⟦<MemStation as Station>⟧.view self.old) (⟦<MemStation as Station>⟧.view self.new) }
        ensures counts { Counts 0 0 (⟦<MemStation as Station>⟧.view self.old) (⟦<MemStation as Station>⟧.view self.new) }
        ensures cause { HasCause (⟦<MemStation as Station>⟧.view self.old).faults (⟦<MemStation as Station>⟧.view self.new).faults result }
        ensures cuts { OnOk result (MayCut piece.now (⟦<MemStation as Station>⟧.view self.old) (⟦<MemStation as Station>⟧.view self.new)) }
        ensures keeps { OnErr result (KeepsOutcomes (⟦<MemStation as Station>⟧.view self.old) (⟦<MemStation as Station>⟧.view self.new)) }
        ensures nothing { IsErr result → Stays (⟦<MemStation as Station>⟧.view self.old) (⟦<MemStation as Station>⟧.view self.new) }
        ensures due { IsTrue (is_due (plan_of self.old)) → IsErr result }
        ensures fails { IsErr result → IsTrue (is_due (plan_of self.old)) ⊎ RisesOnce (starved_calls self.old) (starved_calls self.new) }
        ensures by_number { IsTrue (is_due (plan_of self.old)) → starved_calls self.new ≡ starved_calls self.old }
        ensures fed { OnOk result (starved_calls self.new ≡ starved_calls self.old) }
        ensures kept { OnOk result (KeepsPrint piece.now (record_kept self.old) (record_kept self.new)) }
        ensures unkept { OnErr result (record_kept self.new ≡ record_kept self.old) }
        ensures plan { plan_of self.new ≡ next_plan (plan_of self.old) }
    {
        admit_call(
            &self.fails,
            &mut self.calls,
            &mut self.calls_left,
            &mut self.faults,
        )?;
        if let Err(_) = keep_print(self.alloc, &mut self.text, &mut self.record_of_calls, piece) {
            return Err(starve(&mut self.faults, &mut self.starved));
        }
        Ok(())
    }
}
