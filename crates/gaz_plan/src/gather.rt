//! The rows to which keys of names lead. They are gathered and sorted, so that each is read once: a place comes by its name, by its asciiname
//! and by each of its alternate names.
ghost use Rattle.std.specs.Prelude.{◌≡◌, ◌<◌, ◌≤◌, ◌+◌, ◌*◌, ◌++◌, [], ◌∷◌, ℕ, List, true, false, length, take, IfOk, IfErr, OnOk, IsPermutation, if◌then◌else◌};
ghost use Rattle.gaz_pick.specs.Asked.{asked};
ghost use Rattle.gaz_pick.specs.Order.{Pair as Picked};
ghost use Rattle.gaz_leaf.specs.Node.{key_of};
ghost use Rattle.gaz_scan.specs.Ranges.{between};
ghost use Rattle.gaz_scan.specs.Scan.{tree_of};
ghost use Rattle.gaz_keys.specs.Keys.{IsKey};
ghost use Rattle.gaz_keys.specs.Parts.{tag_of};
ghost use Rattle.gaz_rows.specs.Store.{IsUndamaged};
ghost use Rattle.gaz_kin.specs.Over.{OverStore};
ghost use Rattle.gaz_plan.specs.Wanted.{wanted_of};
ghost use Rattle.gaz_plan.specs.Seen.{SeesMore};
ghost use Rattle.gaz_plan.specs.Searched.{HasSearched, OverPairs, OverTagged};
ghost use Rattle.gaz_plan.specs.Gathered.{AreInOrder, AreLedTo, GathersNext, HavePlaces, IsAgain, IsLedTo, IsReadOnce, Joins, JoinsIf, alternates_among, candidate_by, candidates_of, is_alternate, is_gathered, is_sought, listed};

use crate::offer::{offer_passing, offer_row, place_named};
use crate::walk::{MOST_KEYS, number_at};
use crate::wanted::Wanted;
use arrayvec::ArrayVec;
use gaz_page::Pages;
use gaz_pick::{Best, Query, first_of_more};
use gaz_rows::{AskFault, RowStore};
use gaz_scan::Scan;

/// Where a key of a name says whose it is, and what it says of an alternate name.
const SOURCE: usize = 23;

const ALTERNATE: u8 = 2;

/// How many candidates are gathered before their rows are read.
const MOST_GATHERED: usize = 512;

/// A row by its id, to which the key of a name leads.
#[derive(Clone, Copy, Default, PartialEq, Eq, PartialOrd, Ord)]
pub(crate) struct Candidate {
    place: u32,
    /// Whether it came by one of its own names, which are tested on the row. An alternate name was tested before.
    by_own: bool,
}

/// Candidates that are gathered, in no memory but their own place.
type Candidates = ArrayVec<Candidate, MOST_GATHERED>;

/// What the key of a name leads to, if anything.
fn candidate_by<P: Pages>(
    store: &mut RowStore<P>,
    key: &[u8; 32],
    query: &Query<'_>,
    wanted: &Wanted,
    buf: &mut [u8],
) -> Result<Option<Candidate>, AskFault>
    requires room { 65535 ≤ length buf.old }
    requires wanted { wanted.now.test ≡ wanted_of (asked query.now).name }
    ensures led { IfOk result (λ found. OverStore (P.view store.old.pages) store.old.root (λ gaz. found ≡ candidate_by gaz (asked query.now) (key_of key.now))) }
    ensures damaged { IfErr result (λ fault. OverStore (P.view store.old.pages) store.old.root (λ gaz. IsUndamaged fault)) }
    ensures size { length buf.new ≡ length buf.old }
    ensures asked { HasSearched (P.view store.old.pages) (P.view store.new.pages) result }
    ensures reads { (P.view store.new.pages).reads ≤ (P.view store.old.pages).reads + (if is_alternate (key_of key.now) then store.old.root.height + 17 else 0) }
    ensures root { store.new.root ≡ store.old.root }
    ensures keeps { P.keeps store.old.pages store.new.pages }
{
    if key[SOURCE] != ALTERNATE {
        let place = number_at(key, 24);
        return Ok(Some(Candidate {
            place,
            by_own: true,
        }));
    }
    let alternate = number_at(key, 28);
    match place_named(store, alternate, query, wanted, buf) {
        Ok(Some(place)) => Ok(Some(Candidate {
            place,
            by_own: false,
        })),
        Ok(None) => Ok(None),
        Err(fault) => Err(fault),
    }
}

/// Offers the row of a candidate, if there is one and it has all that is asked.
fn offer_candidate<P: Pages>(
    store: &mut RowStore<P>,
    candidate: Candidate,
    query: &Query<'_>,
    wanted: &Wanted,
    best: &mut Best,
    buf: &mut [u8],
) -> Result<(), AskFault>
    requires room { 65535 ≤ length buf.old }
    requires wanted { wanted.now.test ≡ wanted_of (asked query.now).name }
    ensures keep { best.new.keep ≡ best.old.keep }
    ensures more { OnOk result (OverStore (P.view store.old.pages) store.old.root (λ gaz. IsLedTo gaz (asked query.now) candidate
        → SeesMore gaz (asked query.now) best.old.keep (is_sought (asked query.now) candidate) best.old.pairs best.new.pairs)) }
    ensures damaged { IfErr result (λ fault. OverStore (P.view store.old.pages) store.old.root (λ gaz. IsUndamaged fault)) }
    ensures size { length buf.new ≡ length buf.old }
    ensures asked { HasSearched (P.view store.old.pages) (P.view store.new.pages) result }
    ensures reads { (P.view store.new.pages).reads ≤ (P.view store.old.pages).reads + (store.old.root.height + 17) }
    ensures root { store.new.root ≡ store.old.root }
    ensures keeps { P.keeps store.old.pages store.new.pages }
{
    first_of_more();
    if candidate.by_own {
        offer_row(store, candidate.place, query, wanted, best, buf)
    } else {
        offer_passing(store, candidate.place, query, best, buf)
    }
}

/// Whether the candidate before this one is of the same place.
fn is_again(candidates: &[Candidate], at: usize) -> bool
    requires { at < length candidates.now }
    ensures again { result ≡ true → IsAgain candidates.now at }
    ensures new { result ≡ false → IsAgain candidates.now at → ⊥ }
{
    at > 0 && candidates[at - 1].place == candidates[at].place
}

/// Offers the row of the candidate that stands there, unless the one before is of the same place.
fn offer_place<P: Pages>(
    store: &mut RowStore<P>,
    candidates: &[Candidate],
    at: usize,
    query: &Query<'_>,
    wanted: &Wanted,
    best: &mut Best,
    buf: &mut [u8],
) -> Result<(), AskFault>
    requires room { 65535 ≤ length buf.old }
    requires wanted { wanted.now.test ≡ wanted_of (asked query.now).name }
    requires within { at < length candidates.now }
    requires order { AreInOrder candidates.now }
    ensures keep { best.new.keep ≡ best.old.keep }
    ensures more { OnOk result (OverStore (P.view store.old.pages) store.old.root (λ gaz. AreLedTo gaz (asked query.now) candidates.now → (start : List Picked)
        → SeesMore gaz (asked query.now) best.old.keep (is_gathered (asked query.now) (take at candidates.now)) start best.old.pairs
        → SeesMore gaz (asked query.now) best.old.keep (is_gathered (asked query.now) (take (at + 1) candidates.now)) start best.new.pairs)) }
    ensures damaged { IfErr result (λ fault. OverStore (P.view store.old.pages) store.old.root (λ gaz. IsUndamaged fault)) }
    ensures size { length buf.new ≡ length buf.old }
    ensures asked { HasSearched (P.view store.old.pages) (P.view store.new.pages) result }
    ensures again { IsAgain candidates.now at → (P.view store.new.pages).reads ≤ (P.view store.old.pages).reads }
    ensures reads { (P.view store.new.pages).reads ≤ (P.view store.old.pages).reads + (store.old.root.height + 17) }
    ensures root { store.new.root ≡ store.old.root }
    ensures keeps { P.keeps store.old.pages store.new.pages }
{
    if is_again(candidates, at) {
        return Ok(());
    }
    offer_candidate(store, candidates[at], query, wanted, best, buf)
}

/// Offers the rows of candidates in order. The first of those of one place tells whether its own names have to be tested.
fn offer_sorted<P: Pages>(
    store: &mut RowStore<P>,
    candidates: &[Candidate],
    query: &Query<'_>,
    wanted: &Wanted,
    best: &mut Best,
    buf: &mut [u8],
) -> Result<(), AskFault>
    requires room { 65535 ≤ length buf.old }
    requires wanted { wanted.now.test ≡ wanted_of (asked query.now).name }
    requires order { AreInOrder candidates.now }
    ensures keep { best.new.keep ≡ best.old.keep }
    ensures more { OnOk result (OverStore (P.view store.old.pages) store.old.root (λ gaz. AreLedTo gaz (asked query.now) candidates.now
        → SeesMore gaz (asked query.now) best.old.keep (is_gathered (asked query.now) candidates.now) best.old.pairs best.new.pairs)) }
    ensures damaged { IfErr result (λ fault. OverStore (P.view store.old.pages) store.old.root (λ gaz. IsUndamaged fault)) }
    ensures size { length buf.new ≡ length buf.old }
    ensures asked { HasSearched (P.view store.old.pages) (P.view store.new.pages) result }
    ensures reads { OverStore (P.view store.old.pages) store.old.root (λ gaz. (places : List ℕ) → HavePlaces places candidates.now
        → (P.view store.new.pages).reads ≤ (P.view store.old.pages).reads + 23 * length places) }
    ensures root { store.new.root ≡ store.old.root }
    ensures keeps { P.keeps store.old.pages store.new.pages }
{
    for at in 0..candidates.len() {
        match offer_place(store, candidates, at, query, wanted, best, buf) {
            Ok(()) => {}
            Err(fault) => return Err(fault),
        }
    }
    Ok(())
}

/// Sorts candidates by their places. Of one place, those that came by an alternate name are before the others.
fn sort(candidates: &mut [Candidate])
    ensures order { AreInOrder candidates.new }
    ensures moved { IsPermutation candidates.old candidates.new }
    ensures size { length candidates.new ≡ length candidates.old }
{
    candidates.sort_unstable();
}

/// Offers the rows of all candidates that are gathered, and keeps none of these.
fn offer_gathered<P: Pages>(
    store: &mut RowStore<P>,
    candidates: &mut Candidates,
    query: &Query<'_>,
    wanted: &Wanted,
    best: &mut Best,
    buf: &mut [u8],
) -> Result<(), AskFault>
    requires room { 65535 ≤ length buf.old }
    requires wanted { wanted.now.test ≡ wanted_of (asked query.now).name }
    ensures none { candidates.new.items ≡ [] }
    ensures keep { best.new.keep ≡ best.old.keep }
    ensures more { OnOk result (OverStore (P.view store.old.pages) store.old.root (λ gaz. AreLedTo gaz (asked query.now) candidates.old.items
        → SeesMore gaz (asked query.now) best.old.keep (is_gathered (asked query.now) candidates.old.items) best.old.pairs best.new.pairs)) }
    ensures damaged { IfErr result (λ fault. OverStore (P.view store.old.pages) store.old.root (λ gaz. IsUndamaged fault)) }
    ensures size { length buf.new ≡ length buf.old }
    ensures asked { HasSearched (P.view store.old.pages) (P.view store.new.pages) result }
    ensures reads { OverStore (P.view store.old.pages) store.old.root (λ gaz. (places : List ℕ) → HavePlaces places candidates.old.items
        → (P.view store.new.pages).reads ≤ (P.view store.old.pages).reads + 23 * length places) }
    ensures root { store.new.root ≡ store.old.root }
    ensures keeps { P.keeps store.old.pages store.new.pages }
{
    sort(candidates.as_mut_slice());
    let offered = offer_sorted(store, candidates.as_slice(), query, wanted, best, buf);
    candidates.clear();
    offered
}

/// Puts a candidate behind the others. Where there is no room, the rows of these are offered before.
fn gather<P: Pages>(
    store: &mut RowStore<P>,
    candidates: &mut Candidates,
    candidate: Candidate,
    query: &Query<'_>,
    wanted: &Wanted,
    best: &mut Best,
    buf: &mut [u8],
) -> Result<(), AskFault>
    requires room { 65535 ≤ length buf.old }
    requires wanted { wanted.now.test ≡ wanted_of (asked query.now).name }
    ensures keep { best.new.keep ≡ best.old.keep }
    ensures joins { OnOk result (OverStore (P.view store.old.pages) store.old.root (λ gaz. AreLedTo gaz (asked query.now) candidates.old.items
        → Joins gaz (asked query.now) best.old.keep candidate candidates.old.items candidates.new.items best.old.pairs best.new.pairs)) }
    ensures free { length candidates.old.items < 512 → OnOk result (candidates.new.items ≡ candidates.old.items ++ candidate ∷ []) }
    ensures damaged { IfErr result (λ fault. OverStore (P.view store.old.pages) store.old.root (λ gaz. IsUndamaged fault)) }
    ensures size { length buf.new ≡ length buf.old }
    ensures asked { HasSearched (P.view store.old.pages) (P.view store.new.pages) result }
    ensures unread { length candidates.old.items < 512 → (P.view store.new.pages).reads ≤ (P.view store.old.pages).reads }
    ensures reads { OverStore (P.view store.old.pages) store.old.root
        (λ gaz. (P.view store.new.pages).reads + 23 * length candidates.new.items ≤ (P.view store.old.pages).reads + 23 * (length candidates.old.items + 1)) }
    ensures root { store.new.root ≡ store.old.root }
    ensures keeps { P.keeps store.old.pages store.new.pages }
{
    if !candidates.is_full() {
        candidates.push(candidate);
        return Ok(());
    }
    match offer_gathered(store, candidates, query, wanted, best, buf) {
        Ok(()) => {
            candidates.push(candidate);
            Ok(())
        }
        Err(fault) => Err(fault),
    }
}

/// Gathers what a key leads to.
fn gather_by<P: Pages>(
    store: &mut RowStore<P>,
    key: &[u8; 32],
    candidates: &mut Candidates,
    query: &Query<'_>,
    wanted: &Wanted,
    best: &mut Best,
    buf: &mut [u8],
) -> Result<(), AskFault>
    requires room { 65535 ≤ length buf.old }
    requires wanted { wanted.now.test ≡ wanted_of (asked query.now).name }
    ensures keep { best.new.keep ≡ best.old.keep }
    ensures joins { OnOk result (OverStore (P.view store.old.pages) store.old.root (λ gaz. AreLedTo gaz (asked query.now) candidates.old.items
        → JoinsIf gaz (asked query.now) best.old.keep (candidate_by gaz (asked query.now) (key_of key.now)) candidates.old.items candidates.new.items best.old.pairs best.new.pairs)) }
    ensures free { length candidates.old.items < 512 → OnOk result (OverStore (P.view store.old.pages) store.old.root
        (λ gaz. candidates.new.items ≡ candidates.old.items ++ listed (candidate_by gaz (asked query.now) (key_of key.now)))) }
    ensures damaged { IfErr result (λ fault. OverStore (P.view store.old.pages) store.old.root (λ gaz. IsUndamaged fault)) }
    ensures size { length buf.new ≡ length buf.old }
    ensures asked { HasSearched (P.view store.old.pages) (P.view store.new.pages) result }
    ensures unread { length candidates.old.items < 512
        → (P.view store.new.pages).reads ≤ (P.view store.old.pages).reads + (if is_alternate (key_of key.now) then store.old.root.height + 17 else 0) }
    ensures reads { OverStore (P.view store.old.pages) store.old.root
        (λ gaz. (P.view store.new.pages).reads + 23 * length candidates.new.items ≤ (P.view store.old.pages).reads + 23 * (length candidates.old.items + 2)) }
    ensures root { store.new.root ≡ store.old.root }
    ensures keeps { P.keeps store.old.pages store.new.pages }
{
    match candidate_by(store, key, query, wanted, buf) {
        Ok(Some(candidate)) => gather(store, candidates, candidate, query, wanted, best, buf),
        Ok(None) => Ok(()),
        Err(fault) => Err(fault),
    }
}

/// Gathers what the next key of a scan leads to. Whether one was left.
fn gather_next<P: Pages>(
    store: &mut RowStore<P>,
    scan: &mut Scan,
    candidates: &mut Candidates,
    query: &Query<'_>,
    wanted: &Wanted,
    best: &mut Best,
    buf: &mut [u8],
) -> Result<bool, AskFault>
    requires room { 65535 ≤ length buf.old }
    requires wanted { wanted.now.test ≡ wanted_of (asked query.now).name }
    ensures keep { best.new.keep ≡ best.old.keep }
    ensures more { IfOk result (λ more. OverTagged (P.view store.old.pages) store.old.root scan.old 7 (λ gaz left. AreLedTo gaz (asked query.now) candidates.old.items
        → GathersNext gaz (asked query.now) best.old.keep (P.view store.new.pages).page scan.new left candidates.old.items candidates.new.items best.old.pairs best.new.pairs more)) }
    ensures damaged { IfErr result (λ fault. OverTagged (P.view store.old.pages) store.old.root scan.old 7 (λ gaz left. IsUndamaged fault)) }
    ensures tree { tree_of scan.new ≡ tree_of scan.old }
    ensures size { length buf.new ≡ length buf.old }
    ensures asked { HasSearched (P.view store.old.pages) (P.view store.new.pages) result }
    ensures unread { OverTagged (P.view store.old.pages) store.old.root scan.old 7 (λ gaz left. length candidates.old.items + length (take 1 left) ≤ 512
        → (P.view store.new.pages).reads ≤ (P.view store.old.pages).reads + 12 + 23 * alternates_among (take 1 left)) }
    ensures reads { OverTagged (P.view store.old.pages) store.old.root scan.old 7
        (λ gaz left. (P.view store.new.pages).reads + 23 * length candidates.new.items ≤ (P.view store.old.pages).reads + 23 * length candidates.old.items + 58) }
    ensures root { store.new.root ≡ store.old.root }
    ensures keeps { P.keeps store.old.pages store.new.pages }
{
    let (key, _value) = match store.next(scan) {
        Ok(Some(found)) => found,
        Ok(None) => return Ok(false),
        Err(fault) => return Err(fault),
    };
    match gather_by(store, &key, candidates, query, wanted, best, buf) {
        Ok(()) => Ok(true),
        Err(fault) => Err(fault),
    }
}

/// Offers the rows to which the keys of a scan lead. A tree has fewer keys than `MOST_KEYS`, so a scan that gives more goes over damaged
/// pages.
fn offer_led<P: Pages>(
    store: &mut RowStore<P>,
    scan: &mut Scan,
    query: &Query<'_>,
    wanted: &Wanted,
    best: &mut Best,
    buf: &mut [u8],
) -> Result<(), AskFault>
    requires room { 65535 ≤ length buf.old }
    requires wanted { wanted.now.test ≡ wanted_of (asked query.now).name }
    ensures keep { best.new.keep ≡ best.old.keep }
    ensures more { OnOk result (OverTagged (P.view store.old.pages) store.old.root scan.old 7
        (λ gaz left. SeesMore gaz (asked query.now) best.old.keep (is_gathered (asked query.now) (candidates_of gaz (asked query.now) left)) best.old.pairs best.new.pairs)) }
    ensures damaged { IfErr result (λ fault. OverTagged (P.view store.old.pages) store.old.root scan.old 7 (λ gaz left. IsUndamaged fault)) }
    ensures size { length buf.new ≡ length buf.old }
    ensures asked { HasSearched (P.view store.old.pages) (P.view store.new.pages) result }
    ensures once { OverTagged (P.view store.old.pages) store.old.root scan.old 7
        (λ gaz left. IsReadOnce gaz (asked query.now) left (P.view store.old.pages).reads (P.view store.new.pages).reads) }
    ensures reads { OverTagged (P.view store.old.pages) store.old.root scan.old 7
        (λ gaz left. (P.view store.new.pages).reads ≤ (P.view store.old.pages).reads + 64 * (length left + 1)) }
    ensures root { store.new.root ≡ store.old.root }
    ensures keeps { P.keeps store.old.pages store.new.pages }
{
    let mut candidates = Candidates::new();
    for _turn in 0..MOST_KEYS {
        match gather_next(store, scan, &mut candidates, query, wanted, best, buf) {
            Ok(true) => {}
            Ok(false) => return offer_gathered(store, &mut candidates, query, wanted, best, buf),
            Err(fault) => return Err(fault),
        }
    }
    Err(AskFault::Damaged(store.root().top))
}

/// Offers the rows to which the keys of names from `low` to `high` lead.
pub(crate) fn offer_names<P: Pages>(
    store: &mut RowStore<P>,
    low: &[u8; 32],
    high: &[u8; 32],
    query: &Query<'_>,
    wanted: &Wanted,
    best: &mut Best,
    buf: &mut [u8],
) -> Result<(), AskFault>
    requires room { 65535 ≤ length buf.old }
    requires wanted { wanted.now.test ≡ wanted_of (asked query.now).name }
    requires low { tag_of low.now ≡ 7 }
    requires high { tag_of high.now ≡ 7 }
    ensures low { IsKey low.now }
    ensures high { IsKey high.now }
    ensures keep { best.new.keep ≡ best.old.keep }
    ensures more { OnOk result (OverPairs (P.view store.old.pages) store.old.root (λ gaz pairs. SeesMore gaz (asked query.now) best.old.keep
        (is_gathered (asked query.now) (candidates_of gaz (asked query.now) (between (key_of low.now) (key_of high.now) pairs))) best.old.pairs best.new.pairs)) }
    ensures damaged { IfErr result (λ fault. OverStore (P.view store.old.pages) store.old.root (λ gaz. IsUndamaged fault)) }
    ensures size { length buf.new ≡ length buf.old }
    ensures asked { HasSearched (P.view store.old.pages) (P.view store.new.pages) result }
    ensures once { OverPairs (P.view store.old.pages) store.old.root (λ gaz pairs. IsReadOnce gaz (asked query.now)
        (between (key_of low.now) (key_of high.now) pairs) (P.view store.old.pages).reads (P.view store.new.pages).reads) }
    ensures reads { OverPairs (P.view store.old.pages) store.old.root
        (λ gaz pairs. (P.view store.new.pages).reads ≤ (P.view store.old.pages).reads + 64 * (length (between (key_of low.now) (key_of high.now) pairs) + 1)) }
    ensures root { store.new.root ≡ store.old.root }
    ensures keeps { P.keeps store.old.pages store.new.pages }
{
    let mut scan = store.scan(*low, *high);
    offer_led(store, &mut scan, query, wanted, best, buf)
}
