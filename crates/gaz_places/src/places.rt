//! The places of keys.
ghost use Rattle.std.specs.Prelude.{◌≡◌, ◌≢◌, ◌<◌, ◌≤◌, ◌+◌, ◌^◌, ℕ, length, slice_index, None, Some, IsNone, IfSome, IfOk};
ghost use Rattle.gaz_places.specs.Chains.{bucket_of, link_at, Linked, LeadsTo, StandsIn};

use std::alloc::{AllocError, Global};

/// No place: the end of a chain.
const NONE: u32 = u32::MAX;

/// The odd number nearest to 2^64 divided by the golden ratio: its multiples, of keys one behind the other too, lie evenly over 0..2^64.
const SPREAD: u64 = 11_400_714_819_323_198_485;

/// A place: the key that it is held for, and the place that follows it on the chain of the key's bucket.
#[derive(Clone, Copy, Drop)]
struct Link {
    key: u64,
    next: u32,
    held: bool,
}

/// The link of a place that is held for no key.
const FREE: Link = Link {
    key: 0,
    next: NONE,
    held: false,
};

/// Where a walk found a key: its place, and the one before it on the chain or `NONE`.
#[derive(Clone, Copy, Drop)]
struct Spot {
    before: u32,
    place: u32,
}

/// A map from keys to places below a limit.
#[derive(Drop)]
pub struct Places {
    heads: Vec<u32>,
    links: Vec<Link>,
    ghost sizes: { length heads.items ≡ length links.items },
    ghost some: { 0 < length links.items },
    ghost few: { length links.items ≤ 65536 },
    ghost linked: { ∥ Linked heads.items links.items ∥₁ },
}

/// The bucket of a key: the product's upper half, taken as a fraction, of the number of buckets.
fn bucket(key: u64, count: usize) -> usize
    requires some { 0 < count }
    requires few { count ≤ 65536 }
    ensures is { result ≡ bucket_of count key }
    ensures within { result < count }
{
    let spread = key.wrapping_mul(SPREAD) >> 32;
    ((spread * count as u64) >> 32) as usize
}

impl Places {
    ghost use Rattle.gaz_places.specs.Places.{found_in, most_in};

    /// No key has a place; there are so many places.
    pub fn new(alloc: Global, most: u32) -> Result<Places, AllocError>
        requires some { 1 ≤ most }
        requires few { most ≤ 65536 }
        ensures none { IfOk result (λ places. (key : ℕ) → found_in places key ≡ None) }
        ensures most { IfOk result (λ places. most_in places ≡ most) }
    {
        Ok(Places {
            heads: vec![in alloc; NONE; most as usize]?,
            links: vec![in alloc; FREE; most as usize]?,
        })
    }

    /// How many places there are.
    pub fn most(&self) -> u32
        ensures { result ≡ most_in self.now }
    {
        self.links.len() as u32
    }

    /// The place that the key has.
    pub fn get(&self, key: u64) -> Option<u32>
        ensures found { result ≡ found_in self.now key }
        ensures within { IfSome result (λ place. place < most_in self.now) }
    {
        match self.find(key) {
            Some(spot) => Some(spot.place),
            None => None,
        }
    }

    /// Gives a key that has no place one that no key has.
    pub fn put(&mut self, key: u64, place: u32)
        requires within { place < most_in self.old }
        requires new { found_in self.old key ≡ None }
        requires unused { (other : ℕ) → found_in self.old other ≢ Some place }
        ensures here { found_in self.new key ≡ Some place }
        ensures others { (other : ℕ) → other ≢ key → found_in self.new other ≡ found_in self.old other }
        ensures most { most_in self.new ≡ most_in self.old }
    {
        let bucket = bucket(key, self.heads.len());
        self.links[place as usize] = Link {
            key,
            next: self.heads[bucket],
            held: true,
        };
        self.heads[bucket] = place;
    }

    /// Takes the place of a key from it, if it has one.
    pub fn take_out(&mut self, key: u64)
        ensures gone { found_in self.new key ≡ None }
        ensures others { (other : ℕ) → other ≢ key → found_in self.new other ≡ found_in self.old other }
        ensures most { most_in self.new ≡ most_in self.old }
    {
        let Some(spot) = self.find(key) else {
            return;
        };
        if spot.before == NONE {
            self.unlink_first(key, spot.place);
        } else {
            self.unlink_after(spot.before, spot.place, key);
        }
    }

    /// No key has a place from here on.
    pub fn clear(&mut self)
        ensures none { (key : ℕ) → found_in self.new key ≡ None }
        ensures most { most_in self.new ≡ most_in self.old }
    {
        self.heads.fill(NONE);
        self.links.fill(FREE);
    }

    /// Walks along the chain of the key's bucket to its place. There are no more steps than places.
    fn find(&self, key: u64) -> Option<Spot>
        ensures none { IsNone result → found_in self.now key ≡ None }
        ensures found { IfSome result (λ spot. found_in self.now key ≡ Some spot.place) }
        ensures leads { IfSome result (λ spot. LeadsTo self.now.heads.items self.now.links.items (bucket_of (length self.now.links.items) key) spot.before spot.place) }
    {
        let mut before = NONE;
        let mut place = self.heads[bucket(key, self.heads.len())];
        for _step in 0..self.links.len() {
            if place == NONE {
                return None;
            }
            let link = self.links[place as usize];
            if link.key == key {
                return Some(Spot { before, place });
            }
            before = place;
            place = link.next;
        }
        None
    }

    /// Takes the first place of a chain from it: the head is then the next one.
    fn unlink_first(&mut self, key: u64, place: u32)
        requires found { found_in self.old key ≡ Some place }
        requires first { slice_index self.old.heads.items (bucket_of (length self.old.links.items) key) ≡ place }
        ensures gone { found_in self.new key ≡ None }
        ensures others { (other : ℕ) → other ≢ key → found_in self.new other ≡ found_in self.old other }
        ensures most { most_in self.new ≡ most_in self.old }
    {
        let bucket = bucket(key, self.heads.len());
        self.heads[bucket] = self.links[place as usize].next;
        self.links[place as usize].held = false;
    }

    /// Takes a place from its chain: the next one then follows the one before it.
    fn unlink_after(&mut self, before: u32, place: u32, key: u64)
        requires found { found_in self.old key ≡ Some place }
        requires after { StandsIn self.old.links.items (bucket_of (length self.old.links.items) key) before }
        requires next { (link_at self.old.links.items before).next ≡ place }
        ensures gone { found_in self.new key ≡ None }
        ensures others { (other : ℕ) → other ≢ key → found_in self.new other ≡ found_in self.old other }
        ensures most { most_in self.new ≡ most_in self.old }
    {
        self.links[before as usize].next = self.links[place as usize].next;
        self.links[place as usize].held = false;
    }
}
