//! An order beside a list: which ids stand under a number.
use std::alloc::{AllocError, Global};
use std::collections::BTreeSet;
use std::collections::btree_set::Range;
use std::marker::Model;

/// Pairs of a number and an id, in order, so that the ids of a number stand side by side and rise.
#[derive(Drop)]
pub(crate) struct IdsByKey {
    pairs: BTreeSet<(u64, u32)>,
}

impl Model for IdsByKey {
    ghost use Rattle.std.specs.Prelude.{ℕ, List, ◌<◌, ◌^◌, All};

    ghost Value = { List (ℕ × ℕ) };

    ghost view = { λ order. order.pairs.keys };

    ghost invariant = { λ order. All (λ pair. pair.1 < 2 ^ 32) order.pairs.keys };
}

impl IdsByKey {
    ghost use Rattle.std.specs.Prelude.{◌≡◌, ◌==◌, [], true, false, not, filter, IfOk, OnOk, OnErr};
    ghost use Rattle.gaz_plain.specs.Placed.{has_pair, IsEdit};
    ghost use Rattle.gaz_plain.specs.Ordered.{IdsRise};

    pub fn new(alloc: Global) -> IdsByKey
        ensures { result ≡ [] }
    {
        IdsByKey {
            pairs: BTreeSet::new(alloc),
        }
    }

    /// Puts the pair in, and answers whether it wasn't there.
    pub fn insert(&mut self, key: u64, id: u32) -> Result<bool, AllocError>
        ensures added { IfOk result (λ added. added ≡ not (has_pair self.old key id)) }
        ensures ok { OnOk result (IsEdit true key id self.old self.new) }
        ensures err { OnErr result (self.new ≡ self.old) }
    {
        Ok(self.pairs.insert((key, id))?)
    }

    /// Takes the pair out.
    pub fn remove(&mut self, key: u64, id: u32)
        ensures { IsEdit false key id self.old self.new }
    {
        self.pairs.remove(&(key, id));
    }

    /// The pairs of a number.
    pub fn of_key(&self, key: u64) -> Range<'_, (u64, u32)>
        ensures pairs { result ≡ filter (λ pair. key == pair.0) self.now }
        ensures rising { IdsRise result }
    {
        self.pairs.range((key, 0)..=(key, u32::MAX))
    }
}
