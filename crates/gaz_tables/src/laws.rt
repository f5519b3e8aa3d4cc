//! What holds of keys. To call this is to know it; it does nothing.
ghost use Rattle.std.specs.Prelude.{◌≡◌};
ghost use Rattle.std.specs.Cmp.Lexicographic.{slice_cmp};
ghost use Rattle.std.specs.Ordering.{nat_cmp};
ghost use Rattle.gaz_tables.specs.Keys.{key_numbers};
ghost use Rattle.gaz_tables.specs.declared.link.LinkKey.{LinkKey};

use crate::link::LinkKey;

/// Keys of links compare as their numbers do.
pub fn keys_compare()
    ensures { (a b : LinkKey) → ⟦<LinkKey as Ord>⟧.cmp a b ≡ slice_cmp nat_cmp (key_numbers a) (key_numbers b) }
{}
