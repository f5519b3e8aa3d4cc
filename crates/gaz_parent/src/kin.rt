//! The lists of a gazetteer, as the parent rule asks them.
ghost use Rattle.std.specs.Prelude.{◌≡◌, ◌↔◌, ℕ, ◌≤◌, ◌+◌, IfOk, IfErr, OnOk};
ghost use Rattle.gaz_parent.specs.Parent.{Lists, linked, division, country_above};
ghost use Rattle.gaz_parent.specs.Questions.{Question, by_link, by_division, by_country};

use gaz_row::Row;
use gaz_tables::LinkClass;

/// Stands for the lists of a gazetteer, or for none, and answers each rule over them.
pub trait Kin {
    /// Why a call came to nothing.
    type Fault;

    /// The lists that it stands for, where there are such.
    ghost stands_for: { Self → Lists → Type 0 };

    /// What calls that answer leave, one after another.
    ghost leads: { Self → Self → Type 0 };

    /// Between which two states, the one before and the one after, this fault may come.
    ghost may_fail: { Self → Self → Self.Fault → Type 0 };

    /// How much was read.
    ghost reads: { Self → ℕ };

    /// How much a question may read, where there is such a bound.
    ghost bounded: { Self → Question → ℕ → Type 0 };

    /// The division of this level above the row.
    fn division(&mut self, level: u8, row: &Row<'_>) -> Result<Option<u32>, Self::Fault>
        requires low { 1 ≤ level }
        requires high { level ≤ 4 }
        ensures found { IfOk result (λ found. (lists : Lists) → stands_for self.old lists → found ≡ division lists level row.now) }
        ensures leads { OnOk result (leads self.old self.new) }
        ensures fault { IfErr result (λ fault. may_fail self.old self.new fault) }
        ensures grows { reads self.old ≤ reads self.new }
        ensures reads { (most : ℕ) → bounded self.old (by_division level row.now) most → reads self.new ≤ reads self.old + most };

    /// The country above the row.
    fn country(&mut self, row: &Row<'_>) -> Result<Option<u32>, Self::Fault>
        ensures found { IfOk result (λ found. (lists : Lists) → stands_for self.old lists → found ≡ country_above lists row.now) }
        ensures leads { OnOk result (leads self.old self.new) }
        ensures fault { IfErr result (λ fault. may_fail self.old self.new fault) }
        ensures grows { reads self.old ≤ reads self.new }
        ensures reads { (most : ℕ) → bounded self.old (by_country row.now) most → reads self.new ≤ reads self.old + most };

    /// The place to which links of this class lead from the child.
    fn link_up(&mut self, child: u32, class: LinkClass) -> Result<Option<u32>, Self::Fault>
        ensures found { IfOk result (λ found. (lists : Lists) → stands_for self.old lists → found ≡ linked lists child class) }
        ensures leads { OnOk result (leads self.old self.new) }
        ensures fault { IfErr result (λ fault. may_fail self.old self.new fault) }
        ensures grows { reads self.old ≤ reads self.new }
        ensures reads { (most : ℕ) → bounded self.old (by_link child class) most → reads self.new ≤ reads self.old + most };

    /// No call at all leads to the same state.
    ghost leads_same: { (s : Self) → leads s s };

    /// Calls after calls lead on.
    ghost leads_on: { (a b c : Self) → leads a b → leads b c → leads a c };

    /// Calls that answer change nothing of the lists for which it stands.
    ghost stands_on: { (a b : Self) (lists : Lists) → leads a b → (stands_for a lists ↔ stands_for b lists) };

    /// Nor of the bounds.
    ghost bounded_on: { (a b : Self) (question : Question) (most : ℕ) → leads a b → (bounded a question most ↔ bounded b question most) };

    /// A fault that may come behind calls that answered may come from the state before them.
    ghost fails_from: { (a b c : Self) (fault : Self.Fault) → leads a b → may_fail b c fault → may_fail a c fault };
}
