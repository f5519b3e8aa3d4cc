//! Pages by their numbers, with a list of free ones.
ghost use Rattle.std.specs.Prelude.{◌≡◌, ℕ, ◌<◌, ◌^◌, false, length, IsTrue, IfOk, IfErr, OnOk, Err};
ghost use Rattle.std.specs.Borrow.{sem};
ghost use Rattle.std.specs.Io.BufRead.{Rests};
ghost use Rattle.gaz_page.specs.Pages.{PagesView, HasReads, HasPageCause, Counts, Writes, Takes, Gives, IsDamaged, NotDamaged, damage};

/// Why a call on pages came to nothing.
#[derive(Clone, Copy, Debug, PartialEq, Eq)]
pub enum PageFault {
    /// What holds the pages failed.
    Failed,
    /// This page isn't what it has to be.
    Damaged(u32),
    /// There is no memory for it.
    Memory,
}

/// A map from every page number to 4,096 bytes. Of the pages that were taken some may be free again: they are a chain, each with
/// the number of the next.
pub trait Pages {
    /// What they tell, with their counts.
    ghost view: { Self → PagesView };

    /// What each call keeps of what lies beneath the pages, as the areas of a device.
    ghost keeps: { Self → Self → Type 0 };

    /// The page, also one that was never taken.
    fn read(&mut self, page: u32) -> Result<&[u8], PageFault>
        ensures size { IfOk result (λ bytes. length bytes.now ≡ 4096) }
        ensures bytes { IfOk result (λ bytes. IsTrue (view self.old).is_told → bytes.now ≡ (view self.old).page page) }
        ensures failed { IfErr result (λ fault. fault ≡ PageFault.Failed) }
        ensures* after_borrow { sem 𝓛 (Rests Self.row self.entry (λ new. keeps self.old new × HasReads 1 (view self.old) (view new) result)) };

    /// Replaces the page. After an error the pages are to be dropped, here and below.
    fn write(&mut self, page: u32, bytes: &[u8]) -> Result<(), PageFault>
        requires may_change { (view self.old).is_read_only ≡ false }
        requires size { length bytes.now ≡ 4096 }
        ensures written { OnOk result (IsTrue (view self.old).is_told → Writes page bytes.now (view self.old) (view self.new)) }
        ensures fault { IfErr result NotDamaged }
        ensures counts { Counts 0 1 (view self.old) (view self.new) }
        ensures cause { HasPageCause (view self.old) (view self.new) result }
        ensures keeps { keeps self.old self.new };

    /// A page for its caller: the first free one, else the least that was never taken. Its bytes are any.
    fn take(&mut self) -> Result<u32, PageFault>
        requires { (view self.old).is_read_only ≡ false }
        ensures taken { IfOk result (λ page. IsTrue (view self.old).is_told → Takes (view self.old) (view self.new) page) }
        ensures damaged { IsTrue (view self.old).is_told → IsDamaged (damage (view self.old)) result }
        ensures counts { Counts 1 1 (view self.old) (view self.new) }
        ensures cause { HasPageCause (view self.old) (view self.new) result }
        ensures keeps { keeps self.old self.new };

    /// Makes the page a free one, and the first.
    fn give(&mut self, page: u32) -> Result<(), PageFault>
        requires { (view self.old).is_read_only ≡ false }
        ensures given { OnOk result (IsTrue (view self.old).is_told → Gives page (view self.old) (view self.new)) }
        ensures fault { IfErr result NotDamaged }
        ensures counts { Counts 0 1 (view self.old) (view self.new) }
        ensures cause { HasPageCause (view self.old) (view self.new) result }
        ensures keeps { keeps self.old self.new };

    /// Each page has 4,096 bytes.
    ghost sizes: { (s : Self) (n : ℕ) → length ((view s).page n) ≡ 4096 };

    /// The count of faults stays in its counter.
    ghost faults_fit: { (s : Self) → (view s).faults < 2 ^ 64 };

    /// No call at all keeps it.
    ghost keeps_same: { (s : Self) → keeps s s };

    /// What two calls keep one after the other, both keep together.
    ghost keeps_on: { (a b c : Self) → keeps a b → keeps b c → keeps a c };
}
