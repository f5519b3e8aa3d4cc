//! A shelf in memory that stays as it is.
ghost use Rattle.std.specs.Prelude.{◌≡◌, [], None, true, IsTrue};
ghost use Rattle.std.proofs.Common.{arith};
ghost use Rattle.gaz_outside.specs.Listed.{open_is_named};
ghost use Rattle.gaz_outside.specs.Memory.{failing_reads, later_files};

use gaz_outside::{Failed, MemShelf, Shelf};

/// A shelf in memory that never fails and never finds other files than those that it has. Any shelf may find others between two
/// requests; of this one a caller who lends it knows that it doesn't, since it never found others before, whatever was called.
#[derive(Drop)]
pub struct StillShelf {
    shelf: MemShelf,
    ghost later: { later_files shelf ≡ [] },
    ghost sound: { failing_reads shelf ≡ [] },
}

impl StillShelf {
    /// A shelf in memory for which no other files come later, and of whose calls none fails.
    pub fn new(shelf: MemShelf) -> Self
        requires later { later_files shelf ≡ [] }
        requires sound { failing_reads shelf ≡ [] }
        ensures files { (⟦<StillShelf as Shelf>⟧.view result).files ≡ (⟦<MemShelf as Shelf>⟧.view shelf).files }
        ensures opened { (⟦<StillShelf as Shelf>⟧.view result).opened ≡ (⟦<MemShelf as Shelf>⟧.view shelf).opened }
    {
        StillShelf { shelf }
    }

    /// It tells its files, never failed and never found others. To call it is to know it; it does nothing.
    pub fn is_still(&self)
        ensures told { IsTrue (⟦<StillShelf as Shelf>⟧.view self.now).is_told }
        ensures earlier { (⟦<StillShelf as Shelf>⟧.view self.now).earlier ≡ [] }
        ensures no_fault { (⟦<StillShelf as Shelf>⟧.view self.now).last_fault ≡ None }
        ensures faults { (⟦<StillShelf as Shelf>⟧.view self.now).faults ≡ 0 }
    {}
}

#[tactic(auto, unfolding(gaz_outside::specs::Outside::files_of, gaz_outside::specs::Outside::bytes_of))]
impl Shelf for StillShelf {
    ghost view = { λ s. record {
      is_told = true;
      files = (⟦<MemShelf as Shelf>⟧.view s.shelf).files;
      earlier = [];
      opened = (⟦<MemShelf as Shelf>⟧.view s.shelf).opened;
      last_fault = None;
      faults = 0;
    } };

    ghost faults_fit = { λ s. omega arith };

    ghost open_told = { λ s n told. open_is_named _ _ n };

    fn open(&mut self, name: &str) -> Result<Option<u64>, Failed> {
        match self.shelf.open(name) {
            Ok(number) => Ok(number),
            Err(Failed) => unreachable!(),
        }
    }

    fn read(&mut self, file: u64, at: u64, buf: &mut [u8]) -> Result<usize, Failed> {
        match self.shelf.read(file, at, buf) {
            Ok(count) => Ok(count),
            Err(Failed) => unreachable!(),
        }
    }

    fn close_all(&mut self) {
        self.shelf.close_all();
    }
}
