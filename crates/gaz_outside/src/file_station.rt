//! Five files of the current folder, and standard output. It tells no bytes.
ghost use Rattle.std.specs.Prelude.{◌≡◌, ◌≤◌, ◌<◌, ◌^◌, IsFalse};
ghost use Rattle.gaz_outside.specs.Outside.{RisesOnce};
ghost use Rattle.gaz_outside.specs.Untold.{untold_station, not_told};

use crate::area_files::{AreaFiles, Lock};
use crate::{Area, Failed, Station};
use std::fs::Files;
use std::io::Print;
use std::os::unix::fs::FileExt;

/// The areas are the files `mirror.mark`, `mirror.log`, `mirror.root`, `mirror.left` and `mirror.right`, each opened or made
/// at the first call on its area. A lock on the first is held from then on.
#[derive(Drop)]
pub struct FileStation<'a, R: Files> {
    rt: &'a R,
    files: AreaFiles<R::File>,
    faults: u64,
    ghost fits: { faults < 2 ^ 64 },
}

impl<'a, R: Files + Print> FileStation<'a, R>
where
    R::File: FileExt + Lock,
{
    /// With no file opened yet.
    pub fn new(rt: &'a R) -> Self
        ensures untold { IsFalse (⟦<FileStation<'a, R> as Station>⟧.view result).is_told }
        ensures faults { (⟦<FileStation<'a, R> as Station>⟧.view result).faults ≡ 0 }
    {
        FileStation {
            rt,
            files: AreaFiles::new(),
            faults: 0,
        }
    }

    fn fault(&mut self) -> Failed
        ensures later { self.old.faults ≤ self.new.faults }
        ensures rose { RisesOnce self.old.faults self.new.faults }
    {
        self.faults = self.faults.saturating_add(1);
        Failed
    }
}

#[tactic(auto, unfolding(crate::specs::Outside::printed_of))]
impl<'a, R: Files + Print> Station for FileStation<'a, R>
where
    R::File: FileExt + Lock,
{
    ghost view = { λ s. untold_station s.faults };

    ghost counts_now = { λ s t c told le now. absurd (not_told told) };

    ghost only_now = { λ s c told left. absurd (not_told told) };

    ghost may_stay = { λ s a told. absurd (not_told told) };

    ghost faults_fit = { λ s. s.fits };

    fn len(&mut self, area: Area) -> Result<u64, Failed> {
        match self.files.len(self.rt, area) {
            Ok(n) => Ok(n),
            Err(_) => Err(self.fault()),
        }
    }

    fn read_at(&mut self, area: Area, at: u64, buf: &mut [u8]) -> Result<usize, Failed> {
        match self.files.read_at(self.rt, area, at, buf) {
            Ok(n) => Ok(n),
            Err(_) => Err(self.fault()),
        }
    }

    fn write_at(&mut self, area: Area, at: u64, bytes: &[u8]) -> Result<(), Failed> {
        match self.files.write_at(self.rt, area, at, bytes) {
            Ok(()) => Ok(()),
            Err(_) => Err(self.fault()),
        }
    }

    fn sync(&mut self, area: Area) -> Result<(), Failed> {
        match self.files.sync(self.rt, area) {
            Ok(()) => Ok(()),
            Err(_) => Err(self.fault()),
        }
    }

    fn print(&mut self, piece: &[u8]) -> Result<(), Failed> {
        match self.rt.write_all(piece) {
            Ok(()) => Ok(()),
            Err(_) => Err(self.fault()),
        }
    }
}
