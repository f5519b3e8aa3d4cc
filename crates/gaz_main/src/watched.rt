//! A shelf whose reads are watched. What it hands out and tells is the other shelf's.
ghost use Rattle.std.specs.Prelude.{◌≡◌};

use crate::progress::Progress;
use gaz_outside::{Failed, Shelf};

/// A shelf, and what shows how far its files are read, where anybody is there to see it.
#[derive(Drop)]
pub(crate) struct Watched<'a, S> {
    shelf: S,
    progress: Option<Progress<'a>>,
}

impl<'a, S> Watched<'a, S> {
    pub(crate) fn new(shelf: S, progress: Option<Progress<'a>>) -> Self {
        Watched { shelf, progress }
    }
}

#[tactic(auto, unfolding(gaz_outside::specs::Outside::files_of, gaz_outside::specs::Outside::bytes_of))]
impl<'a, S: Shelf> Shelf for Watched<'a, S> {
    ghost view = { λ watched. S.view watched.shelf };

    ghost faults_fit = { λ watched. S.faults_fit watched.shelf };

    ghost open_told = { λ watched n told. S.open_told watched.shelf n told };

    fn open(&mut self, name: &str) -> Result<Option<u64>, Failed> {
        let found = self.shelf.open(name);
        if let Ok(Some(number)) = found {
            if let Some(progress) = &mut self.progress {
                progress.opened(name, number);
            }
        }
        found
    }

    fn read(&mut self, file: u64, at: u64, buf: &mut [u8]) -> Result<usize, Failed> {
        let count = self.shelf.read(file, at, buf);
        if let Ok(count) = count {
            if let Some(progress) = &mut self.progress {
                progress.read(file, at, &buf[..count]);
            }
        }
        count
    }

    fn close_all(&mut self) {
        self.shelf.close_all();
        if let Some(progress) = &mut self.progress {
            progress.closed();
        }
    }
}
