//! A plain gazetteer and a store of the same lines.
ghost use Rattle.std.specs.Prelude.{◌↔◌, ◌==◌, IsTrue, ◌≡◌};
ghost use Rattle.std.specs.List.{list_any};
ghost use Rattle.gaz_plain.specs.Gazetteer.{is_one_line};

use crate::draws::Draws;
use crate::lines::{alternate, circle, code, country, link, other_alternate, other_row, row};
use crate::stopped::{Done, Stopped};
use gaz_num::{Day, Kind};
use gaz_page::{MemPages, Side};
use gaz_plain::PlainGaz;
use gaz_rows::{AskFault, RowStore, empty_root};
use std::alloc::Global;

/// A store over pages in memory.
pub type Store = RowStore<MemPages>;

/// What is made, one line after another.
#[derive(Clone, Copy)]
enum Making {
    Rows,
    Alternates,
    Links,
    Circle,
    Countries,
    Codes,
    OtherRows,
    OtherAlternates,
}

/// A store without a line.
fn empty_store(fails: Vec<u64>, day: Day) -> Result<Store, AskFault> {
    let mut pages = MemPages::new(fails);
    match empty_root(&mut pages, Side::Left, day) {
        Ok(root) => Ok(RowStore::over(pages, root)),
        Err(fault) => Err(fault),
    }
}

fn has_lf(line: &[u8]) -> bool
    ensures { result ≡ list_any (λ byte. byte == 10) line.now }
{
    line.iter().any(|byte| *byte == b'\n')
}

fn is_one_line(line: &[u8]) -> bool
    ensures { IsTrue result ↔ IsTrue (is_one_line line.now) }
{
    !has_lf(line)
}

fn step_store(alloc: Global, store: &mut Store, kind: Kind, line: &[u8]) -> Done {
    if !is_one_line(line) {
        return Err(Stopped::Wrong("a line"));
    }
    match store.step(alloc, kind, line) {
        Ok(()) => Ok(()),
        Err(fault) => Err(Stopped::Step(fault)),
    }
}

fn step_plain(plain: &mut PlainGaz, kind: Kind, line: &[u8]) -> Done {
    if plain.date().is_none() || !is_one_line(line) {
        return Err(Stopped::Wrong("a line"));
    }
    match plain.step(kind, line) {
        Ok(()) => Ok(()),
        Err(_) => Err(Stopped::Wrong("a line that is refused")),
    }
}

/// Both of them, with the line that comes next.
#[derive(Drop)]
pub struct Both {
    pub plain: PlainGaz,
    pub store: Store,
    draws: Draws,
    line: Vec<u8>,
}

impl Both {
    /// Both without a line.
    pub fn empty(alloc: Global) -> Result<Both, Stopped> {
        let Some(day) = Day::from_number(0) else {
            return Err(Stopped::Wrong("a day"));
        };
        let store = empty_store(Vec::new(alloc), day).map_err(Stopped::Ask)?;
        let mut plain = PlainGaz::new(alloc);
        plain.set_date(day);
        Ok(Both {
            plain,
            store,
            draws: Draws::from(7),
            line: Vec::new(alloc),
        })
    }

    /// Puts all lines, and changes some.
    pub fn fill(&mut self, alloc: Global) -> Done {
        self.put_lines(alloc, Making::Rows, 5000)?;
        self.put_lines(alloc, Making::Alternates, 3000)?;
        self.put_lines(alloc, Making::Links, 900)?;
        self.put_lines(alloc, Making::Circle, 100)?;
        self.put_lines(alloc, Making::Countries, 6)?;
        self.put_lines(alloc, Making::Codes, 150)?;
        self.put_lines(alloc, Making::OtherRows, 1000)?;
        self.put_lines(alloc, Making::OtherAlternates, 1000)
    }

    fn put_lines(&mut self, alloc: Global, making: Making, many: u32) -> Done {
        for n in 1..=many {
            self.line.clear();
            let kind = self.make(making, n)?;
            step_plain(&mut self.plain, kind, &self.line)?;
            step_store(alloc, &mut self.store, kind, &self.line)?;
        }
        Ok(())
    }

    /// Makes the line with a number.
    fn make(&mut self, making: Making, n: u32) -> Result<Kind, Stopped> {
        match making {
            Making::Rows => row(&mut self.draws, n, &mut self.line),
            Making::Alternates => alternate(&mut self.draws, n, &mut self.line),
            Making::Links => link(&mut self.draws, &mut self.line),
            Making::Circle => circle(n, &mut self.line),
            Making::Countries => country(n, &mut self.line),
            Making::Codes => code(&mut self.draws, &mut self.line),
            Making::OtherRows => other_row(&mut self.draws, &mut self.line),
            Making::OtherAlternates => other_alternate(&mut self.draws, &mut self.line),
        }
    }
}
