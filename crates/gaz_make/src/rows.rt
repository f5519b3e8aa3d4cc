//! The rows, one after another, and their lines.
ghost use Rattle.std.specs.Prelude.{◌≡◌, ◌≤◌, ◌<◌, ◌+◌, ◌-◌, ◌*◌, ◌∷◌, ◌++◌, [], length};
ghost use Rattle.gaz_make.specs.Chunk.{text_of};
ghost use Rattle.gaz_make.specs.Files.{delete_line};
ghost use Rattle.gaz_make.specs.Made.{after, drawn, coordinate, drawn_for, row_line, made_table};
ghost use Rattle.gaz_make.specs.Row.{drawn_in, names_part, codes_part};

use crate::chunk::Chunk;

/// How many rows a chunk has room for.
pub(crate) const CHUNK_ROWS: u32 = 256;

/// A row: its id, and the three numbers that were drawn for it.
#[derive(Clone, Copy)]
pub(crate) struct Row {
    id: u32,
    latitude: u32,
    longitude: u32,
    population: u32,
}

/// Makes the rows that follow from a start.
#[derive(Drop)]
pub(crate) struct Rows {
    start: u64,
    /// How many rows were made.
    done: u32,
    /// The last number that was drawn.
    last: u32,
    ghost drawn: { last ≡ drawn start (3 * done) },
    ghost within: { last < 2147483647 },
}

/// The number that comes after this one, by the generator of Park and Miller.
fn next(number: u32) -> u32
    requires { number < 2147483647 }
    ensures is { result ≡ after number }
    ensures within { result < 2147483647 }
{
    (number as u64 * 16_807 % 2_147_483_647) as u32
}

impl Rows {
    pub(crate) fn new(start: u64) -> Rows
        ensures start { result.start ≡ start }
        ensures done { result.done ≡ 0 }
    {
        Rows {
            start,
            done: 0,
            last: (1 + start % 2_147_483_646) as u32,
        }
    }

    /// How many rows were made.
    pub(crate) fn done(&self) -> u32
        ensures { result ≡ self.now.done }
    {
        self.done
    }

    pub(crate) fn next_row(&mut self) -> Row
        requires { self.old.done ≤ 1000000 }
        ensures id { result.id ≡ self.old.done + 1 }
        ensures row { drawn_in result ≡ drawn_for self.old.start result.id }
        ensures start { self.new.start ≡ self.old.start }
        ensures done { self.new.done ≡ self.old.done + 1 }
    {
        let latitude = next(self.last);
        let longitude = next(latitude);
        let population = next(longitude);
        self.last = population;
        self.done += 1;
        Row {
            id: self.done,
            latitude,
            longitude,
            population,
        }
    }

    /// Makes so many rows of which nothing is wanted.
    pub(crate) fn skip(&mut self, rows: u32)
        requires { self.old.done + rows ≤ 1000000 }
        ensures start { self.new.start ≡ self.old.start }
        ensures done { self.new.done ≡ self.old.done + rows }
    {
        for _row in 0..rows {
            let _skipped = self.next_row();
        }
    }

    /// Puts the lines of so many rows into an empty chunk.
    pub(crate) fn fill(&mut self, chunk: &mut Chunk, rows: u32)
        requires empty { text_of chunk.old ≡ [] }
        requires few { rows ≤ 256 }
        requires done { self.old.done + rows ≤ 1000000 }
        ensures text { made_table self.old.start self.old.done ++ text_of chunk.new ≡ made_table self.old.start self.new.done }
        ensures start { self.new.start ≡ self.old.start }
        ensures done { self.new.done ≡ self.old.done + rows }
    {
        for _row in 0..rows {
            let row = self.next_row();
            row.push(chunk, 0, b"2000-01-01");
        }
    }
}

impl Row {
    /// Puts its line, with so many people more and this date, and an LF.
    pub(crate) fn push(&self, chunk: &mut Chunk, more: u32, date: &[u8])
        requires room { length (text_of chunk.old) + 256 ≤ 65536 }
        requires id { 1 ≤ self.now.id }
        requires more { more ≤ 1000000 }
        requires date { length date.now ≡ 10 }
        ensures text { text_of chunk.new ≡ text_of chunk.old ++ (row_line self.now.id (drawn_in self.now) more date.now ++ 10 ∷ []) }
        ensures size { length (text_of chunk.new) ≤ length (text_of chunk.old) + 256 }
    {
        self.push_names(chunk);
        push_coordinate(chunk, 90_000, self.latitude);
        chunk.push(b"\t");
        push_coordinate(chunk, 180_000, self.longitude);
        self.push_codes(chunk);
        chunk.push_number(self.population % 1_000_000 + more);
        chunk.push(b"\t\t\tEtc/UTC\t");
        chunk.push(date);
        chunk.push(b"\n");
    }

    /// The columns up to the empty one of alternate names.
    fn push_names(&self, chunk: &mut Chunk)
        requires room { length (text_of chunk.old) + 64 ≤ 65536 }
        ensures text { text_of chunk.new ≡ text_of chunk.old ++ names_part self.now.id }
        ensures size { length (text_of chunk.new) ≤ length (text_of chunk.old) + 64 }
    {
        chunk.push_number(self.id);
        chunk.push(b"\tPlace ");
        chunk.push_number(self.id);
        chunk.push(b"\tPlace ");
        chunk.push_number(self.id);
        chunk.push(b"\t\t");
    }

    /// The columns from the class up to the ones that are empty before the population.
    fn push_codes(&self, chunk: &mut Chunk)
        requires room { length (text_of chunk.old) + 64 ≤ 65536 }
        requires id { 1 ≤ self.now.id }
        ensures text { text_of chunk.new ≡ text_of chunk.old ++ codes_part self.now.id }
        ensures size { length (text_of chunk.new) ≤ length (text_of chunk.old) + 64 }
    {
        if self.id % 50 == 1 {
            chunk.push(b"\tA\tADM1\tX");
        } else {
            chunk.push(b"\tP\tPPL\tX");
        }
        let place = self.id - 1;
        chunk.push(&[b'A' + (place / 1_000 % 26) as u8, b'\t', b'\t']);
        chunk.push_two_digits(1 + place / 50 % 20);
        chunk.push(b"\t\t\t\t");
    }
}

/// Puts the line that deletes the row with this id, and an LF.
pub(crate) fn push_delete(chunk: &mut Chunk, id: u32)
    requires room { length (text_of chunk.old) + 64 ≤ 65536 }
    ensures text { text_of chunk.new ≡ text_of chunk.old ++ (delete_line id ++ 10 ∷ []) }
{
    chunk.push_number(id);
    chunk.push(b"\tPlace ");
    chunk.push_number(id);
    chunk.push(b"\tmade\n");
}

/// Puts a coordinate of at most so many thousandths, by the number that was drawn for it.
fn push_coordinate(chunk: &mut Chunk, most: u32, drawn: u32)
    requires room { length (text_of chunk.old) + 15 ≤ 65536 }
    requires most { most ≤ 180000 }
    ensures text { text_of chunk.new ≡ text_of chunk.old ++ coordinate most drawn }
    ensures size { length (text_of chunk.new) ≤ length (text_of chunk.old) + 15 }
{
    let n = drawn % (2 * most + 1);
    if n < most {
        chunk.push(b"-");
        chunk.push_thousandths(most - n);
    } else {
        chunk.push_thousandths(n - most);
    }
}
