//! The children of a place, sought among the rows that may be such: those from which a link leads to it, those with its path, and
//! those of each country whose line names it.
ghost use Rattle.std.specs.Prelude.{◌≡◌, ◌≤◌, ◌==◌, ◌∷◌, ◌++◌, [], ◌+◌, ◌-◌, ◌*◌, ℕ, List, length, take, replicate, IfOk, IfErr, OnOk};
ghost use Rattle.gaz_num.specs.Pieces.{column};
ghost use Rattle.gaz_row.specs.Row.{id_of};
ghost use Rattle.gaz_parent.specs.Chain.{is_child};
ghost use Rattle.gaz_pick.specs.Order.{in_order};
ghost use Rattle.gaz_plain.specs.Children.{is_linked_to, SeesMore};
ghost use Rattle.gaz_plain.specs.Kin.{lists_of, child_pairs, children_pairs};
ghost use Rattle.gaz_rows.specs.Store.{IsSound};
ghost use Rattle.gaz_scan.specs.Scan.{tree_of};
ghost use Rattle.gaz_keys.specs.Front.{IsFront};
ghost use Rattle.gaz_kin.specs.Below.{is_one_of, has_beginning, is_within, is_named_by, is_named_among, IsBeginning, IsBeginningOf, IsNamedBeginning};
ghost use Rattle.gaz_kin.specs.Named.{OverCountries, LooksNamed, SeesCountry};
ghost use Rattle.gaz_kin.specs.Ids.{ids_in, OverFew};
ghost use Rattle.gaz_kin.specs.Faults.{as_asked, NotOver};
ghost use Rattle.gaz_kin.specs.Kept.{IsKept};
ghost use Rattle.gaz_kin.specs.Over.{OverStore, HasOnlyAsked};
ghost use Rattle.gaz_kin.specs.Reads.{parents_sought, most_sought, links_down, rows_alike, rows_within, rows_named, rows_of_first, rows_of_pairs, most_for_rows, most_for_children};

use crate::beginning::Beginning;
use crate::fault::{KinFault, kin_fault};
use crate::ids::{Part, next_id, turns_for};
use crate::kept::Kept;
use crate::kin::parent_of;
use crate::path::{put_path, put_text};
use crate::rows::find_row;
use gaz_keys::{country_key, path_key, reverse_key};
use gaz_num::field;
use gaz_page::Pages;
use gaz_parent::{is_country, level};
use gaz_pick::{Best, first_of_more};
use gaz_row::Row;
use gaz_rows::{AskFault, RowStore};
use gaz_scan::Scan;
use gaz_tables::{LinkClass, LinkKey, country_place};

/// As many bytes as the longest line has.
const LONGEST: usize = 65_535;

/// The feature classes of the rows that may be children: divisions and countries, and cities and villages.
const ADMINISTRATIVE: &str = "A";

const POPULATED: &str = "P";

/// Whether the row is a child of the place with the id.
fn is_child<P: Pages>(
    store: &mut RowStore<P>,
    id: u32,
    row: &Row<'_>,
    kept: &mut Kept,
    buf: &mut [u8],
) -> Result<bool, AskFault>
    requires room { 65535 ≤ length buf.old }
    ensures is { IfOk result (λ is. OverStore (P.view store.old.pages) store.old.root (λ gaz. IsKept (lists_of gaz) kept.old → is ≡ is_child (lists_of gaz) id row.now)) }
    ensures kept { OnOk result (OverStore (P.view store.old.pages) store.old.root (λ gaz. IsKept (lists_of gaz) kept.old → IsKept (lists_of gaz) kept.new)) }
    ensures damaged { IfErr result (λ fault. OverStore (P.view store.old.pages) store.old.root (λ gaz. IsSound fault)) }
    ensures size { length buf.new ≡ length buf.old }
    ensures asked { HasOnlyAsked (P.view store.old.pages) (P.view store.new.pages) result }
    ensures few { OverStore (P.view store.old.pages) store.old.root (λ gaz. (P.view store.new.pages).reads ≤ (P.view store.old.pages).reads + (35 * parents_sought gaz row.now + 130)) }
    ensures root { store.new.root ≡ store.old.root }
    ensures keeps { P.keeps store.old.pages store.new.pages }
{
    if row.class() != ADMINISTRATIVE && row.class() != POPULATED {
        return Ok(false);
    }
    match parent_of(store, row, kept, buf) {
        Ok(above) => Ok(above == Some(id)),
        Err(fault) => Err(fault),
    }
}

/// Offers the row with the id of a child to the place's children, if it is one. The row stands in `line`, and what is looked at in
/// `buf`.
fn offer_at<P: Pages>(
    store: &mut RowStore<P>,
    id: u32,
    child: u32,
    best: &mut Best,
    kept: &mut Kept,
    line: &mut [u8],
    buf: &mut [u8],
) -> Result<(), AskFault>
    requires room_for_line { 65535 ≤ length line.old }
    requires room { 65535 ≤ length buf.old }
    ensures keep { best.new.keep ≡ best.old.keep }
    ensures more { OnOk result (OverStore (P.view store.old.pages) store.old.root (λ gaz. IsKept (lists_of gaz) kept.old → SeesMore gaz id best.old.keep (λ row. child == id_of row) best.old.pairs best.new.pairs)) }
    ensures kept { OnOk result (OverStore (P.view store.old.pages) store.old.root (λ gaz. IsKept (lists_of gaz) kept.old → IsKept (lists_of gaz) kept.new)) }
    ensures damaged { IfErr result (λ fault. OverStore (P.view store.old.pages) store.old.root (λ gaz. IsSound fault)) }
    ensures line_size { length line.new ≡ length line.old }
    ensures size { length buf.new ≡ length buf.old }
    ensures asked { HasOnlyAsked (P.view store.old.pages) (P.view store.new.pages) result }
    ensures few { OverStore (P.view store.old.pages) store.old.root (λ gaz. (P.view store.new.pages).reads ≤ (P.view store.old.pages).reads + (35 * most_sought gaz + 153)) }
    ensures root { store.new.root ≡ store.old.root }
    ensures keeps { P.keeps store.old.pages store.new.pages }
{
    first_of_more();
    let size = match find_row(store, child, line) {
        Ok(Some(size)) => size,
        Ok(None) => return Ok(()),
        Err(fault) => return Err(fault),
    };
    let row = Row::of(&line[..size]);
    match is_child(store, id, &row, kept, buf) {
        Ok(true) => {
            best.offer(row.population(), row.id());
            Ok(())
        }
        Ok(false) => Ok(()),
        Err(fault) => Err(fault),
    }
}

/// Keys whose ids are those of rows that may be children. Over pages that stand for a gazetteer they are no more than `most`.
#[derive(Drop)]
struct Candidates {
    scan: Scan,
    part: Part,
    most: u32,
}

/// Offers the children among the rows with the ids in the keys of a scan.
fn offer_all<P: Pages>(
    store: &mut RowStore<P>,
    mut candidates: Candidates,
    id: u32,
    best: &mut Best,
    line: &mut [u8],
    buf: &mut [u8],
) -> Result<(), AskFault>
    requires room_for_line { 65535 ≤ length line.old }
    requires room { 65535 ≤ length buf.old }
    ensures keep { best.new.keep ≡ best.old.keep }
    ensures more { OnOk result (OverFew candidates.most (P.view store.old.pages) store.old.root candidates.scan
        (λ gaz left. SeesMore gaz id best.old.keep (λ row. is_one_of (ids_in candidates.part left) (id_of row)) best.old.pairs best.new.pairs)) }
    ensures damaged { IfErr result (λ fault. OverFew candidates.most (P.view store.old.pages) store.old.root candidates.scan (λ gaz left. IsSound fault)) }
    ensures line_size { length line.new ≡ length line.old }
    ensures size { length buf.new ≡ length buf.old }
    ensures asked { HasOnlyAsked (P.view store.old.pages) (P.view store.new.pages) result }
    ensures few { OverFew candidates.most (P.view store.old.pages) store.old.root candidates.scan
        (λ gaz left. (P.view store.new.pages).reads ≤ (P.view store.old.pages).reads + ((2 * (tree_of candidates.scan).height + (35 * most_sought gaz + 153)) * length left + 2 * (tree_of candidates.scan).height)) }
    ensures root { store.new.root ≡ store.old.root }
    ensures keeps { P.keeps store.old.pages store.new.pages }
{
    let mut kept = Kept::none();
    for _turn in 0..turns_for(candidates.most) {
        match next_id(store, &mut candidates.scan, candidates.part) {
            Ok(Some(child)) => match offer_at(store, id, child, best, &mut kept, line, buf) {
                Ok(()) => {}
                Err(fault) => return Err(fault),
            },
            Ok(None) => return Ok(()),
            Err(fault) => return Err(fault),
        }
    }
    Err(AskFault::Damaged(store.root().top))
}

/// Offers the children among the rows from which a link that may be followed leads to the place.
fn offer_linked<P: Pages>(
    store: &mut RowStore<P>,
    id: u32,
    best: &mut Best,
    line: &mut [u8],
    buf: &mut [u8],
) -> Result<(), AskFault>
    requires room_for_line { 65535 ≤ length line.old }
    requires room { 65535 ≤ length buf.old }
    ensures keep { best.new.keep ≡ best.old.keep }
    ensures more { OnOk result (OverStore (P.view store.old.pages) store.old.root (λ gaz. SeesMore gaz id best.old.keep (is_linked_to gaz id) best.old.pairs best.new.pairs)) }
    ensures damaged { IfErr result (λ fault. OverStore (P.view store.old.pages) store.old.root (λ gaz. IsSound fault)) }
    ensures line_size { length line.new ≡ length line.old }
    ensures size { length buf.new ≡ length buf.old }
    ensures asked { HasOnlyAsked (P.view store.old.pages) (P.view store.new.pages) result }
    ensures few { OverStore (P.view store.old.pages) store.old.root (λ gaz. (P.view store.new.pages).reads ≤ (P.view store.old.pages).reads + (most_for_rows gaz (links_down gaz id) + 12)) }
    ensures root { store.new.root ≡ store.old.root }
    ensures keeps { P.keeps store.old.pages store.new.pages }
{
    let low = reverse_key(LinkKey {
        child: 0,
        class: LinkClass::Adm,
        parent: id,
    });
    let high = reverse_key(LinkKey {
        child: u32::MAX,
        class: LinkClass::Plain,
        parent: id,
    });
    let candidates = Candidates {
        scan: store.scan(low, high),
        part: Part::Other,
        most: store.root().counts.links,
    };
    offer_all(store, candidates, id, best, line, buf)
}

/// The first bytes of the path of a division or a country row up to its level, and none of another row.
fn beginning_of(row: &Row<'_>) -> Option<Beginning>
    ensures { IsBeginningOf row.now result }
{
    let own = if is_country(row) { Some(0) } else { level(row) };
    let Some(level) = own else {
        return None;
    };
    let mut bytes = [0; 27];
    let len = put_path(&mut bytes, level, row, 0);
    Some(Beginning { bytes, len })
}

/// The first bytes of the path of a country.
fn beginning_by(code: &[u8]) -> Beginning
    ensures { IsBeginning (code.now ++ 0 ∷ []) result }
{
    let mut bytes = [0; 27];
    let len = put_text(&mut bytes, code);
    Beginning { bytes, len }
}

/// The last of the texts that begin with the first `len` of these bytes.
fn last_of(first: &[u8; 27], len: usize) -> [u8; 27]
    requires { len ≤ 27 }
    ensures { result ≡ take len first.now ++ replicate (27 - len) 255 }
{
    let mut last = [255; 27];
    last[..len].copy_from_slice(&first[..len]);
    last
}

/// Offers the children among the rows whose paths begin with these bytes.
fn offer_beginning<P: Pages>(
    store: &mut RowStore<P>,
    first: &[u8; 27],
    len: usize,
    id: u32,
    best: &mut Best,
    line: &mut [u8],
    buf: &mut [u8],
) -> Result<(), AskFault>
    requires room_for_line { 65535 ≤ length line.old }
    requires room { 65535 ≤ length buf.old }
    requires len { len ≤ 27 }
    ensures keep { best.new.keep ≡ best.old.keep }
    ensures more { OnOk result (OverStore (P.view store.old.pages) store.old.root (λ gaz. (text : List ℕ) → IsFront 27 text first.now len → SeesMore gaz id best.old.keep (has_beginning text) best.old.pairs best.new.pairs)) }
    ensures damaged { IfErr result (λ fault. OverStore (P.view store.old.pages) store.old.root (λ gaz. IsSound fault)) }
    ensures line_size { length line.new ≡ length line.old }
    ensures size { length buf.new ≡ length buf.old }
    ensures asked { HasOnlyAsked (P.view store.old.pages) (P.view store.new.pages) result }
    ensures few { OverStore (P.view store.old.pages) store.old.root (λ gaz. (text : List ℕ) → IsFront 27 text first.now len → (P.view store.new.pages).reads ≤ (P.view store.old.pages).reads + (most_for_rows gaz (rows_alike gaz text) + 12)) }
    ensures root { store.new.root ≡ store.old.root }
    ensures keeps { P.keeps store.old.pages store.new.pages }
{
    let last = last_of(first, len);
    let low = path_key(first, 0);
    let high = path_key(&last, u32::MAX);
    let candidates = Candidates {
        scan: store.scan(low, high),
        part: Part::Last,
        most: store.root().counts.rows,
    };
    offer_all(store, candidates, id, best, line, buf)
}

/// The code of the line of a country, column 1.
fn code_of(line: &[u8]) -> &[u8]
    ensures { result.now ≡ column 1 line.now }
{
    field(line, 0).unwrap_or(&[])
}

/// The first bytes of the country's path, if its line names the place.
fn beginning_named(id: u32, line: &[u8]) -> Option<Beginning>
    ensures { IsNamedBeginning id line.now result }
{
    if country_place(line) == Some(id) {
        Some(beginning_by(code_of(line)))
    } else {
        None
    }
}

/// What a look at the next country of a scan comes to.
#[derive(Drop)]
enum Named {
    /// None was left.
    End,
    /// It names the place: the first bytes of its path.
    Place(Beginning),
    /// It names another place, or none.
    Other,
}

/// Looks whether the line of the next country of a scan names the place.
fn look_named<P: Pages>(
    store: &mut RowStore<P>,
    scan: &mut Scan,
    id: u32,
    buf: &mut [u8],
) -> Result<Named, AskFault>
    requires room { 65535 ≤ length buf.old }
    ensures looks { OverCountries (P.view store.old.pages) store.old.root scan.old (λ gaz left. LooksNamed gaz id (P.view store.new.pages).page scan.new left result) }
    ensures tree { tree_of scan.new ≡ tree_of scan.old }
    ensures size { length buf.new ≡ length buf.old }
    ensures asked { HasOnlyAsked (P.view store.old.pages) (P.view store.new.pages) result }
    ensures few { (P.view store.new.pages).reads ≤ (P.view store.old.pages).reads + (2 * (tree_of scan.old).height + 17) }
    ensures root { store.new.root ≡ store.old.root }
    ensures keeps { P.keeps store.old.pages store.new.pages }
{
    let (_key, place) = match store.next(scan) {
        Ok(Some(found)) => found,
        Ok(None) => return Ok(Named::End),
        Err(fault) => return Err(fault),
    };
    match store.line_at(place, buf) {
        Ok(size) => match beginning_named(id, &buf[..size]) {
            Some(beginning) => Ok(Named::Place(beginning)),
            None => Ok(Named::Other),
        },
        Err(fault) => Err(fault),
    }
}

/// Offers the children among the rows of the next country of a scan, if its line names the place. Whether one was left.
fn offer_country<P: Pages>(
    store: &mut RowStore<P>,
    scan: &mut Scan,
    id: u32,
    best: &mut Best,
    line: &mut [u8],
    buf: &mut [u8],
) -> Result<bool, AskFault>
    requires room_for_line { 65535 ≤ length line.old }
    requires room { 65535 ≤ length buf.old }
    ensures keep { best.new.keep ≡ best.old.keep }
    ensures more { IfOk result (λ more. OverCountries (P.view store.old.pages) store.old.root scan.old
        (λ gaz left. SeesCountry gaz id best.old.keep (P.view store.new.pages).page scan.new left best.old.pairs best.new.pairs more)) }
    ensures damaged { IfErr result (λ fault. OverCountries (P.view store.old.pages) store.old.root scan.old (λ gaz left. IsSound fault)) }
    ensures line_size { length line.new ≡ length line.old }
    ensures size { length buf.new ≡ length buf.old }
    ensures asked { HasOnlyAsked (P.view store.old.pages) (P.view store.new.pages) result }
    ensures tree { tree_of scan.new ≡ tree_of scan.old }
    ensures few { OverCountries (P.view store.old.pages) store.old.root scan.old
        (λ gaz left. (P.view store.new.pages).reads ≤ (P.view store.old.pages).reads + (most_for_rows gaz (rows_of_first gaz id left) + (2 * (tree_of scan.old).height + 29))) }
    ensures root { store.new.root ≡ store.old.root }
    ensures keeps { P.keeps store.old.pages store.new.pages }
{
    match look_named(store, scan, id, line) {
        Ok(Named::End) => Ok(false),
        Ok(Named::Other) => Ok(true),
        Ok(Named::Place(beginning)) => {
            match offer_beginning(store, &beginning.bytes, beginning.len, id, best, line, buf) {
                Ok(()) => Ok(true),
                Err(fault) => Err(fault),
            }
        }
        Err(fault) => Err(fault),
    }
}

/// Offers the children among the rows of the countries of a scan whose lines name the place.
fn offer_countries<P: Pages>(
    store: &mut RowStore<P>,
    scan: &mut Scan,
    id: u32,
    best: &mut Best,
    line: &mut [u8],
    buf: &mut [u8],
) -> Result<(), AskFault>
    requires room_for_line { 65535 ≤ length line.old }
    requires room { 65535 ≤ length buf.old }
    ensures keep { best.new.keep ≡ best.old.keep }
    ensures more { OnOk result (OverCountries (P.view store.old.pages) store.old.root scan.old (λ gaz left. SeesMore gaz id best.old.keep (is_named_among gaz left id) best.old.pairs best.new.pairs)) }
    ensures damaged { IfErr result (λ fault. OverCountries (P.view store.old.pages) store.old.root scan.old (λ gaz left. length left ≤ store.old.root.counts.countries → IsSound fault)) }
    ensures line_size { length line.new ≡ length line.old }
    ensures size { length buf.new ≡ length buf.old }
    ensures asked { HasOnlyAsked (P.view store.old.pages) (P.view store.new.pages) result }
    ensures few { OverCountries (P.view store.old.pages) store.old.root scan.old
        (λ gaz left. (P.view store.new.pages).reads ≤ (P.view store.old.pages).reads + (most_for_rows gaz (rows_of_pairs gaz id left) + (2 * (tree_of scan.old).height + 29) * (store.old.root.counts.countries + 1))) }
    ensures root { store.new.root ≡ store.old.root }
    ensures keeps { P.keeps store.old.pages store.new.pages }
{
    for _turn in 0..turns_for(store.root().counts.countries) {
        match offer_country(store, scan, id, best, line, buf) {
            Ok(true) => {}
            Ok(false) => return Ok(()),
            Err(fault) => return Err(fault),
        }
    }
    Err(AskFault::Damaged(store.root().top))
}

/// Offers the children among the rows of each country whose line names the place.
fn offer_named<P: Pages>(
    store: &mut RowStore<P>,
    id: u32,
    best: &mut Best,
    line: &mut [u8],
    buf: &mut [u8],
) -> Result<(), AskFault>
    requires room_for_line { 65535 ≤ length line.old }
    requires room { 65535 ≤ length buf.old }
    ensures keep { best.new.keep ≡ best.old.keep }
    ensures more { OnOk result (OverStore (P.view store.old.pages) store.old.root (λ gaz. SeesMore gaz id best.old.keep (is_named_by gaz id) best.old.pairs best.new.pairs)) }
    ensures damaged { IfErr result (λ fault. OverStore (P.view store.old.pages) store.old.root (λ gaz. IsSound fault)) }
    ensures line_size { length line.new ≡ length line.old }
    ensures size { length buf.new ≡ length buf.old }
    ensures asked { HasOnlyAsked (P.view store.old.pages) (P.view store.new.pages) result }
    ensures few { OverStore (P.view store.old.pages) store.old.root (λ gaz. (P.view store.new.pages).reads ≤ (P.view store.old.pages).reads + (most_for_rows gaz (rows_named gaz id) + 41 * (length gaz.countries + 1))) }
    ensures root { store.new.root ≡ store.old.root }
    ensures keeps { P.keeps store.old.pages store.new.pages }
{
    let mut scan = store.scan(country_key(&[0; 4]), country_key(&[255; 4]));
    offer_countries(store, &mut scan, id, best, line, buf)
}

/// Offers the children among the rows within the place, if it is a division or a country.
fn offer_within<P: Pages>(
    store: &mut RowStore<P>,
    beginning: Option<Beginning>,
    id: u32,
    best: &mut Best,
    line: &mut [u8],
    buf: &mut [u8],
) -> Result<(), AskFault>
    requires room_for_line { 65535 ≤ length line.old }
    requires room { 65535 ≤ length buf.old }
    ensures keep { best.new.keep ≡ best.old.keep }
    ensures more { OnOk result (OverStore (P.view store.old.pages) store.old.root (λ gaz. (place : List ℕ) → IsBeginningOf place beginning → SeesMore gaz id best.old.keep (is_within place) best.old.pairs best.new.pairs)) }
    ensures damaged { IfErr result (λ fault. OverStore (P.view store.old.pages) store.old.root (λ gaz. IsSound fault)) }
    ensures line_size { length line.new ≡ length line.old }
    ensures size { length buf.new ≡ length buf.old }
    ensures asked { HasOnlyAsked (P.view store.old.pages) (P.view store.new.pages) result }
    ensures few { OverStore (P.view store.old.pages) store.old.root (λ gaz. (place : List ℕ) → IsBeginningOf place beginning → (P.view store.new.pages).reads ≤ (P.view store.old.pages).reads + (most_for_rows gaz (rows_within gaz place) + 12)) }
    ensures root { store.new.root ≡ store.old.root }
    ensures keeps { P.keeps store.old.pages store.new.pages }
{
    match beginning {
        Some(beginning) => {
            offer_beginning(store, &beginning.bytes, beginning.len, id, best, line, buf)
        }
        None => Ok(()),
    }
}

/// Offers the population and the id of each child. A place that is no row has none.
fn offer_children<P: Pages>(
    store: &mut RowStore<P>,
    id: u32,
    best: &mut Best,
    line: &mut [u8],
    buf: &mut [u8],
) -> Result<(), AskFault>
    requires room_for_line { 65535 ≤ length line.old }
    requires room { 65535 ≤ length buf.old }
    requires none { best.old.pairs ≡ [] }
    ensures keep { best.new.keep ≡ best.old.keep }
    ensures pairs { OnOk result (OverStore (P.view store.old.pages) store.old.root (λ gaz. best.new.pairs ≡ take best.old.keep (in_order (child_pairs gaz id)))) }
    ensures damaged { IfErr result (λ fault. OverStore (P.view store.old.pages) store.old.root (λ gaz. IsSound fault)) }
    ensures size { length buf.new ≡ length buf.old }
    ensures line_size { length line.new ≡ length line.old }
    ensures asked { HasOnlyAsked (P.view store.old.pages) (P.view store.new.pages) result }
    ensures few { OverStore (P.view store.old.pages) store.old.root (λ gaz. (P.view store.new.pages).reads ≤ (P.view store.old.pages).reads + most_for_children gaz id) }
    ensures root { store.new.root ≡ store.old.root }
    ensures keeps { P.keeps store.old.pages store.new.pages }
{
    let beginning = match find_row(store, id, line) {
        Ok(Some(size)) => beginning_of(&Row::of(&line[..size])),
        Ok(None) => return Ok(()),
        Err(fault) => return Err(fault),
    };
    match offer_linked(store, id, best, line, buf) {
        Ok(()) => {}
        Err(fault) => return Err(fault),
    }
    match offer_within(store, beginning, id, best, line, buf) {
        Ok(()) => {}
        Err(fault) => return Err(fault),
    }
    offer_named(store, id, best, line, buf)
}

/// Puts the first of the children of the place with the id into `best`, in the order of answers.
pub fn children<P: Pages>(
    store: &mut RowStore<P>,
    id: u32,
    max: u32,
    buf: &mut [u8],
    best: &mut Best,
) -> Result<(), KinFault>
    requires room { 131070 ≤ length buf.old }
    requires max { max ≤ 1000 }
    ensures keep { best.new.keep ≡ max }
    ensures held { OnOk result (OverStore (P.view store.old.pages) store.old.root (λ gaz. best.new.pairs ≡ take max (in_order (child_pairs gaz id)))) }
    ensures answer { OnOk result (OverStore (P.view store.old.pages) store.old.root (λ gaz. take max best.new.pairs ≡ children_pairs gaz id max)) }
    ensures damaged { IfErr result (NotOver (P.view store.old.pages) store.old.root) }
    ensures size { length buf.new ≡ length buf.old }
    ensures asked { HasOnlyAsked (P.view store.old.pages) (P.view store.new.pages) (as_asked result) }
    ensures reads { OverStore (P.view store.old.pages) store.old.root (λ gaz. (P.view store.new.pages).reads ≤ (P.view store.old.pages).reads + most_for_children gaz id) }
    ensures root { store.new.root ≡ store.old.root }
    ensures keeps { P.keeps store.old.pages store.new.pages }
{
    first_of_more();
    best.clear(max);
    let (buf, line) = buf.split_at_mut(LONGEST);
    match offer_children(store, id, best, line, buf) {
        Ok(()) => Ok(()),
        Err(fault) => Err(kin_fault(fault)),
    }
}
