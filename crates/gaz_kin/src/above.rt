//! What stands above a row: the first of the places to which its links, its admin codes and its country lead.
ghost use Rattle.std.specs.Prelude.{◌≡◌, ◌≤◌, ◌+◌, ◌*◌, ◌&&◌, ◌==◌, not, true, [], ◌∷◌, length, find, IfOk, IfErr, OnOk};
ghost use Rattle.gaz_num.specs.Pieces.{column};
ghost use Rattle.gaz_row.specs.Row.{id_of};
ghost use Rattle.gaz_parent.specs.Parent.{linked, division, country_above};
ghost use Rattle.gaz_num.specs.declared.words.Table.TheVariants.{Countries};
ghost use Rattle.gaz_plain.specs.Gazetteer.{line_with};
ghost use Rattle.gaz_plain.specs.Kin.{lists_of};
ghost use Rattle.gaz_name.specs.Name.{first_bytes};
ghost use Rattle.gaz_keys.specs.Lines.{path_to};
ghost use Rattle.gaz_scan.specs.Scan.{tree_of};
ghost use Rattle.gaz_rows.specs.Store.{HasAsked, IsSound};
ghost use Rattle.gaz_kin.specs.Above.{is_above, fits_at, may_be_parent, may_be_above, place_named};
ghost use Rattle.gaz_kin.specs.Ids.{Looks, OverFew, ids_in};
ghost use Rattle.gaz_kin.specs.Kept.{is_named_for, IsLeastFound, IsAboveFound, IsKept};
ghost use Rattle.gaz_kin.specs.Over.{OverStore, OverScan, HasOnlyAsked, each_of};
ghost use Rattle.gaz_kin.specs.Reads.{links_up, alike_at};

use crate::ids::{Look, Part, next_id, turns_for};
use crate::kept::{Found, Kept};
use crate::path::put_path;
use crate::rows::{find_row, if_live};
use gaz_keys::{division_key, link_key};
use gaz_page::Pages;
use gaz_parent::{leads_to_country, leads_to_division, may_be_country, may_be_division};
use gaz_row::Row;
use gaz_rows::{AskFault, RowStore};
use gaz_scan::Scan;
use gaz_tables::{LinkClass, LinkKey, country_place};

/// Whether the other row is the division of this level with the row's path, or for level 0 a country row with its country.
fn is_above(level: u8, row: &Row<'_>, other: &Row<'_>) -> bool
    requires { level ≤ 4 }
    ensures { result ≡ is_above level row.now other.now }
{
    if level == 0 {
        may_be_country(row, other)
    } else {
        may_be_division(level, row, other)
    }
}

/// Whether the id is that of a row, and not the child's own.
fn fits_linked<P: Pages>(
    store: &mut RowStore<P>,
    id: u32,
    child: u32,
    buf: &mut [u8],
) -> Result<bool, AskFault>
    requires room { 65535 ≤ length buf.old }
    ensures fits { IfOk result (λ fits. OverStore (P.view store.old.pages) store.old.root (λ gaz. fits ≡ fits_at gaz (may_be_parent child) id)) }
    ensures damaged { IfErr result (λ fault. OverStore (P.view store.old.pages) store.old.root (λ gaz. IsSound fault)) }
    ensures size { length buf.new ≡ length buf.old }
    ensures asked { HasAsked (store.old.root.height + 17) (P.view store.old.pages) (P.view store.new.pages) result }
    ensures root { store.new.root ≡ store.old.root }
    ensures keeps { P.keeps store.old.pages store.new.pages }
{
    match store.get_row(id, buf) {
        Ok(Some(_)) => Ok(id != child),
        Ok(None) => Ok(false),
        Err(fault) => Err(fault),
    }
}

/// Looks whether the next id of a scan is that of a row, and not the child's own.
fn look_linked<P: Pages>(
    store: &mut RowStore<P>,
    scan: &mut Scan,
    child: u32,
    buf: &mut [u8],
) -> Result<Look, AskFault>
    requires room { 65535 ≤ length buf.old }
    ensures looks { OverScan (P.view store.old.pages) store.old.root scan.old
        (λ gaz left. Looks Part.Other (fits_at gaz (may_be_parent child)) (P.view store.new.pages).page scan.new left result) }
    ensures tree { tree_of scan.new ≡ tree_of scan.old }
    ensures size { length buf.new ≡ length buf.old }
    ensures asked { HasAsked (each_of scan.old store.old.root) (P.view store.old.pages) (P.view store.new.pages) result }
    ensures ends { OverScan (P.view store.old.pages) store.old.root scan.old (λ gaz left. left ≡ [] → (P.view store.new.pages).reads ≤ (P.view store.old.pages).reads + 2 * (tree_of scan.old).height) }
    ensures root { store.new.root ≡ store.old.root }
    ensures keeps { P.keeps store.old.pages store.new.pages }
{
    let id = match next_id(store, scan, Part::Other) {
        Ok(Some(id)) => id,
        Ok(None) => return Ok(Look::End),
        Err(fault) => return Err(fault),
    };
    match fits_linked(store, id, child, buf) {
        Ok(true) => Ok(Look::Fits(id)),
        Ok(false) => Ok(Look::Passed(id)),
        Err(fault) => Err(fault),
    }
}

/// Of the ids of a scan the first that is that of a row, and not the child's own. There are no more links than the root says, so a
/// scan that gives more goes over damaged pages.
fn first_linked<P: Pages>(
    store: &mut RowStore<P>,
    scan: &mut Scan,
    child: u32,
    buf: &mut [u8],
) -> Result<Option<u32>, AskFault>
    requires room { 65535 ≤ length buf.old }
    ensures found { IfOk result (λ found. OverFew store.old.root.counts.links (P.view store.old.pages) store.old.root scan.old
        (λ gaz left. found ≡ find (fits_at gaz (may_be_parent child)) (ids_in Part.Other left))) }
    ensures damaged { IfErr result (λ fault. OverFew store.old.root.counts.links (P.view store.old.pages) store.old.root scan.old (λ gaz left. IsSound fault)) }
    ensures few { OverFew store.old.root.counts.links (P.view store.old.pages) store.old.root scan.old
        (λ gaz left. (P.view store.new.pages).reads ≤ (P.view store.old.pages).reads + (each_of scan.old store.old.root * length left + 2 * (tree_of scan.old).height)) }
    ensures size { length buf.new ≡ length buf.old }
    ensures asked { HasAsked (each_of scan.old store.old.root * (store.old.root.counts.links + 1)) (P.view store.old.pages) (P.view store.new.pages) result }
    ensures root { store.new.root ≡ store.old.root }
    ensures keeps { P.keeps store.old.pages store.new.pages }
{
    for _turn in 0..turns_for(store.root().counts.links) {
        match look_linked(store, scan, child, buf) {
            Ok(Look::End) => return Ok(None),
            Ok(Look::Fits(id)) => return Ok(Some(id)),
            Ok(Look::Passed(_)) => {}
            Err(fault) => return Err(fault),
        }
    }
    Err(AskFault::Damaged(store.root().top))
}

/// The least id of a row to which a link of this class leads from the child, and not the child itself.
pub(crate) fn least_linked<P: Pages>(
    store: &mut RowStore<P>,
    child: u32,
    class: LinkClass,
    buf: &mut [u8],
) -> Result<Option<u32>, AskFault>
    requires room { 65535 ≤ length buf.old }
    ensures found { IfOk result (λ found. OverStore (P.view store.old.pages) store.old.root (λ gaz. found ≡ linked (lists_of gaz) child class)) }
    ensures damaged { IfErr result (λ fault. OverStore (P.view store.old.pages) store.old.root (λ gaz. IsSound fault)) }
    ensures size { length buf.new ≡ length buf.old }
    ensures asked { HasOnlyAsked (P.view store.old.pages) (P.view store.new.pages) result }
    ensures few { OverStore (P.view store.old.pages) store.old.root (λ gaz. (P.view store.new.pages).reads ≤ (P.view store.old.pages).reads + (35 * links_up gaz child class + 12)) }
    ensures root { store.new.root ≡ store.old.root }
    ensures keeps { P.keeps store.old.pages store.new.pages }
{
    let low = link_key(LinkKey {
        child,
        class,
        parent: 0,
    });
    let high = link_key(LinkKey {
        child,
        class,
        parent: u32::MAX,
    });
    let mut scan = store.scan(low, high);
    first_linked(store, &mut scan, child, buf)
}

/// Whether the id is that of another row that is above this one.
fn fits_above<P: Pages>(
    store: &mut RowStore<P>,
    id: u32,
    level: u8,
    row: &Row<'_>,
    buf: &mut [u8],
) -> Result<bool, AskFault>
    requires room { 65535 ≤ length buf.old }
    requires level { level ≤ 4 }
    ensures fits { IfOk result (λ fits. OverStore (P.view store.old.pages) store.old.root (λ gaz. fits ≡ fits_at gaz (may_be_above level row.now) id)) }
    ensures damaged { IfErr result (λ fault. OverStore (P.view store.old.pages) store.old.root (λ gaz. IsSound fault)) }
    ensures size { length buf.new ≡ length buf.old }
    ensures asked { HasAsked (store.old.root.height + 17) (P.view store.old.pages) (P.view store.new.pages) result }
    ensures root { store.new.root ≡ store.old.root }
    ensures keeps { P.keeps store.old.pages store.new.pages }
{
    match find_row(store, id, buf) {
        Ok(Some(size)) => Ok(is_other_above(level, row, &Row::of(&buf[..size]))),
        Ok(None) => Ok(false),
        Err(fault) => Err(fault),
    }
}

/// Looks whether the next id of a scan is that of another row that is above this one.
fn look_above<P: Pages>(
    store: &mut RowStore<P>,
    scan: &mut Scan,
    level: u8,
    row: &Row<'_>,
    buf: &mut [u8],
) -> Result<Look, AskFault>
    requires room { 65535 ≤ length buf.old }
    requires level { level ≤ 4 }
    ensures looks { OverScan (P.view store.old.pages) store.old.root scan.old
        (λ gaz left. Looks Part.Last (fits_at gaz (may_be_above level row.now)) (P.view store.new.pages).page scan.new left result) }
    ensures tree { tree_of scan.new ≡ tree_of scan.old }
    ensures size { length buf.new ≡ length buf.old }
    ensures asked { HasAsked (each_of scan.old store.old.root) (P.view store.old.pages) (P.view store.new.pages) result }
    ensures ends { OverScan (P.view store.old.pages) store.old.root scan.old (λ gaz left. left ≡ [] → (P.view store.new.pages).reads ≤ (P.view store.old.pages).reads + 2 * (tree_of scan.old).height) }
    ensures root { store.new.root ≡ store.old.root }
    ensures keeps { P.keeps store.old.pages store.new.pages }
{
    let id = match next_id(store, scan, Part::Last) {
        Ok(Some(id)) => id,
        Ok(None) => return Ok(Look::End),
        Err(fault) => return Err(fault),
    };
    match fits_above(store, id, level, row, buf) {
        Ok(true) => Ok(Look::Fits(id)),
        Ok(false) => Ok(Look::Passed(id)),
        Err(fault) => Err(fault),
    }
}

/// Whether the other row has another id and is above the row.
fn is_other_above(level: u8, row: &Row<'_>, other: &Row<'_>) -> bool
    requires { level ≤ 4 }
    ensures { result ≡ may_be_above level row.now other.now }
{
    is_above(level, row, other) && other.id() != row.id()
}

/// Whether this id isn't the row's own either, after others.
fn still_others(others: bool, id: u32, row: &Row<'_>) -> bool
    ensures { result ≡ (others && not (id == id_of row.now)) }
{
    others && id != row.id()
}

/// Of the ids of a scan the first that is that of another row that is above this one. It is common, unless the row's own id came
/// before. There are no more rows than the root says, so a scan that gives more goes over damaged pages.
fn first_above<P: Pages>(
    store: &mut RowStore<P>,
    scan: &mut Scan,
    level: u8,
    row: &Row<'_>,
    buf: &mut [u8],
) -> Result<Found, AskFault>
    requires room { 65535 ≤ length buf.old }
    requires level { level ≤ 4 }
    ensures found { IfOk result (λ found. OverFew store.old.root.counts.rows (P.view store.old.pages) store.old.root scan.old
        (λ gaz left. found.above ≡ find (fits_at gaz (may_be_above level row.now)) (ids_in Part.Last left))) }
    ensures common { IfOk result (λ found. OverFew store.old.root.counts.rows (P.view store.old.pages) store.old.root scan.old
        (λ gaz left. found.is_common ≡ true → found.above ≡ find (fits_at gaz (is_above level row.now)) (ids_in Part.Last left))) }
    ensures damaged { IfErr result (λ fault. OverFew store.old.root.counts.rows (P.view store.old.pages) store.old.root scan.old (λ gaz left. IsSound fault)) }
    ensures few { OverFew store.old.root.counts.rows (P.view store.old.pages) store.old.root scan.old
        (λ gaz left. (P.view store.new.pages).reads ≤ (P.view store.old.pages).reads + (each_of scan.old store.old.root * length left + 2 * (tree_of scan.old).height)) }
    ensures size { length buf.new ≡ length buf.old }
    ensures asked { HasAsked (each_of scan.old store.old.root * (store.old.root.counts.rows + 1)) (P.view store.old.pages) (P.view store.new.pages) result }
    ensures root { store.new.root ≡ store.old.root }
    ensures keeps { P.keeps store.old.pages store.new.pages }
{
    let mut is_common = true;
    for _turn in 0..turns_for(store.root().counts.rows) {
        match look_above(store, scan, level, row, buf) {
            Ok(Look::End) => {
                return Ok(Found {
                    above: None,
                    is_common,
                });
            }
            Ok(Look::Fits(id)) => {
                return Ok(Found {
                    above: Some(id),
                    is_common,
                });
            }
            Ok(Look::Passed(id)) => is_common = still_others(is_common, id, row),
            Err(fault) => return Err(fault),
        }
    }
    Err(AskFault::Damaged(store.root().top))
}

/// The least id of another row that is above this one, sought by the first bytes of the row's path.
fn least_between<P: Pages>(
    store: &mut RowStore<P>,
    level: u8,
    row: &Row<'_>,
    first: &[u8; 26],
    buf: &mut [u8],
) -> Result<Found, AskFault>
    requires room { 65535 ≤ length buf.old }
    requires level { level ≤ 4 }
    requires first { first.now ≡ first_bytes 26 (path_to level row.now) }
    ensures found { IfOk result (λ found. OverStore (P.view store.old.pages) store.old.root (λ gaz. IsLeastFound (lists_of gaz) (id_of row.now) (is_above level row.now) found)) }
    ensures damaged { IfErr result (λ fault. OverStore (P.view store.old.pages) store.old.root (λ gaz. IsSound fault)) }
    ensures size { length buf.new ≡ length buf.old }
    ensures asked { HasOnlyAsked (P.view store.old.pages) (P.view store.new.pages) result }
    ensures few { OverStore (P.view store.old.pages) store.old.root (λ gaz. (P.view store.new.pages).reads ≤ (P.view store.old.pages).reads + (35 * alike_at gaz row.now level + 12)) }
    ensures root { store.new.root ≡ store.old.root }
    ensures keeps { P.keeps store.old.pages store.new.pages }
{
    let low = division_key(level, first, 0);
    let high = division_key(level, first, u32::MAX);
    let mut scan = store.scan(low, high);
    first_above(store, &mut scan, level, row, buf)
}

/// The least id of another row that is above this one: the division of the level with the row's path, or for level 0 a country row
/// with its country.
fn least_above<P: Pages>(
    store: &mut RowStore<P>,
    level: u8,
    row: &Row<'_>,
    buf: &mut [u8],
) -> Result<Found, AskFault>
    requires room { 65535 ≤ length buf.old }
    requires level { level ≤ 4 }
    ensures found { IfOk result (λ found. OverStore (P.view store.old.pages) store.old.root (λ gaz. IsLeastFound (lists_of gaz) (id_of row.now) (is_above level row.now) found)) }
    ensures damaged { IfErr result (λ fault. OverStore (P.view store.old.pages) store.old.root (λ gaz. IsSound fault)) }
    ensures size { length buf.new ≡ length buf.old }
    ensures asked { HasOnlyAsked (P.view store.old.pages) (P.view store.new.pages) result }
    ensures few { OverStore (P.view store.old.pages) store.old.root (λ gaz. (P.view store.new.pages).reads ≤ (P.view store.old.pages).reads + (35 * alike_at gaz row.now level + 12)) }
    ensures root { store.new.root ≡ store.old.root }
    ensures keeps { P.keeps store.old.pages store.new.pages }
{
    let mut first = [0; 26];
    put_path(&mut first, level, row, 0);
    least_between(store, level, row, &first, buf)
}

/// The place that the line of the row's country names, or `None` where there is no such line or it names none.
fn named_place<P: Pages>(
    store: &mut RowStore<P>,
    row: &Row<'_>,
    buf: &mut [u8],
) -> Result<Option<u32>, AskFault>
    requires room { 65535 ≤ length buf.old }
    ensures named { IfOk result (λ named. OverStore (P.view store.old.pages) store.old.root (λ gaz. place_named (line_with Countries (column 9 row.now) gaz) ≡ named)) }
    ensures damaged { IfErr result (λ fault. OverStore (P.view store.old.pages) store.old.root (λ gaz. IsSound fault)) }
    ensures size { length buf.new ≡ length buf.old }
    ensures asked { HasOnlyAsked (P.view store.old.pages) (P.view store.new.pages) result }
    ensures reads { (P.view store.new.pages).reads ≤ (P.view store.old.pages).reads + (store.old.root.height + 17) }
    ensures root { store.new.root ≡ store.old.root }
    ensures keeps { P.keeps store.old.pages store.new.pages }
{
    match store.get_country(row.country().as_bytes(), buf) {
        Ok(Some(size)) => Ok(country_place(&buf[..size])),
        Ok(None) => Ok(None),
        Err(fault) => Err(fault),
    }
}

/// The id of another row that the table of countries names for the row's country.
fn named_country<P: Pages>(
    store: &mut RowStore<P>,
    row: &Row<'_>,
    buf: &mut [u8],
) -> Result<Found, AskFault>
    requires room { 65535 ≤ length buf.old }
    ensures found { IfOk result (λ found. OverStore (P.view store.old.pages) store.old.root (λ gaz. IsLeastFound (lists_of gaz) (id_of row.now) (is_named_for (lists_of gaz) row.now) found)) }
    ensures damaged { IfErr result (λ fault. OverStore (P.view store.old.pages) store.old.root (λ gaz. IsSound fault)) }
    ensures size { length buf.new ≡ length buf.old }
    ensures asked { HasOnlyAsked (P.view store.old.pages) (P.view store.new.pages) result }
    ensures reads { (P.view store.new.pages).reads ≤ (P.view store.old.pages).reads + 2 * (store.old.root.height + 17) }
    ensures root { store.new.root ≡ store.old.root }
    ensures keeps { P.keeps store.old.pages store.new.pages }
{
    let place = match named_place(store, row, buf) {
        Ok(Some(place)) => place,
        Ok(None) => {
            return Ok(Found {
                above: None,
                is_common: true,
            });
        }
        Err(fault) => return Err(fault),
    };
    if place == row.id() {
        return Ok(Found {
            above: None,
            is_common: false,
        });
    }
    match if_live(store, place, buf) {
        Ok(above) => Ok(Found {
            above,
            is_common: true,
        }),
        Err(fault) => Err(fault),
    }
}

/// The country of the row's code: the place that the table of countries names for it, else the least country row with it.
fn seek_country<P: Pages>(
    store: &mut RowStore<P>,
    row: &Row<'_>,
    buf: &mut [u8],
) -> Result<Found, AskFault>
    requires room { 65535 ≤ length buf.old }
    ensures found { IfOk result (λ found. OverStore (P.view store.old.pages) store.old.root (λ gaz. IsAboveFound (lists_of gaz) 0 row.now found)) }
    ensures damaged { IfErr result (λ fault. OverStore (P.view store.old.pages) store.old.root (λ gaz. IsSound fault)) }
    ensures size { length buf.new ≡ length buf.old }
    ensures asked { HasOnlyAsked (P.view store.old.pages) (P.view store.new.pages) result }
    ensures few { OverStore (P.view store.old.pages) store.old.root (λ gaz. (P.view store.new.pages).reads ≤ (P.view store.old.pages).reads + (35 * alike_at gaz row.now 0 + 58)) }
    ensures root { store.new.root ≡ store.old.root }
    ensures keeps { P.keeps store.old.pages store.new.pages }
{
    let named = match named_country(store, row, buf) {
        Ok(named) => named,
        Err(fault) => return Err(fault),
    };
    if named.above.is_some() {
        return Ok(named);
    }
    match least_above(store, 0, row, buf) {
        Ok(least) => Ok(both_found(named, least)),
        Err(fault) => Err(fault),
    }
}

/// What was found in the second place, where nothing was in the first.
fn both_found(first: Found, second: Found) -> Found
    ensures above { result.above ≡ second.above }
    ensures common { result.is_common ≡ (first.is_common && second.is_common) }
{
    Found {
        above: second.above,
        is_common: first.is_common && second.is_common,
    }
}

/// The division of this level above the row, if it isn't remembered in `kept`. What is found is remembered in `notes`.
pub(crate) fn find_division<P: Pages>(
    store: &mut RowStore<P>,
    level: u8,
    row: &Row<'_>,
    kept: &Kept,
    notes: &mut Kept,
    buf: &mut [u8],
) -> Result<Option<u32>, AskFault>
    requires room { 65535 ≤ length buf.old }
    requires low { 1 ≤ level }
    requires high { level ≤ 4 }
    ensures found { IfOk result (λ found. OverStore (P.view store.old.pages) store.old.root (λ gaz. IsKept (lists_of gaz) kept.now → found ≡ division (lists_of gaz) level row.now)) }
    ensures notes { OnOk result (OverStore (P.view store.old.pages) store.old.root (λ gaz. IsKept (lists_of gaz) notes.old → IsKept (lists_of gaz) notes.new)) }
    ensures damaged { IfErr result (λ fault. OverStore (P.view store.old.pages) store.old.root (λ gaz. IsSound fault)) }
    ensures size { length buf.new ≡ length buf.old }
    ensures asked { HasOnlyAsked (P.view store.old.pages) (P.view store.new.pages) result }
    ensures few { OverStore (P.view store.old.pages) store.old.root (λ gaz. (P.view store.new.pages).reads ≤ (P.view store.old.pages).reads + (35 * alike_at gaz row.now level + 12)) }
    ensures root { store.new.root ≡ store.old.root }
    ensures keeps { P.keeps store.old.pages store.new.pages }
{
    if !leads_to_division(level, row) {
        return Ok(None);
    }
    if let Some(above) = kept.recall(level, row) {
        return Ok(above);
    }
    match least_above(store, level, row, buf) {
        Ok(found) => {
            notes.keep(level, row, found);
            Ok(found.above)
        }
        Err(fault) => Err(fault),
    }
}

/// The country above the row, if it isn't remembered in `kept`. What is found is remembered in `notes`.
pub(crate) fn find_country<P: Pages>(
    store: &mut RowStore<P>,
    row: &Row<'_>,
    kept: &Kept,
    notes: &mut Kept,
    buf: &mut [u8],
) -> Result<Option<u32>, AskFault>
    requires room { 65535 ≤ length buf.old }
    ensures found { IfOk result (λ found. OverStore (P.view store.old.pages) store.old.root (λ gaz. IsKept (lists_of gaz) kept.now → found ≡ country_above (lists_of gaz) row.now)) }
    ensures notes { OnOk result (OverStore (P.view store.old.pages) store.old.root (λ gaz. IsKept (lists_of gaz) notes.old → IsKept (lists_of gaz) notes.new)) }
    ensures damaged { IfErr result (λ fault. OverStore (P.view store.old.pages) store.old.root (λ gaz. IsSound fault)) }
    ensures size { length buf.new ≡ length buf.old }
    ensures asked { HasOnlyAsked (P.view store.old.pages) (P.view store.new.pages) result }
    ensures few { OverStore (P.view store.old.pages) store.old.root (λ gaz. (P.view store.new.pages).reads ≤ (P.view store.old.pages).reads + (35 * alike_at gaz row.now 0 + 58)) }
    ensures root { store.new.root ≡ store.old.root }
    ensures keeps { P.keeps store.old.pages store.new.pages }
{
    if !leads_to_country(row) {
        return Ok(None);
    }
    if let Some(above) = kept.recall(0, row) {
        return Ok(above);
    }
    match seek_country(store, row, buf) {
        Ok(found) => {
            notes.keep(0, row, found);
            Ok(found.above)
        }
        Err(fault) => Err(fault),
    }
}
