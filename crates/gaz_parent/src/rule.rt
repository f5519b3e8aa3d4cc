//! The parent rule.
ghost use Rattle.std.specs.Prelude.{◌≡◌, ◌≤◌, IfOk, IfErr, OnOk};
ghost use Rattle.gaz_parent.specs.Parent.{Lists, division_above, parent_of};
ghost use Rattle.gaz_parent.specs.Questions.{divisions, questions, ReadsNoMore};

use crate::entity::first_level_above;
use crate::kin::Kin;
use gaz_row::Row;
use gaz_tables::LinkClass;

/// The division above the row of the highest level that has one, from this level downwards.
fn division_from<K: Kin>(kin: &mut K, level: u8, row: &Row<'_>) -> Result<Option<u32>, K::Fault>
    requires { level ≤ 4 }
    ensures found { IfOk result (λ found. (lists : Lists) → K.stands_for kin.old lists → found ≡ division_above lists level row.now) }
    ensures leads { OnOk result (K.leads kin.old kin.new) }
    ensures fault { IfErr result (λ fault. K.may_fail kin.old kin.new fault) }
    ensures grows { K.reads kin.old ≤ K.reads kin.new }
    ensures reads { ReadsNoMore (K.bounded kin.old) (divisions level row.now) (K.reads kin.old) (K.reads kin.new) }
{
    if level == 0 {
        return Ok(None);
    }
    match kin.division(level, row)? {
        Some(id) => Ok(Some(id)),
        None => division_from(kin, level - 1, row),
    }
}

/// The parent of the row: the first of these that exists, where the row itself is never taken. The least id of a place
/// to which a link of class Adm leads from the row; the division of the highest level above the row that has the row's
/// country and admin codes; its country, by the table of countries or else the least id of a country's row; the least id
/// of a place to which a link without a type leads.
pub fn parent<K: Kin>(kin: &mut K, row: &Row<'_>) -> Result<Option<u32>, K::Fault>
    ensures found { IfOk result (λ found. (lists : Lists) → K.stands_for kin.old lists → found ≡ parent_of lists row.now) }
    ensures leads { OnOk result (K.leads kin.old kin.new) }
    ensures fault { IfErr result (λ fault. K.may_fail kin.old kin.new fault) }
    ensures grows { K.reads kin.old ≤ K.reads kin.new }
    ensures reads { ReadsNoMore (K.bounded kin.old) (questions row.now) (K.reads kin.old) (K.reads kin.new) }
{
    let id = row.id();
    if let Some(above) = kin.link_up(id, LinkClass::Adm)? {
        return Ok(Some(above));
    }
    if let Some(above) = division_from(kin, first_level_above(row), row)? {
        return Ok(Some(above));
    }
    if let Some(above) = kin.country(row)? {
        return Ok(Some(above));
    }
    kin.link_up(id, LinkClass::Plain)
}
