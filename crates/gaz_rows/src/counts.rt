//! The counts of lines, by table.
ghost use Rattle.std.specs.Prelude.{◌≡◌, ◌<◌, ◌^◌};
ghost use Rattle.gaz_plain.specs.Gazetteer.{limit_of};
ghost use Rattle.gaz_rows.specs.Steps.{counted, recounted};

use gaz_num::Table;
use gaz_page::LineCounts;

/// How many lines a table may hold.
pub(crate) fn limit_of(table: Table) -> u32
    ensures { result ≡ limit_of table }
{
    match table {
        Table::Rows | Table::Alternates => 1 << 25,
        Table::Links => 1 << 23,
        Table::Countries => 1024,
        Table::Codes => 1 << 20,
    }
}

/// How many lines a table has.
pub(crate) fn count_of(counts: &LineCounts, table: Table) -> u32
    ensures { result ≡ counted counts.now table }
{
    match table {
        Table::Rows => counts.rows,
        Table::Alternates => counts.alternates,
        Table::Links => counts.links,
        Table::Countries => counts.countries,
        Table::Codes => counts.codes,
    }
}

/// Sets how many lines a table has.
pub(crate) fn set_count(counts: &mut LineCounts, table: Table, count: u32)
    ensures { counts.new ≡ recounted counts.old table count }
{
    match table {
        Table::Rows => counts.rows = count,
        Table::Alternates => counts.alternates = count,
        Table::Links => counts.links = count,
        Table::Countries => counts.countries = count,
        Table::Codes => counts.codes = count,
    }
}
