//! Made rows.
ghost use Rattle.std.specs.Prelude.{◌≡◌, ◌==◌, ◌↔◌, IsTrue};
ghost use Rattle.std.specs.List.{list_any};
ghost use Rattle.gaz_plain.specs.Gazetteer.{is_one_line};

use std::alloc::AllocError;

/// What stands behind the id of a made row.
const TAIL: &[u8] =
    b"\tMade place\tMade place\t\t45.50000\t7.25000\tP\tPPL\tAA\t\t01\t001\t\t\t12345\t\t678\tEurope/Paris\t2024-02-01";

/// Writes the row with the id over what `row` holds.
pub fn make_row(row: &mut Vec<u8>, id: u32) -> Result<(), AllocError> {
    row.clear();
    row.extend_from_slice(itoa::Buffer::new().format(id).as_bytes())?;
    row.extend_from_slice(TAIL)?;
    Ok(())
}

fn has_lf(line: &[u8]) -> bool
    ensures { result ≡ list_any (λ byte. byte == 10) line.now }
{
    line.iter().any(|byte| *byte == b'\n')
}

/// Whether no LF stands in the line.
pub fn is_one_line(line: &[u8]) -> bool
    ensures { IsTrue result ↔ IsTrue (is_one_line line.now) }
{
    !has_lf(line)
}
