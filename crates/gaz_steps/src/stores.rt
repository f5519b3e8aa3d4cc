//! Steps of made rows into each store.
ghost use Rattle.std.specs.Prelude.{◌≤◌, IfOk};

use crate::made::{is_one_line, make_row};
use gaz_num::{Day, Kind};
use gaz_plain::PlainGaz;
use gaz_row::check_row;
use std::alloc::{AllocError, Global};
use std::collections::BTreeMap;

/// How many rows with the ids from 1 to `rows` a plain gazetteer takes.
pub fn step_into_plain(alloc: Global, rows: u32) -> Result<u32, AllocError>
    ensures { IfOk result (λ taken. taken ≤ rows) }
{
    let mut gaz = PlainGaz::new(alloc);
    let Some(day) = Day::from_number(0) else {
        return Ok(0);
    };
    gaz.set_date(day);
    let mut row = Vec::new(alloc);
    let mut taken: u32 = 0;
    for id in 0..rows {
        make_row(&mut row, id + 1)?;
        if is_one_line(&row) && gaz.step(Kind::Row, &row).is_ok() {
            taken += 1;
        }
    }
    Ok(taken)
}

/// How many rows with the ids from 1 to `rows` a map from ids to lines takes.
pub fn step_into_map(alloc: Global, rows: u32) -> Result<u32, AllocError>
    ensures { IfOk result (λ taken. taken ≤ rows) }
{
    let mut map: BTreeMap<u32, Vec<u8>> = BTreeMap::new(alloc);
    let mut row = Vec::new(alloc);
    let mut taken: u32 = 0;
    for id in 0..rows {
        make_row(&mut row, id + 1)?;
        if is_one_line(&row) {
            if let Ok(id) = check_row(&row) {
                map.insert(id, Vec::from_slice(alloc, &row)?)?;
                taken += 1;
            }
        }
    }
    Ok(taken)
}
