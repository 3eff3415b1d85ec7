//! The rows of classes while a universe is filled.

ghost use Rattle.std.specs.Prelude.{◌≡◌, map, Some, IfOk};
ghost use Rattle.std.specs.List.{list_all};
ghost use Rattle.eif_class_rows.specs.Filling.{has_row, HasNone};
ghost use Rattle.eif_rows.specs.Numbers.{class_numbers};

use eif_base::{ClassId, Memory};
use eif_rows::Row;
use std::alloc::Global;

/// No row for each of so many classes.
pub fn no_rows(alloc: Global, count: u32) -> Result<Vec<Option<Row>>, Memory>
    ensures { IfOk result (λ v. HasNone count v.items) }
{
    let mut rows = Vec::with_capacity(alloc, count as usize)?;
    'classes: for _ in 0..count {
        rows.push(None)?;
    }
    Ok(rows)
}

fn has_row(rows: &[Option<Row>], class_id: ClassId) -> bool
    ensures { result ≡ has_row rows.now class_id.0 }
{
    match rows.get(class_id.0 as usize) {
        Some(row) => row.is_some(),
        None => false,
    }
}

/// Whether each of the classes has its row.
pub fn have_rows(rows: &[Option<Row>], classes: &[ClassId]) -> bool
    ensures { result ≡ list_all (has_row rows.now) (class_numbers classes.now) }
{
    'classes: for class_id in classes {
        if !has_row(rows, *class_id) {
            return false;
        }
    }
    true
}

/// The rows of the classes, of which each has one.
pub fn all_rows(alloc: Global, rows: Vec<Option<Row>>) -> Result<Vec<Row>, Memory>
    ensures { IfOk result (λ v. map Some v.items ≡ rows.items) }
{
    let mut all = Vec::with_capacity(alloc, rows.len())?;
    'rows: for row in rows {
        let Some(row) = row else {
            return Err(Memory);
        };
        all.push(row)?;
    }
    Ok(all)
}
