//! The numbering of all names of all classes, in the order of their bytes.

ghost use Rattle.std.specs.Prelude.{◌≡◌, ◌<◌, ◌^◌, ◌||◌, ℕ, List, length, map, flat_map, slice_get};
ghost use Rattle.std.specs.Prelude.{Some, IfOk, OnOk};
ghost use Rattle.std.specs.Str.{bytes_eq};
ghost use Rattle.eif_base.specs.Numbering.{is_among, IsNumbering};
ghost use Rattle.eif_classes.specs.Names.{name_set};
ghost use Rattle.eif_tables.specs.Numbered.{NameEntries};

use crate::row_entry::RowEntry;
use eif_base::{FeatId, Memory, Name, NameSet, Names};
use eif_rows::{Row, ordered_names};
use std::alloc::Global;

/// Adds the name, unless it is in the set, to the set too.
fn push_if_new<'r>(
    seen: &mut NameSet,
    out: &mut Vec<&'r Name>,
    name: &'r Name,
) -> Result<(), Memory>
    requires { seen.old ≡ map (λ n. n.now) out.old.items }
    ensures same { OnOk result (seen.new ≡ map (λ n. n.now) out.new.items) }
    ensures names { OnOk result ((n : List ℕ) → is_among seen.new n
        ≡ (bytes_eq n name.now || is_among seen.old n)) }
{
    if seen.insert(name)? {
        out.push(name)?;
    }
    Ok(())
}

/// Adds those of the names that are not in the set yet, to the set too.
fn push_new<'r>(
    seen: &mut NameSet,
    out: &mut Vec<&'r Name>,
    names: &'r [Name],
) -> Result<(), Memory>
    requires { seen.old ≡ map (λ n. n.now) out.old.items }
    ensures same { OnOk result (seen.new ≡ map (λ n. n.now) out.new.items) }
    ensures names { OnOk result ((n : List ℕ) → is_among seen.new n
        ≡ (is_among names.now n || is_among seen.old n)) }
{
    'names: for name in names {
        push_if_new(seen, out, name)?;
    }
    Ok(())
}

/// Numbers the names in their order.
fn numbered(alloc: Global, names: &[Name]) -> Result<Names, Memory>
    requires few { length names.now < 2 ^ 32 }
    requires once { IsNumbering names.now }
    ensures { IfOk result (λ m. m ≡ names.now) }
{
    let mut numbering = Names::new(alloc);
    'names: for name in names {
        numbering.intern(name.text())?;
    }
    Ok(numbering)
}

/// The names of these rows, each once.
fn all_names(alloc: Global, rows: &[Row]) -> Result<Vec<&Name>, Memory>
    ensures { IfOk result (λ out. (n : List ℕ) → is_among (map (λ n. n.now) out.items) n
        ≡ is_among (flat_map (λ r. r.names.items) rows.now) n) }
{
    let mut seen = NameSet::new(alloc);
    let mut names = Vec::new(alloc);
    'rows: for row in rows {
        push_new(&mut seen, &mut names, &row.names)?;
    }
    Ok(names)
}

/// The numbering of all names of these rows, in the order of their bytes.
pub(crate) fn name_numbering(alloc: Global, rows: &[Row]) -> Result<Names, Memory>
    ensures { IfOk result (λ m. m ≡ name_set (flat_map (λ r. r.names.items) rows.now)) }
{
    let names = all_names(alloc, rows)?;
    let ordered = ordered_names(alloc, names)?;
    numbered(alloc, &ordered)
}

/// The entry of the name, which has that number in the class. A name that the numbering lacks
/// counts as want of memory.
fn entry(numbering: &Names, name: &Name, feat: FeatId) -> Result<RowEntry, Memory>
    ensures name { IfOk result (λ e. slice_get numbering.now e.name_id.0 ≡ Some name.now) }
    ensures feat { IfOk result (λ e. e.feat ≡ feat) }
{
    match numbering.find(name.text()) {
        Some(name_id) => Ok(RowEntry { name_id, feat }),
        None => Err(Memory),
    }
}

/// The names of a row by their numbers among all names.
pub(crate) fn row_entries(
    alloc: Global,
    numbering: &Names,
    row: &Row,
) -> Result<Vec<RowEntry>, Memory>
    ensures { IfOk result (λ es. NameEntries numbering.now row.now.names.items es.items) }
{
    let mut entries = Vec::with_capacity(alloc, row.names.len())?;
    'names: for (i, name) in row.names.iter().enumerate() {
        entries.push(entry(numbering, name, FeatId(i as u32))?)?;
    }
    Ok(entries)
}
