//! The names of a class, and their numbers.

ghost use Rattle.std.specs.Prelude.{◌≡◌, ◌<◌, ◌^◌, ◌++◌, length, map, Some, IfOk, OnOk};
ghost use Rattle.eif_classes.specs.Names.{name_set};
ghost use Rattle.eif_heirs.specs.Numbered.{declared_texts, clause_finals, final_texts};
ghost use Rattle.eif_rows.specs.Matched.{Match};
ghost use Rattle.eif_rows.specs.Numbers.{name_of, names_of};

use crate::clauses::Clause;
use crate::declared::DeclaredName;
use eif_adapt::AdaptedEntry;
use eif_base::{FeatId, Memory, Name};
use eif_rows::{find_name, ordered_names};
use std::alloc::Global;

fn push_declared<'n>(
    out: &mut Vec<&'n Name>,
    declared: &'n [DeclaredName<'n>],
) -> Result<(), Memory>
    ensures { OnOk result (map (λ n. n.now) out.new.items
        ≡ map (λ n. n.now) out.old.items ++ declared_texts declared.now) }
{
    'names: for one in declared {
        out.push(&one.name.name)?;
    }
    Ok(())
}

fn push_finals<'n>(out: &mut Vec<&'n Name>, entries: &'n [AdaptedEntry]) -> Result<(), Memory>
    ensures { OnOk result (map (λ n. n.now) out.new.items
        ≡ map (λ n. n.now) out.old.items ++ map (λ a. a.final_name) entries.now) }
{
    'entries: for entry in entries {
        out.push(&entry.final_name)?;
    }
    Ok(())
}

fn push_all_finals<'n>(out: &mut Vec<&'n Name>, clauses: &'n [Clause<'n>]) -> Result<(), Memory>
    ensures { OnOk result (map (λ n. n.now) out.new.items
        ≡ map (λ n. n.now) out.old.items ++ final_texts clauses.now) }
{
    'clauses: for clause in clauses {
        push_finals(out, &clause.adapted)?;
    }
    Ok(())
}

/// The names that a class declares and inherits, in the order of their bytes.
pub(crate) fn class_names<'n>(
    alloc: Global,
    declared: &'n [DeclaredName<'n>],
    clauses: &'n [Clause<'n>],
) -> Result<Vec<Name>, Memory>
    ensures names { IfOk result (λ ns. ns.items
        ≡ name_set (declared_texts declared.now ++ final_texts clauses.now)) }
    ensures few { IfOk result (λ ns. length ns.items < 2 ^ 32) }
{
    let mut all = Vec::new(alloc);
    push_declared(&mut all, declared)?;
    push_all_finals(&mut all, clauses)?;
    ordered_names(alloc, all)
}

/// The number of a name, which is one of the names.
fn number_of(names: &[Name], name: &Name) -> Result<FeatId, Memory>
    requires { length names.now < 2 ^ 32 }
    ensures { IfOk result (λ f. name_of names.now f ≡ Some name.now) }
{
    match find_name(names, name) {
        Some(i) => Ok(FeatId(i as u32)),
        None => Err(Memory),
    }
}

/// The numbers of the declared names.
pub(crate) fn declared_numbers(
    alloc: Global,
    names: &[Name],
    declared: &[DeclaredName<'_>],
) -> Result<Vec<FeatId>, Memory>
    requires { length names.now < 2 ^ 32 }
    ensures { IfOk result (λ fs. names_of names.now fs.items
        ≡ map Some (declared_texts declared.now)) }
{
    let mut numbers = Vec::with_capacity(alloc, declared.len())?;
    'names: for one in declared {
        numbers.push(number_of(names, &one.name.name)?)?;
    }
    Ok(numbers)
}

/// The numbers of the final names of a clause.
fn final_numbers(
    alloc: Global,
    names: &[Name],
    entries: &[AdaptedEntry],
) -> Result<Vec<FeatId>, Memory>
    requires { length names.now < 2 ^ 32 }
    ensures { IfOk result (λ fs. names_of names.now fs.items
        ≡ map (λ a. Some a.final_name) entries.now) }
{
    let mut numbers = Vec::with_capacity(alloc, entries.len())?;
    'entries: for entry in entries {
        numbers.push(number_of(names, &entry.final_name)?)?;
    }
    Ok(numbers)
}

/// Those of each clause.
pub(crate) fn all_final_numbers(
    alloc: Global,
    names: &[Name],
    clauses: &[Clause<'_>],
) -> Result<Vec<Vec<FeatId>>, Memory>
    requires { length names.now < 2 ^ 32 }
    ensures { IfOk result (λ finals. Match (λ fs x. names_of names.now fs.items
        ≡ map (λ a. Some a.final_name) x.adapted.items) finals.items clauses.now) }
{
    let mut finals = Vec::with_capacity(alloc, clauses.len())?;
    'clauses: for clause in clauses {
        finals.push(final_numbers(alloc, names, &clause.adapted)?)?;
    }
    Ok(finals)
}
