//! The classes to which a name of a class is available.

ghost use Rattle.std.specs.Prelude.{◌≡◌, ◌++◌, map, IfOk, OnOk};
ghost use Rattle.std.specs.List.{filter_map};
ghost use Rattle.std.specs.Ordering.{nat_cmp};
ghost use Rattle.eif_classes.specs.RisingLists.{in_order};
ghost use Rattle.eif_heirs.specs.EntryParts as parts;
ghost use Rattle.eif_rows.specs.Numbers.{class_numbers};
ghost use Rattle.eif_rows.specs.Systems.{IsSystem};
ghost use Rattle.eif_system.specs.Universe.{class_number};
ghost use Rattle.eif_tree.specs.View.{clients_view};
ghost use Rattle.eif_universe.specs.Universes.{classes_of};

use crate::heir::{EntryId, Heir};
use eif_base::{ClassId, Memory};
use eif_rows::ordered_classes;
use eif_tree::{Clients, NameAt};
use eif_universe::Universe;
use std::alloc::Global;

/// The class that is meant where no list of clients is written.
const ANY: ClassId = ClassId(0);

// Adds the classes of these names. A name of no class stands for nobody.
fn push_named(u: &Universe, names: &[NameAt], out: &mut Vec<ClassId>) -> Result<(), Memory>
    ensures { OnOk result (class_numbers out.new.items ≡ class_numbers out.old.items
        ++ filter_map (class_number (classes_of u.now)) (map (λ n. n.name) names.now)) }
{
    'names: for name in names {
        match u.class_named(&name.name) {
            Some(class_id) => out.push(class_id)?,
            None => {}
        }
    }
    Ok(())
}

// Adds the classes of the list.
fn push_listed(u: &Universe, clients: &Clients, out: &mut Vec<ClassId>) -> Result<(), Memory>
    requires { IsSystem (classes_of u.now) }
    ensures { OnOk result (class_numbers out.new.items ≡ class_numbers out.old.items
        ++ parts.listed_classes (classes_of u.now) (clients_view clients.now)) }
{
    if clients.stated {
        push_named(u, &clients.names, out)?;
    } else {
        out.push(ANY)?;
    }
    Ok(())
}

/// The classes of the list, by rising number.
pub(crate) fn listed_clients(
    alloc: Global,
    u: &Universe,
    clients: &Clients,
) -> Result<Vec<ClassId>, Memory>
    requires { IsSystem (classes_of u.now) }
    ensures { IfOk result (λ v. class_numbers v.items
        ≡ in_order nat_cmp (parts.listed_classes (classes_of u.now) (clients_view clients.now))) }
{
    let mut classes = Vec::new(alloc);
    push_listed(u, clients, &mut classes)?;
    Ok(ordered_classes(classes))
}

// Adds the clients of the entry in its parent.
fn push_parents(heir: &Heir<'_>, entry: EntryId, out: &mut Vec<ClassId>) -> Result<(), Memory>
    ensures { OnOk result (class_numbers out.new.items
        ≡ class_numbers out.old.items ++ parts.parent_classes heir.now entry) }
{
    match heir.parent_row(entry) {
        Some(row) => out.extend_from_slice(&row.clients)?,
        None => {}
    }
    Ok(())
}

// Adds the clients of the entry: those of the export item, and else those in the parent.
fn push_clients(
    u: &Universe,
    heir: &Heir<'_>,
    entry: EntryId,
    out: &mut Vec<ClassId>,
) -> Result<(), Memory>
    requires { IsSystem (classes_of u.now) }
    ensures { OnOk result (class_numbers out.new.items ≡ class_numbers out.old.items
        ++ parts.entry_classes (classes_of u.now) heir.now entry) }
{
    match heir.exported_to(entry) {
        Some(clients) => push_listed(u, clients, out),
        None => push_parents(heir, entry, out),
    }
}

// Adds the clients of all entries.
fn push_all_clients(
    u: &Universe,
    heir: &Heir<'_>,
    entries: &[EntryId],
    out: &mut Vec<ClassId>,
) -> Result<(), Memory>
    requires { IsSystem (classes_of u.now) }
    ensures { OnOk result (class_numbers out.new.items ≡ class_numbers out.old.items
        ++ parts.inherited_classes (classes_of u.now) heir.now entries.now) }
{
    'entries: for entry in entries {
        push_clients(u, heir, *entry, out)?;
    }
    Ok(())
}

/// The clients of a name with these entries, by rising number.
pub(crate) fn inherited_clients(
    alloc: Global,
    u: &Universe,
    heir: &Heir<'_>,
    entries: &[EntryId],
) -> Result<Vec<ClassId>, Memory>
    requires { IsSystem (classes_of u.now) }
    ensures { IfOk result (λ v. class_numbers v.items
        ≡ in_order nat_cmp (parts.inherited_classes (classes_of u.now) heir.now entries.now)) }
{
    let mut classes = Vec::new(alloc);
    push_all_clients(u, heir, entries, &mut classes)?;
    Ok(ordered_classes(classes))
}
