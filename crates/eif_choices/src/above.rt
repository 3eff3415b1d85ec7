ghost use Rattle.std.specs.Prelude.{◌≡◌, ◌++◌, List, IfOk, OnOk};
ghost use Rattle.eif_choices.specs.Ancestors.{classes_by};
ghost use Rattle.eif_classes.specs.Descent.{above};
ghost use Rattle.eif_heirs.specs.Heirs.{IsHeir};
ghost use Rattle.eif_rows.specs.Numbers.{class_numbers};
ghost use Rattle.eif_rows.specs.Systems.{IsSystem};
ghost use Rattle.eif_system.specs.Lineage.{line_of};
ghost use Rattle.eif_tree.specs.Tree.{ClassT};

use eif_base::{ClassId, Memory};
use eif_heirs::{Clause, Heir};
use eif_rows::ordered_classes;
use std::alloc::Global;

// The proper ancestors of the class, by rising number.
pub fn proper_ancestors(alloc: Global, heir: &Heir<'_>) -> Result<Vec<ClassId>, Memory>
    ensures { IfOk result (λ v. (u : List ClassT) → IsSystem u → IsHeir u heir.now
        → class_numbers v.items ≡ above (line_of u heir.now.class_id.0)) }
{
    let mut all = Vec::new(alloc);
    'clauses: for clause in &heir.clauses {
        push_classes(clause, &mut all)?;
    }
    Ok(ordered_classes(all))
}

// Adds the class of the clause and its proper ancestors.
fn push_classes(clause: &Clause<'_>, out: &mut Vec<ClassId>) -> Result<(), Memory>
    ensures { OnOk result
        (class_numbers out.new.items ≡ class_numbers out.old.items ++ classes_by clause.now) }
{
    out.push(clause.parent)?;
    'ancestors: for ancestor in &clause.row.ancestors {
        out.push(ancestor.class_id)?;
    }
    Ok(())
}
