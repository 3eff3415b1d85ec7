ghost use Rattle.std.specs.Prelude.{◌≡◌, List, Some, slice_get, IfOk, IfSome};
ghost use Rattle.eif_choices.specs.Chosen.{AreChoices};
ghost use Rattle.eif_heirs.specs.Clauses.{ups_in};
ghost use Rattle.eif_heirs.specs.Heirs.{IsHeir};
ghost use Rattle.eif_heirs.specs.RowsAbove.{AreRowsAbove};
ghost use Rattle.eif_rows.specs.Systems.{IsSystem};
ghost use Rattle.eif_system.specs.Lineage.{line_of};
ghost use Rattle.eif_tree.specs.View.{class_view};
ghost use Rattle.eif_tree.specs.Tree.{ClassT};

use crate::above::proper_ancestors;
use crate::ancestor::ancestor_choices;
use crate::selected::selected_names;
use eif_base::{ClassId, FeatId, Memory};
use eif_heirs::Heir;
use eif_rows::{AncestorRow, Row};
use std::alloc::Global;

/// What becomes of the features of the proper ancestors in a class. `above` has these by rising
/// number, and `candidates` for each feature of each of them the candidates for its version.
#[derive(Drop)]
pub struct Choices {
    pub above: Vec<ClassId>,
    pub candidates: Vec<Vec<FeatId>>,
    pub ancestors: Vec<AncestorRow>,
}

/// What becomes of the features of its proper ancestors in the class.
pub fn choices_of(alloc: Global, rows: &[Option<Row>], heir: &Heir<'_>) -> Result<Choices, Memory>
    ensures { IfOk result (λ r. (u : List ClassT) → IsSystem u → IsHeir u heir.now
        → AreRowsAbove u rows.now heir.now.class_id.0
        → AreChoices u (line_of u heir.now.class_id.0) (ups_in u (class_view heir.now.tree.now)) r) }
{
    let selected = selected_names(alloc, &heir.clauses, &heir.names)?;
    let above = proper_ancestors(alloc, heir)?;
    let mut candidates = Vec::new(alloc);
    let mut ancestors = Vec::with_capacity(alloc, above.len())?;
    'ancestors: for k in &above {
        // each proper ancestor has its row
        let Some(row) = row_at(rows, *k) else {
            return Err(Memory);
        };
        let mut choice = ancestor_choices(alloc, heir, &selected, *k, row)?;
        candidates.append(&mut choice.candidates)?;
        ancestors.push(choice.row)?;
    }
    Ok(Choices {
        above,
        candidates,
        ancestors,
    })
}

fn row_at(rows: &[Option<Row>], k: ClassId) -> Option<&Row>
    ensures { IfSome result (λ r. slice_get rows.now k.0 ≡ Some (Some r.now)) }
{
    match rows.get(k.0 as usize) {
        Some(Some(row)) => Some(row),
        _ => None,
    }
}
