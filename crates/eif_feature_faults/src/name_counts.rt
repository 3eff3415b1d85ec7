//! How many names classes have.

ghost use Rattle.std.specs.Prelude.{◌≡◌, ℕ, ◌<◌, ◌^◌, List, map, nat_lt, Some, slice_get, sum};
ghost use Rattle.eif_base.specs.declared.limits.TheConstants.{MOST_ANCESTOR_NAMES};
ghost use Rattle.eif_classes.specs.Descent as descent;
ghost use Rattle.eif_feature_rules.specs.FeatureRules.{count_names};
ghost use Rattle.eif_heirs.specs.RowsAbove.{AreRowsAbove};
ghost use Rattle.eif_rows.specs.Numbers.{class_numbers};
ghost use Rattle.eif_rows.specs.Rows.{IsRow};
ghost use Rattle.eif_rows.specs.declared.row.Row as rows_of;
ghost use Rattle.eif_system.specs.Lineage.{line_of};
ghost use Rattle.eif_tree.specs.Tree.{ClassT};

use eif_base::ClassId;
use eif_base::limits::MOST_ANCESTOR_NAMES;
use eif_rows::Row;

/// Whether the proper ancestors of a class have more names in all than they may have.
pub(crate) fn has_many_names(rows: &[Option<Row>], above: &[ClassId]) -> bool
    ensures { (u : List ClassT) (d : ℕ) → AreRowsAbove u rows.now d
        → class_numbers above.now ≡ descent.above (line_of u d)
        → result ≡ nat_lt MOST_ANCESTOR_NAMES
        (sum (map (count_names u) (class_numbers above.now))) }
{
    let mut total = 0;
    'ancestors: for ancestor in above {
        total += name_count(rows, *ancestor);
        if total > MOST_ANCESTOR_NAMES as usize {
            return true;
        }
    }
    false
}

/// How many names the class has.
fn name_count(rows: &[Option<Row>], class_id: ClassId) -> usize
    ensures few { result < 2 ^ 32 }
    ensures count { (u : List ClassT) (r : rows_of.Row)
        → slice_get rows.now class_id.0 ≡ Some (Some r) → IsRow u class_id.0 r
        → result ≡ count_names u class_id.0 }
{
    match rows.get(class_id.0 as usize) {
        Some(Some(row)) => row.names.len(),
        _ => 0,
    }
}
