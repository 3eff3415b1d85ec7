ghost use Rattle.std.specs.Prelude.{◌<◌, ◌^◌, length};
ghost use Rattle.std.proofs.Props.{props};

use crate::ancestor_row::AncestorRow;
use crate::feature::FeatureRow;
use crate::names::find_name;
use eif_base::{ClassId, FeatId, Name};

/// The features of a class: its names in the order of their bytes, what it has under each, the
/// numbers of those that are fields, and for each proper ancestor, by rising number, what becomes of
/// its features.
#[derive(Drop)]
pub struct Row {
    pub names: Vec<Name>,
    pub features: Vec<FeatureRow>,
    pub fields: Vec<FeatId>,
    pub ancestors: Vec<AncestorRow>,
    pub ghost few: { length names.items < 2 ^ 32 } by { Prim.hlevel props },
}

impl Row {
    ghost use Rattle.std.specs.Prelude.{◌≡◌, ℕ, List, map, Option, Some, None, IfSome, IfNone, true, false, slice_get};
    ghost use Rattle.eif_base.specs.Numbering.{is_among};
    ghost use Rattle.eif_classes.specs.Descent.{descends};
    ghost use Rattle.eif_classes.specs.Features.{names};
    ghost use Rattle.eif_rows.specs.AncestorRows.{IsAncestorRow};
    ghost use Rattle.eif_rows.specs.Rows.{IsRow};
    ghost use Rattle.eif_system.specs.Graph.{is_member};
    ghost use Rattle.eif_classes.specs.Descent.{above};
    ghost use Rattle.eif_system.specs.Lineage.{line_of};
    ghost use Rattle.eif_tree.specs.Tree.{ClassT};

    /// The number of the name.
    pub fn find(&self, name: &Name) -> Option<FeatId>
        ensures found { IfSome result (λ f. (u : List ClassT) (d : ℕ) → IsRow u d self.now
            → slice_get (names (line_of u d)) f.0 ≡ Some name.now) }
        ensures none { IfNone result ((u : List ClassT) (d : ℕ) → IsRow u d self.now
            → is_among (names (line_of u d)) name.now ≡ false) }
    {
        match find_name(&self.names, name) {
            Some(i) => Some(FeatId(i as u32)),
            None => None,
        }
    }

    /// What becomes of the features of the proper ancestor with that number.
    pub fn ancestor(&self, k: ClassId) -> Option<&AncestorRow>
        ensures found { IfSome result (λ r. (u : List ClassT) (d : ℕ) → IsRow u d self.now
            → IsAncestorRow u (line_of u d) r.now k.0) }
        ensures none { IfNone result ((u : List ClassT) (d : ℕ) → IsRow u d self.now
            → is_member k.0 (above (line_of u d)) ≡ false) }
    {
        match self
            .ancestors
            .binary_search_by(|row| row.class_id.0.cmp(&k.0))
        {
            Ok(i) => Some(&self.ancestors[i]),
            Err(_) => None,
        }
    }
}

fn crosses<T: Send + Sync>() {}

/// Rows may be sent to another thread, and shared by threads.
pub fn rows_cross() {
    crosses::<Row>();
}
