//! What a class gives the formals of its ancestors.

ghost use Rattle.std.specs.Prelude.{◌≡◌, true, false, ℕ, List, IfSome, IfNone};
ghost use Rattle.eif_classes.specs.Descent.{above};
ghost use Rattle.eif_classes.specs.Types.{Actuals};
ghost use Rattle.eif_derivations.specs.DerivationRows.{IsDerivation, IsDerivationRow};
ghost use Rattle.eif_system.specs.Graph.{is_member};
ghost use Rattle.eif_system.specs.Lineage.{line_of};
ghost use Rattle.eif_tree.specs.Tree.{ClassT};

use crate::lists::ListId;
use eif_base::ClassId;

/// What a class gives the formals of a proper ancestor: the number of the list of actuals, over the
/// formals of the class. There is none where its parents give different lists, or one too large.
#[derive(Clone, Copy)]
pub struct Derivation {
    pub class_id: ClassId,
    pub actuals: Option<ListId>,
}

/// What a class gives its ancestors, by rising number, and its own formals.
#[derive(Drop)]
pub struct DerivationRow {
    pub own: ListId,
    pub ancestors: Vec<Derivation>,
}

impl DerivationRow {
    /// What the class gives the proper ancestor with that number.
    pub fn find(&self, k: ClassId) -> Option<Derivation>
        ensures found { IfSome result (λ x. (u : List ClassT) (lists : List Actuals) (d : ℕ)
            → IsDerivationRow u lists d self.now → IsDerivation u lists d x k.0) }
        ensures above { IfSome result (λ x. (u : List ClassT) (lists : List Actuals) (d : ℕ)
            → IsDerivationRow u lists d self.now → is_member k.0 (above (line_of u d)) ≡ true) }
        ensures none { IfNone result ((u : List ClassT) (lists : List Actuals) (d : ℕ)
            → IsDerivationRow u lists d self.now → is_member k.0 (above (line_of u d)) ≡ false) }
    {
        match self.ancestors.binary_search_by(|x| x.class_id.0.cmp(&k.0)) {
            Ok(i) => Some(self.ancestors[i]),
            Err(_) => None,
        }
    }
}
