//! The features of a system's classes, with their signatures as classes see them.

ghost use Rattle.std.specs.Prelude.{◌≡◌, ◌<◌, ℕ, List, length, slice_get, Some, IfOk};
ghost use Rattle.eif_binding_laws.specs.Signatures as laws;
ghost use Rattle.eif_classes.specs.Entries as entries;
ghost use Rattle.eif_classes.specs.Features as features;
ghost use Rattle.eif_classes.specs.Signatures as the;
ghost use Rattle.eif_rows.specs.Numbers.{name_of};
ghost use Rattle.eif_rows.specs.Versions.{IsDeclaration};
ghost use Rattle.eif_signatures.specs.DerivedSystems.{IsDerivedSystem, classes_in, declaration_id};
ghost use Rattle.eif_signatures.specs.SignatureViews.{signature_view};
ghost use Rattle.eif_system.specs.Lineage.{line_of};
ghost use Rattle.eif_tables.specs.TablesOf.{HasFeature};
ghost use Rattle.eif_tree.specs.View.{kind_view};

use crate::signature::{Signature, declared_signature, with_actuals};
use eif_base::{ClassId, FeatId, Memory};
use eif_tables::{Origin, Tables};
use eif_tree::FeatureKind;
use eif_types::Types;
use eif_universe::Universe;
use std::alloc::Global;

/// The classes of a system that breaks no rule up to those of derivations, with what is kept of their
/// features and types. Numbers of classes are those of the universe, and the number of a feature is
/// that of its name in the tables.
#[derive(Clone, Copy)]
pub struct System<'u> {
    pub alloc: Global,
    pub universe: &'u Universe,
    pub tables: &'u Tables,
    pub types: &'u Types,
}

/// Whether the declaration is of an attribute. A constant is a routine.
pub fn is_attribute(kind: &FeatureKind) -> bool
    ensures { result ≡ features.is_attribute (kind_view kind.now) }
{
    match kind {
        FeatureKind::Attribute => true,
        FeatureKind::Constant(_) | FeatureKind::DeferredBody | FeatureKind::Routine { .. } => false,
    }
}

impl System<'_> {
    /// What the declaration of the feature in the class writes as its signature, with the actuals that
    /// the class `heir` gives put in.
    pub fn signature_above(
        &self,
        heir: ClassId,
        class: ClassId,
        feat: FeatId,
    ) -> Result<Signature, Memory>
        requires system { IsDerivedSystem self.now }
        requires heir { heir.0 < length (classes_in self.now) }
        requires feature { HasFeature self.now.tables.now class feat }
        ensures { let u = classes_in self.now in (y : entries.Declaration)
            → IsDeclaration u (declaration_id class feat) y
            → (above : laws.IsDeclaredAbove u heir.0 y)
            → IfOk result (λ s. signature_view s ≡ laws.signature_above u heir.0 y above) }
    {
        // both are there: the declaration is of the class or of an ancestor
        let Some(decl) = self.tables.declaration(self.universe, class, feat) else {
            return Err(Memory);
        };
        let Some(actuals) = self.types.ancestor(heir, class) else {
            return Err(Memory);
        };
        let tree = self.universe.tree(class);
        let written = declared_signature(self.alloc, self.universe, tree, decl)?;
        with_actuals(self.alloc, &written, actuals)
    }

    /// The signature of the feature, over the formals of the class.
    pub fn signature(&self, class: ClassId, feat: FeatId) -> Result<Signature, Memory>
        requires system { IsDerivedSystem self.now }
        requires feature { HasFeature self.now.tables.now class feat }
        ensures { let l = line_of (classes_in self.now) class.0 in (n : List ℕ)
            → name_of (features.names l) feat ≡ Some n
            → IfOk result (λ s. the.signature (classes_in self.now) l n ≡ Some (signature_view s)) }
    {
        let (source, name) = self.tables.signature_source(class, feat);
        self.signature_above(class, source, name)
    }

    /// Whether the feature has a version in the class.
    pub fn is_effective(&self, class: ClassId, feat: FeatId) -> bool
        requires system { IsDerivedSystem self.now }
        requires feature { HasFeature self.now.tables.now class feat }
        ensures { (x : entries.Feature)
            → slice_get (features.features (line_of (classes_in self.now) class.0)) feat.0 ≡ Some x
            → result ≡ entries.is_effective x.origin }
    {
        match self.tables.origin(class, feat) {
            Origin::Deferred => false,
            Origin::Declared { .. } => true,
        }
    }

    /// Whether the feature is a field: its version is an attribute.
    pub fn is_field(&self, class: ClassId, feat: FeatId) -> bool
        requires system { IsDerivedSystem self.now }
        requires feature { HasFeature self.now.tables.now class feat }
        ensures { (x : entries.Feature)
            → slice_get (features.features (line_of (classes_in self.now) class.0)) feat.0 ≡ Some x
            → result ≡ features.is_field x.origin }
    {
        match self.tables.origin(class, feat) {
            Origin::Deferred => false,
            Origin::Declared { class_id, feat } => {
                match self.tables.declaration(self.universe, class_id, feat) {
                    Some(decl) => is_attribute(&decl.kind),
                    None => false,
                }
            }
        }
    }
}
