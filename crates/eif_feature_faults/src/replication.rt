//! The rule of replication: a body that stands under several names uses no feature that has
//! several.

ghost use Rattle.std.specs.Prelude.{◌≡◌, ◌++◌, ℕ, false, List, map, flat_map, Some, slice_get, IfSome, IfOk, OnOk};
ghost use Rattle.std.specs.List.{filter};
ghost use Rattle.std.specs.Option.{option_map_or};
ghost use Rattle.eif_classes.specs.Binding.{reach};
ghost use Rattle.eif_classes.specs.Descent.{above};
ghost use Rattle.eif_classes.specs.Features.{features, names};
ghost use Rattle.eif_classes.specs.Names as names_rules;
ghost use Rattle.eif_feature_faults.specs.Candidates.{AreNamed};
ghost use Rattle.eif_feature_faults.specs.DeclaredViews.{declared_view};
ghost use Rattle.eif_feature_faults.specs.Replicated.{IsHeirOf, keeps};
ghost use Rattle.eif_feature_rules.specs.NamesUsed.{names_used};
ghost use Rattle.eif_feature_rules.specs.ReplicationRules as rules;
ghost use Rattle.eif_feature_rules.specs.RuleForms.{declared_here};
ghost use Rattle.eif_heirs.specs.Drafts.{IsDraft};
ghost use Rattle.eif_heirs.specs.Heirs.{IsHeir};
ghost use Rattle.eif_heirs.specs.RowsAbove.{AreRowsAbove};
ghost use Rattle.eif_rows.specs.AncestorRows.{IsAncestorRow};
ghost use Rattle.eif_rows.specs.Matched.{Match};
ghost use Rattle.eif_rows.specs.Systems.{IsSystem};
ghost use Rattle.eif_system.specs.Lineage.{line_of};
ghost use Rattle.eif_tree.specs.Tree.{ClassT};
ghost use Rattle.eif_tree.specs.View.{class_view, decl_view};
ghost use Rattle.eif_universe.specs.Universes.{classes_of};

use crate::candidates::{are_one, are_several, names_at};
use eif_base::{ClassId, Code, FaultList, FeatId, Memory, Name};
use eif_heirs::{DeclaredName, FeatureDraft, Heir, declared_names};
use eif_rows::{AncestorRow, DeclarationId, Row};
use eif_tree::{ClassTree, FeatureDecl};
use eif_universe::Universe;
use eif_used_names::used_names;
use eif_written::{LentFault, push_where};
use std::alloc::Global;

/// A class beside one of its proper ancestors: the row of the ancestor, what becomes of its
/// features in the class, and the names of the class with what it has under each.
#[derive(Clone, Copy)]
struct HeirOf<'h> {
    row: &'h Row,
    becomes: &'h AncestorRow,
    tree: &'h ClassTree,
    names: &'h [Name],
    drafts: &'h [FeatureDraft],
}

/// Whether the features have several names among these.
fn are_under_several(alloc: Global, names: &[Name], features: &[FeatId]) -> Result<bool, Memory>
    ensures { IfOk result (λ b. (ns : List (List ℕ)) → AreNamed names.now features.now ns
        → b ≡ names_rules.are_several ns) }
{
    if are_one(features) {
        return Ok(false);
    }
    Ok(are_several(&names_at(alloc, names, features)?))
}

/// Whether the version of the draft comes from that declaration.
fn is_version(draft: &FeatureDraft, id: DeclarationId) -> bool
    ensures { result ≡ keeps draft.now id }
{
    match draft.version {
        Some(version) => version.declaration() == Some(id),
        None => false,
    }
}

/// Whether the version of the feature comes from that declaration.
fn is_kept(drafts: &[FeatureDraft], feat: FeatId, id: DeclarationId) -> bool
    ensures { result ≡ option_map_or (λ x. keeps x id) (slice_get drafts.now feat.0) false }
{
    match drafts.get(feat.0 as usize) {
        Some(draft) => is_version(draft, id),
        None => false,
    }
}

/// Those of the features whose versions come from that declaration.
fn kept_among(
    alloc: Global,
    drafts: &[FeatureDraft],
    features: &[FeatId],
    id: DeclarationId,
) -> Result<Vec<FeatId>, Memory>
    ensures { IfOk result (λ v. v.items ≡ filter
        (λ f. option_map_or (λ x. keeps x id) (slice_get drafts.now f.0) false) features.now) }
{
    let mut out = Vec::new(alloc);
    'features: for feat in features {
        if is_kept(drafts, *feat, id) {
            out.push(*feat)?;
        }
    }
    Ok(out)
}

impl<'h> HeirOf<'h> {
    /// The names that the ancestor's feature of that name has in the class.
    fn reached(&self, alloc: Global, name: &Name) -> Result<Vec<FeatId>, Memory>
        ensures { IfOk result (λ v. (u : List ClassT) (d k : ℕ) → IsSystem u
            → IsHeirOf u d k self.now
            → AreNamed (names (line_of u d)) v.items (reach (line_of u d) k name.now)) }
    {
        let mut out = Vec::new(alloc);
        if let Some(feat) = self.row.find(name) {
            self.becomes.push_reached(feat, &mut out)?;
        }
        Ok(out)
    }

    /// Whether the ancestor's feature of that name has several names in the class.
    fn is_split(&self, alloc: Global, name: &Name) -> Result<bool, Memory>
        ensures { IfOk result (λ b. (u : List ClassT) (d k : ℕ) → IsSystem u
            → IsHeirOf u d k self.now
            → b ≡ names_rules.are_several (reach (line_of u d) k name.now)) }
    {
        let reached = self.reached(alloc, name)?;
        are_under_several(alloc, self.names, &reached)
    }

    /// The names of the class whose versions are what the ancestor declares under that name.
    fn kept(&self, alloc: Global, name: &Name) -> Result<Vec<FeatId>, Memory>
        ensures { IfOk result (λ v. (u : List ClassT) (d k : ℕ) → IsSystem u
            → IsHeirOf u d k self.now
            → AreNamed (names (line_of u d)) v.items (rules.kept_names (line_of u d) k name.now)) }
    {
        let reached = self.reached(alloc, name)?;
        let class_id = self.becomes.class_id;
        match self.row.find(name) {
            Some(feat) => {
                kept_among(
                    alloc,
                    self.drafts,
                    &reached,
                    DeclarationId { class_id, feat },
                )
            }
            None => Ok(reached),
        }
    }

    /// Whether what the ancestor declares under that name stands under several names of the class.
    fn is_replicated(&self, alloc: Global, name: &Name) -> Result<bool, Memory>
        ensures { IfOk result (λ b. (u : List ClassT) (d k : ℕ) → IsSystem u
            → IsHeirOf u d k self.now
            → b ≡ names_rules.are_several (rules.kept_names (line_of u d) k name.now)) }
    {
        let kept = self.kept(alloc, name)?;
        are_under_several(alloc, self.names, &kept)
    }

    /// Adds the fault of the name, if it is that of an ancestor's feature that has several names.
    fn push_split_use(&self, alloc: Global, name: &Name, out: &mut FaultList) -> Result<(), Memory>
        ensures { OnOk result ((u : List ClassT) (d k : ℕ) → IsSystem u → IsHeirOf u d k self.now
            → out.new ≡ out.old
            ++ rules.split_use (class_view self.now.tree.now) (line_of u d) k name.now) }
    {
        let is_broken = self.is_split(alloc, name)?;
        let fault = LentFault::at(self.tree, Code::Xrep, 1, self.tree.place, name);
        push_where(alloc, out, is_broken, &fault)
    }

    /// Adds the faults of the names that the declaration uses.
    fn push_split_uses(
        &self,
        alloc: Global,
        decl: &FeatureDecl,
        out: &mut FaultList,
    ) -> Result<(), Memory>
        ensures { OnOk result ((u : List ClassT) (d k : ℕ) → IsSystem u → IsHeirOf u d k self.now
            → out.new ≡ out.old
            ++ flat_map (rules.split_use (class_view self.now.tree.now) (line_of u d) k)
            (names_used (decl_view decl.now))) }
    {
        let used = used_names(alloc, decl)?;
        'used: for name in &used {
            self.push_split_use(alloc, name, out)?;
        }
        Ok(())
    }

    /// Adds the faults of a name that the ancestor declares.
    fn push_replicated(
        &self,
        alloc: Global,
        declared: &DeclaredName<'_>,
        out: &mut FaultList,
    ) -> Result<(), Memory>
        ensures { OnOk result ((u : List ClassT) (d k : ℕ) → IsSystem u → IsHeirOf u d k self.now
            → out.new ≡ out.old
            ++ rules.replicated_body (class_view self.now.tree.now) (line_of u d) k
            (declared_view declared.now)) }
    {
        if self.is_replicated(alloc, &declared.name.name)? {
            self.push_split_uses(alloc, declared.tree, out)?;
        }
        Ok(())
    }

    /// Adds the faults of what the ancestor, whose text is this, declares.
    fn push_bodies(
        &self,
        alloc: Global,
        ancestor: &ClassTree,
        out: &mut FaultList,
    ) -> Result<(), Memory>
        ensures { OnOk result ((u : List ClassT) (d k : ℕ) → IsSystem u → IsHeirOf u d k self.now
            → out.new ≡ out.old
            ++ flat_map (rules.replicated_body (class_view self.now.tree.now) (line_of u d) k)
            (declared_here (class_view ancestor.now))) }
    {
        let declared = declared_names(alloc, ancestor)?;
        'declared: for x in &declared {
            self.push_replicated(alloc, x, out)?;
        }
        Ok(())
    }
}

/// The row of the class, if it has one.
fn row_of(rows: &[Option<Row>], class_id: ClassId) -> Option<&Row>
    ensures { IfSome result (λ r. slice_get rows.now class_id.0 ≡ Some (Some r.now)) }
{
    match rows.get(class_id.0 as usize) {
        Some(Some(row)) => Some(row),
        _ => None,
    }
}

/// Adds the faults of the bodies of the class's proper ancestors. `drafts` has what the class has
/// under each of its names, and `ancestors` what becomes in it of the features of each ancestor.
pub fn push_replication_faults(
    alloc: Global,
    u: &Universe,
    rows: &[Option<Row>],
    heir: &Heir<'_>,
    drafts: &[FeatureDraft],
    ancestors: &[AncestorRow],
    out: &mut FaultList,
) -> Result<(), Memory>
    requires system { IsSystem (classes_of u.now) }
    requires rows { AreRowsAbove (classes_of u.now) rows.now heir.now.class_id.0 }
    requires heir { IsHeir (classes_of u.now) heir.now }
    requires drafts { let u = classes_of u.now in let d = heir.now.class_id.0 in
        Match (IsDraft u d (class_view heir.now.tree.now)) drafts.now (features (line_of u d)) }
    requires ancestors { let u = classes_of u.now in let l = line_of u heir.now.class_id.0 in
        Match (IsAncestorRow u l) ancestors.now (above l) }
    ensures { let u = classes_of u.now in let l = line_of u heir.now.class_id.0 in OnOk result
        (out.new ≡ out.old
        ++ rules.replication_faults u (class_view heir.now.tree.now) l (above l)) }
{
    'ancestors: for becomes in ancestors {
        // each proper ancestor has its row
        let Some(row) = row_of(rows, becomes.class_id) else {
            return Err(Memory);
        };
        let beside = HeirOf {
            row,
            becomes,
            tree: heir.tree,
            names: &heir.names,
            drafts,
        };
        beside.push_bodies(alloc, u.tree(becomes.class_id), out)?;
    }
    Ok(())
}
