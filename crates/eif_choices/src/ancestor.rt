ghost use Rattle.std.specs.Prelude.{◌≡◌, ◌≢◌, ℕ, ◌<◌, ◌^◌, ◌==◌, ◌↔◌, List, length, Some, None, Vec, slice_get, map, IfOk, OnOk, IsTrue};
ghost use Rattle.std.specs.Global.{Global};
ghost use Rattle.std.specs.Option.{option_to_list};
ghost use Rattle.indexmap.specs.IndexMap.{get_by};
ghost use Rattle.eif_choices.specs.Ancestors.{IsAncestorChoice};
ghost use Rattle.eif_choices.specs.Candidacy.{AreCandidates, AreReached};
ghost use Rattle.eif_choices.specs.Picked.{picked_feature, selection};
ghost use Rattle.eif_heirs.specs.Heirs.{IsHeir};
ghost use Rattle.eif_rows.specs.AncestorRows.{reached_at};
ghost use Rattle.eif_rows.specs.Rows.{IsRow};
ghost use Rattle.eif_rows.specs.Systems.{IsSystem};
ghost use Rattle.eif_tree.specs.Tree.{ClassT};

use crate::by_heir::{candidates_of, reached_of};
use crate::picked::picked;
use eif_base::{ClassId, FeatId, Memory};
use eif_heirs::Heir;
use eif_rows::{AncestorRow, Row};
use indexmap::IndexMap;
use std::alloc::Global;

// What becomes of the features of one ancestor: for each the candidates, and the row.
#[derive(Drop)]
pub struct AncestorChoices {
    pub candidates: Vec<Vec<FeatId>>,
    pub row: AncestorRow,
}

// What becomes of the features of the proper ancestor k, whose row is given.
pub fn ancestor_choices(
    alloc: Global,
    heir: &Heir<'_>,
    selected: &[bool],
    k: ClassId,
    row: &Row,
) -> Result<AncestorChoices, Memory>
    requires { selected.now ≡ selection heir.now.clauses.items heir.now.names.items }
    ensures { IfOk result (λ r. (u : List ClassT) → IsSystem u → IsHeir u heir.now
        → IsRow u k.0 row.now → heir.now.class_id.0 ≢ k.0 → IsAncestorChoice u heir.now k.0 r) }
{
    let candidates = all_candidates(alloc, heir, k, row.names.len())?;
    let bound = all_picked(alloc, &candidates, selected)?;
    let row = ancestor_row(alloc, heir, k, bound)?;
    Ok(AncestorChoices { candidates, row })
}

// The candidates for each of so many features of the class k.
fn all_candidates(
    alloc: Global,
    heir: &Heir<'_>,
    k: ClassId,
    count: usize,
) -> Result<Vec<Vec<FeatId>>, Memory>
    requires { count < 2 ^ 32 }
    ensures count { IfOk result (λ v. length v.items ≡ count) }
    ensures each { IfOk result (λ v. (i : ℕ) (fs : Vec FeatId Global)
        → slice_get v.items i ≡ Some fs → AreCandidates heir.now k.0 i fs.items) }
{
    let mut out = Vec::new(alloc);
    'features: for i in 0..count {
        out.push(candidates_of(alloc, heir, k, FeatId(i as u32))?)?;
    }
    Ok(out)
}

// The pick among the candidates for each feature.
fn all_picked(
    alloc: Global,
    candidates: &[Vec<FeatId>],
    selected: &[bool],
) -> Result<Vec<Option<FeatId>>, Memory>
    ensures { IfOk result (λ v. v.items
        ≡ map (λ fs. picked_feature selected.now fs.items) candidates.now) }
{
    let mut out = Vec::with_capacity(alloc, candidates.len())?;
    'features: for each in candidates {
        out.push(picked(alloc, each, selected)?)?;
    }
    Ok(out)
}

// The row of the ancestor k, whose features are bound so.
fn ancestor_row(
    alloc: Global,
    heir: &Heir<'_>,
    k: ClassId,
    bound: Vec<Option<FeatId>>,
) -> Result<AncestorRow, Memory>
    requires { length bound.items < 2 ^ 32 }
    ensures class { IfOk result (λ r. r.class_id ≡ k) }
    ensures bound { IfOk result (λ r. r.bound.items ≡ bound.items) }
    ensures reached { IfOk result (λ r. (i : ℕ) → i < length bound.items
        → AreReached heir.now k.0 i (reached_at r i)) }
{
    let mut row = AncestorRow {
        class_id: k,
        bound,
        several: IndexMap::new(alloc),
    };
    'features: for i in 0..row.bound.len() {
        let feat = FeatId(i as u32);
        let reached = reached_of(alloc, heir, k, feat)?;
        keep_reached(&mut row, feat, reached)?;
    }
    Ok(row)
}

// Keeps all names of the feature, unless they are just the one that it is bound to. So a single name
// is kept where it is bound to none: a parent selects neither of two names, and a clause makes them one.
fn keep_reached(row: &mut AncestorRow, feat: FeatId, reached: Vec<FeatId>) -> Result<(), Memory>
    requires { get_by (λ k. feat.0 == k) row.old.several ≡ None }
    ensures class { OnOk result (row.new.class_id ≡ row.old.class_id) }
    ensures bound { OnOk result (row.new.bound.items ≡ row.old.bound.items) }
    ensures here { OnOk result (reached_at row.new feat.0 ≡ reached.items) }
    ensures others { OnOk result ((i : ℕ) → i ≢ feat.0
        → get_by (λ k. i == k) row.new.several ≡ get_by (λ k. i == k) row.old.several) }
{
    if is_just(&reached, row.bound(feat)) {
        return Ok(());
    }
    row.several.insert(feat.0, reached)?;
    Ok(())
}

// Whether the features are just that one, or none where there is none.
fn is_just(features: &[FeatId], name: Option<FeatId>) -> bool
    ensures { IsTrue result ↔ features.now ≡ option_to_list name }
{
    match name {
        Some(name) => features.len() == 1 && features[0].0 == name.0,
        None => features.is_empty(),
    }
}
