ghost use Rattle.std.specs.Prelude.{◌≡◌, ◌++◌, IfOk, OnOk, slice_get};
ghost use Rattle.std.specs.Option.{option_to_list};
ghost use Rattle.eif_choices.specs.Candidacy.{Adds, candidate_by, finals_of, reached_by, IsBoundIn, AreReachedIn};

use eif_base::{ClassId, FeatId, Memory};
use eif_heirs::Clause;
use std::alloc::Global;

// Adds the candidate by the clause, if there is one, for the feature of the class k.
pub fn push_candidate(
    clause: &Clause<'_>,
    finals: &[FeatId],
    k: ClassId,
    feat: FeatId,
    out: &mut Vec<FeatId>,
) -> Result<(), Memory>
    ensures { OnOk result
        (Adds (candidate_by k.0) clause.now finals.now k.0 feat.0 out.old.items out.new.items) }
{
    match bound_in(clause, k, feat) {
        Some(name) => {
            push_final(finals, name, out)?;
            Ok(())
        }
        None => Ok(()),
    }
}

// Adds the names by the clause for the feature of the class k.
pub fn push_reached(
    alloc: Global,
    clause: &Clause<'_>,
    finals: &[FeatId],
    k: ClassId,
    feat: FeatId,
    out: &mut Vec<FeatId>,
) -> Result<(), Memory>
    ensures { OnOk result
        (Adds (reached_by k.0) clause.now finals.now k.0 feat.0 out.old.items out.new.items) }
{
    let names = reached_in(alloc, clause, k, feat)?;
    push_finals(finals, &names, out)?;
    Ok(())
}

// Adds the final names of features of the clause's class.
fn push_finals(finals: &[FeatId], features: &[FeatId], out: &mut Vec<FeatId>) -> Result<(), Memory>
    ensures { OnOk result (out.new.items ≡ out.old.items ++ finals_of finals.now features.now) }
{
    'features: for feat in features {
        push_final(finals, *feat, out)?;
    }
    Ok(())
}

// Adds the final name of a feature of the clause's class.
fn push_final(finals: &[FeatId], feat: FeatId, out: &mut Vec<FeatId>) -> Result<(), Memory>
    ensures { OnOk result
        (out.new.items ≡ out.old.items ++ option_to_list (slice_get finals.now feat.0)) }
{
    if let Some(name) = final_of(finals, feat) {
        out.push(name)?;
    }
    Ok(())
}

fn final_of(finals: &[FeatId], feat: FeatId) -> Option<FeatId>
    ensures { result ≡ slice_get finals.now feat.0 }
{
    finals.get(feat.0 as usize).copied()
}

// The name that dynamic binding uses in the clause's class for the feature of the class k.
fn bound_in(clause: &Clause<'_>, k: ClassId, feat: FeatId) -> Option<FeatId>
    ensures { IsBoundIn clause.now k.0 feat.0 result }
{
    if clause.parent.0 == k.0 {
        return Some(feat);
    }
    match clause.row.ancestor(k) {
        Some(ancestor) => ancestor.bound(feat),
        None => None,
    }
}

// All names that the feature of the class k has in the clause's class.
fn reached_in(
    alloc: Global,
    clause: &Clause<'_>,
    k: ClassId,
    feat: FeatId,
) -> Result<Vec<FeatId>, Memory>
    ensures { IfOk result (λ v. AreReachedIn clause.now k.0 feat.0 v.items) }
{
    let mut out = Vec::new(alloc);
    if clause.parent.0 == k.0 {
        out.push(feat)?;
    } else if let Some(ancestor) = clause.row.ancestor(k) {
        ancestor.push_reached(feat, &mut out)?;
    }
    Ok(out)
}
