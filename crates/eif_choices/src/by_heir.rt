ghost use Rattle.std.specs.Prelude.{◌≡◌, IfOk};
ghost use Rattle.eif_choices.specs.Candidacy.{finals_at, AreCandidates, AreReached};

use crate::by_clause::{push_candidate, push_reached};
use eif_base::{ClassId, FeatId, Memory};
use eif_heirs::Heir;
use eif_rows::ordered_features;
use std::alloc::Global;

// The candidates for the feature of the class k.
pub fn candidates_of(
    alloc: Global,
    heir: &Heir<'_>,
    k: ClassId,
    feat: FeatId,
) -> Result<Vec<FeatId>, Memory>
    ensures { IfOk result (λ v. AreCandidates heir.now k.0 feat.0 v.items) }
{
    let mut out = Vec::new(alloc);
    'clauses: for (number, clause) in heir.clauses.iter().enumerate() {
        push_candidate(clause, finals_of(heir, number), k, feat, &mut out)?;
    }
    Ok(out)
}

// All names of the feature of the class k, in rising order.
pub fn reached_of(
    alloc: Global,
    heir: &Heir<'_>,
    k: ClassId,
    feat: FeatId,
) -> Result<Vec<FeatId>, Memory>
    ensures { IfOk result (λ v. AreReached heir.now k.0 feat.0 v.items) }
{
    let mut all = Vec::new(alloc);
    'clauses: for (number, clause) in heir.clauses.iter().enumerate() {
        push_reached(alloc, clause, finals_of(heir, number), k, feat, &mut all)?;
    }
    Ok(ordered_features(all))
}

// The final names by the clause with that number.
fn finals_of<'h>(heir: &'h Heir<'_>, number: usize) -> &'h [FeatId]
    ensures { result.now ≡ finals_at heir.now number }
{
    match heir.finals.get(number) {
        Some(finals) => finals,
        None => &[],
    }
}
