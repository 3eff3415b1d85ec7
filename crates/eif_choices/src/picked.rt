ghost use Rattle.std.specs.Prelude.{◌≡◌, ◌==◌, IfOk};
ghost use Rattle.std.specs.List.{list_all};
ghost use Rattle.eif_choices.specs.Picked.{is_flagged, agreed_feature, picked_feature};

use eif_base::{FeatId, Memory};
use std::alloc::Global;

// The one candidate, or of several the one that is selected.
pub fn picked(
    alloc: Global,
    candidates: &[FeatId],
    selected: &[bool],
) -> Result<Option<FeatId>, Memory>
    ensures { IfOk result (λ f. f ≡ picked_feature selected.now candidates.now) }
{
    if let Some(feat) = agreed(candidates) {
        return Ok(Some(feat));
    }
    let mut chosen = Vec::new(alloc);
    'candidates: for feat in candidates {
        if is_flagged(selected, *feat) {
            chosen.push(*feat)?;
        }
    }
    Ok(agreed(&chosen))
}

// The one feature that all of them are.
fn agreed(features: &[FeatId]) -> Option<FeatId>
    ensures { result ≡ agreed_feature features.now }
{
    let (first, rest) = features.split_first()?;
    if are_all(rest, *first) {
        Some(*first)
    } else {
        None
    }
}

fn are_all(features: &[FeatId], feat: FeatId) -> bool
    ensures { result ≡ list_all (λ one. feat.0 == one.0) features.now }
{
    features.iter().all(|one| feat.0 == one.0)
}

fn is_flagged(flags: &[bool], feat: FeatId) -> bool
    ensures { result ≡ is_flagged flags.now feat }
{
    match flags.get(feat.0 as usize) {
        Some(flag) => *flag,
        None => false,
    }
}
