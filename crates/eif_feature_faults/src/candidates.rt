//! Candidates for the version of an ancestor's feature, and their names.

ghost use Rattle.std.specs.Prelude.{◌≡◌, ℕ, List, Bool, map, IfOk};
ghost use Rattle.std.specs.List.{filter};
ghost use Rattle.std.specs.Option.{option_map};
ghost use Rattle.eif_base.specs.Numbering.{is_among};
ghost use Rattle.eif_classes.specs.Names as names_rules;
ghost use Rattle.eif_feature_faults.specs.Candidates as the;
ghost use Rattle.eif_rows.specs.Numbers.{name_of};

use eif_base::{FeatId, Memory, Name, NameSet};
use std::alloc::Global;

/// Whether all of them are one.
pub(crate) fn are_one(features: &[FeatId]) -> bool
    ensures { result ≡ the.are_one features.now }
{
    let Some((first, rest)) = features.split_first() else {
        return true;
    };
    'rest: for feat in rest {
        if first.0 != feat.0 {
            return false;
        }
    }
    true
}

// The name with that number.
fn name_at(names: &[Name], feat: FeatId) -> Option<&Name>
    ensures { option_map (λ n. n.now) result ≡ name_of names.now feat }
{
    names.get(feat.0 as usize)
}

/// The names of the features.
pub(crate) fn names_at<'n>(
    alloc: Global,
    names: &'n [Name],
    features: &[FeatId],
) -> Result<Vec<&'n Name>, Memory>
    ensures { IfOk result (λ v. (ns : List (List ℕ)) → the.AreNamed names.now features.now ns
        → map (λ n. n.now) v.items ≡ ns) }
{
    let mut out = Vec::with_capacity(alloc, features.len())?;
    'features: for feat in features {
        match name_at(names, *feat) {
            Some(name) => out.push(name)?,
            None => return Err(Memory),
        }
    }
    Ok(out)
}

/// Whether two of the names differ.
pub(crate) fn are_several(names: &[&Name]) -> bool
    ensures { result ≡ names_rules.are_several (map (λ n. n.now) names.now) }
{
    let Some((first, rest)) = names.split_first() else {
        return false;
    };
    'rest: for name in rest {
        if *first != *name {
            return true;
        }
    }
    false
}

/// Those of the names that are in the set.
pub(crate) fn names_among<'n>(
    alloc: Global,
    names: &[&'n Name],
    set: &NameSet,
) -> Result<Vec<&'n Name>, Memory>
    ensures { IfOk result (λ v. map (λ n. n.now) v.items
        ≡ filter (is_among set.now) (map (λ n. n.now) names.now)) }
{
    let mut out = Vec::new(alloc);
    'names: for name in names {
        if set.has(name) {
            out.push(*name)?;
        }
    }
    Ok(out)
}
