//! Names in the order of their bytes, and numbers in rising order, each once.

ghost use Rattle.std.specs.Prelude.{◌≡◌, ℕ, ◌<◌, ◌^◌, List, length, map, IfOk, IfSome, IfNone, Some, false, slice_get};
ghost use Rattle.std.specs.Ordering.{nat_cmp};
ghost use Rattle.eif_base.specs.Numbering.{is_among};
ghost use Rattle.eif_classes.specs.Names.{name_set};
ghost use Rattle.eif_classes.specs.RisingLists.{in_order};
ghost use Rattle.eif_rows.specs.Numbers.{class_numbers, feature_numbers};

use eif_base::{ClassId, FeatId, Memory, Name};
use std::alloc::Global;

/// The number of the name among names in the order of their bytes.
pub fn find_name(names: &[Name], name: &Name) -> Option<usize>
    ensures found { IfSome result (λ i. slice_get names.now i ≡ Some name.now) }
    ensures none { IfNone result ((ns : List (List ℕ)) → names.now ≡ name_set ns
        → is_among names.now name.now ≡ false) }
{
    match names.binary_search_by(|one| one.text().cmp(name.text())) {
        Ok(i) => Some(i),
        Err(_) => None,
    }
}

/// The names in the order of their bytes, each once. Names are numbered in 32 bits: more names than
/// that count as want of memory.
pub fn ordered_names(alloc: Global, names: Vec<&Name>) -> Result<Vec<Name>, Memory>
    ensures names { IfOk result (λ ns. ns.items ≡ name_set (map (λ n. n.now) names.entry.items)) }
    ensures few { IfOk result (λ ns. length ns.items < 2 ^ 32) }
{
    let mut sorted = names;
    sorted.sort_unstable_by(|one, two| one.text().cmp(two.text()));
    sorted.dedup_by(|one, two| one.text() == two.text());
    if sorted.len() > u32::MAX as usize {
        return Err(Memory);
    }
    copies(alloc, &sorted)
}

// The same names once more.
fn copies(alloc: Global, names: &[&Name]) -> Result<Vec<Name>, Memory>
    ensures { IfOk result (λ ns. ns.items ≡ map (λ n. n.now) names.now) }
{
    let mut out = Vec::with_capacity(alloc, names.len())?;
    'names: for name in names {
        out.push(name.copy(alloc)?)?;
    }
    Ok(out)
}

/// The features by rising number, each once.
pub fn ordered_features(features: Vec<FeatId>) -> Vec<FeatId>
    ensures { feature_numbers result.items ≡ in_order nat_cmp (feature_numbers features.items) }
{
    let mut sorted = features;
    sorted.sort_unstable_by(|one, two| one.0.cmp(&two.0));
    sorted.dedup_by(|one, two| one.0 == two.0);
    sorted
}

/// The classes by rising number, each once.
pub fn ordered_classes(classes: Vec<ClassId>) -> Vec<ClassId>
    ensures { class_numbers result.items ≡ in_order nat_cmp (class_numbers classes.items) }
{
    let mut sorted = classes;
    sorted.sort_unstable_by(|one, two| one.0.cmp(&two.0));
    sorted.dedup_by(|one, two| one.0 == two.0);
    sorted
}
