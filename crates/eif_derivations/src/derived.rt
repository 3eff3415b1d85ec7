//! What the ways to an ancestor give it together.

ghost use Rattle.std.specs.Prelude.{◌≡◌, ℕ, List, Some, None, true, not, IfOk};
ghost use Rattle.std.specs.List.{find};
ghost use Rattle.std.specs.Option.{option_map};
ghost use Rattle.eif_classes.specs.Ancestry as the;
ghost use Rattle.eif_derivations.specs.WayViews.{way_view, ways_view, derived_actuals, derived_faults};
ghost use Rattle.eif_feature_rules.specs.DerivationRules as rules;
ghost use Rattle.eif_system.specs.WrittenTypes.{type_place};
ghost use Rattle.eif_tree.specs.Tree.{ClassT};
ghost use Rattle.eif_type_forms.specs.View.{actuals_view};

use crate::ways::WayTo;
use eif_base::limits::MOST_TYPE_NAMES;
use eif_base::{Memory, Place};
use eif_type_forms::{Ty, count_puts, put_types, same_puts};
use std::alloc::Global;

/// What the ways give together. The places are those of the parent types of the first clauses that
/// give too large a list, or another one than the first.
#[derive(Drop)]
pub enum Derived {
    Given(Vec<Ty>),
    Undefined,
    TooLarge(Place),
    Differing(Place),
}

/// Whether the class of the clause of each way gives the ancestor a list.
fn are_defined(ways: &[WayTo<'_>]) -> bool
    ensures { result ≡ rules.are_defined (ways_view ways.now) }
{
    'ways: for way in ways {
        if way.given.is_none() {
            return false;
        }
    }
    true
}

/// Whether the way gives a list with which the class type has too many names.
fn is_large(way: &WayTo<'_>) -> bool
    ensures { result ≡ rules.is_large (way_view way.now) }
{
    match way.given {
        Some(given) => MOST_TYPE_NAMES <= count_puts(given, way.actuals),
        None => false,
    }
}

/// The place of the first way that gives too large a list.
fn large_place(ways: &[WayTo<'_>]) -> Option<Place>
    ensures { result ≡ option_map (λ w. type_place w.clause.parent)
        (find rules.is_large (ways_view ways.now)) }
{
    'ways: for way in ways {
        if is_large(way) {
            return Some(way.tree.parent.place);
        }
    }
    None
}

/// The list that the way gives.
fn list_by(alloc: Global, way: &WayTo<'_>) -> Result<Option<Vec<Ty>>, Memory>
    ensures { IfOk result (λ o. option_map (λ v. actuals_view v.items) o
        ≡ (way_view way.now).actuals) }
{
    match way.given {
        Some(given) => Ok(Some(put_types(alloc, given, way.actuals)?)),
        None => Ok(None),
    }
}

/// Whether the way gives that list.
fn gives(way: &WayTo<'_>, list: &[Ty]) -> bool
    ensures { result ≡ the.are_alike (Some (actuals_view list.now)) (way_view way.now).actuals }
{
    match way.given {
        Some(given) => same_puts(given, way.actuals, list),
        None => false,
    }
}

/// The place of the first of the ways that does not give that list.
fn differing_place(ways: &[WayTo<'_>], list: &[Ty]) -> Option<Place>
    ensures { result ≡ option_map (λ w. type_place w.clause.parent)
        (find (λ w. not (the.are_alike (Some (actuals_view list.now)) w.actuals))
        (ways_view ways.now)) }
{
    'ways: for way in ways {
        if !gives(way, list) {
            return Some(way.tree.parent.place);
        }
    }
    None
}

/// What the ways give, each of which gives a list, none of them too large.
fn common_list(alloc: Global, ways: &[WayTo<'_>]) -> Result<Derived, Memory>
    ensures actuals { IfOk result (λ r. rules.are_defined (ways_view ways.now) ≡ true
        → find rules.is_large (ways_view ways.now) ≡ None
        → derived_actuals r ≡ the.common (ways_view ways.now)) }
    ensures faults { IfOk result (λ r. (c : ClassT) (name : List ℕ)
        → rules.are_defined (ways_view ways.now) ≡ true
        → find rules.is_large (ways_view ways.now) ≡ None
        → derived_faults c name r ≡ rules.ancestor_faults c name (ways_view ways.now)) }
{
    let Some((first, others)) = ways.split_first() else {
        return Ok(Derived::Undefined);
    };
    let Some(list) = list_by(alloc, first)? else {
        return Ok(Derived::Undefined);
    };
    match differing_place(others, &list) {
        Some(place) => Ok(Derived::Differing(place)),
        None => Ok(Derived::Given(list)),
    }
}

/// What the ways give together.
pub fn derived_by(alloc: Global, ways: &[WayTo<'_>]) -> Result<Derived, Memory>
    ensures actuals { IfOk result
        (λ r. derived_actuals r ≡ the.common (ways_view ways.now)) }
    ensures faults { IfOk result (λ r. (c : ClassT) (name : List ℕ)
        → derived_faults c name r ≡ rules.ancestor_faults c name (ways_view ways.now)) }
{
    if !are_defined(ways) {
        return Ok(Derived::Undefined);
    }
    if let Some(place) = large_place(ways) {
        return Ok(Derived::TooLarge(place));
    }
    common_list(alloc, ways)
}
