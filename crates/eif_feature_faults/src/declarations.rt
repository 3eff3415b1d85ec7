//! The rules of what a class declares: beside what it inherits, and by itself.

ghost use Rattle.std.specs.Prelude.{◌≡◌, ◌++◌, ◌&&◌, List, false, flat_map, map, nat_lt, Some, slice_get, take, OnOk};
ghost use Rattle.std.specs.List.{list_any};
ghost use Rattle.std.specs.Option.{option_map_or};
ghost use Rattle.eif_classes.specs.Features.{entries};
ghost use Rattle.eif_classes.specs.Entries.{Entry, lasts};
ghost use Rattle.eif_feature_faults.specs.DeclaredViews.{declared_view, faults_by_rule};
ghost use Rattle.eif_feature_rules.specs.DeclarationRules.{declared_name_faults, declaration_faults, is_deferred_kind};
ghost use Rattle.eif_feature_rules.specs.RuleForms.{declared_here, with_earlier};
ghost use Rattle.eif_heirs.specs.Clauses.{entry_at, ups_in};
ghost use Rattle.eif_heirs.specs.Heirs.{AreSources, IsHeir};
ghost use Rattle.eif_rows.specs.Systems.{IsSystem};
ghost use Rattle.eif_tree.specs.Tree.{ClassT};
ghost use Rattle.eif_tree.specs.View.{class_view, kind_view};
ghost use Rattle.eif_universe.specs.Universes.{classes_of};

use crate::constants::push_wrong_constants;
use crate::standing::{any_kept, any_lasts, sources_of};
use eif_base::{Code, FaultList, Memory};
use eif_heirs::{DeclaredName, Heir, NameSources};
use eif_tree::{ClassTree, FeatureDecl, FeatureKind, NameAt};
use eif_universe::Universe;
use eif_written::{LentFault, push_fault};
use std::alloc::Global;

/// Adds the faults of the declared names.
pub fn push_declaration_faults(
    alloc: Global,
    u: &Universe,
    heir: &Heir<'_>,
    out: &mut FaultList,
) -> Result<(), Memory>
    requires system { IsSystem (classes_of u.now) }
    requires heir { IsHeir (classes_of u.now) heir.now }
    ensures { let u = classes_of u.now in let c = class_view heir.now.tree.now in OnOk result
        (out.new ≡ out.old ++ declaration_faults u c (entries (ups_in u c))) }
{
    push_faults_beside(alloc, heir, out)?;
    push_wrong_constants(alloc, u, heir.tree, &heir.declared, out)?;
    Ok(())
}

/// Adds the faults of the declared names beside what the class inherits.
fn push_faults_beside(alloc: Global, heir: &Heir<'_>, out: &mut FaultList) -> Result<(), Memory>
    ensures { OnOk result ((u : List ClassT) → IsHeir u heir.now
        → let c = class_view heir.now.tree.now in out.new ≡ out.old
        ++ flat_map (λ x. declared_name_faults c (entries (ups_in u c)) x.0 x.1)
        (with_earlier (declared_here c))) }
{
    'declared: for (i, x) in heir.declared.iter().enumerate() {
        push_if_broken(alloc, heir.tree, rule_beside(heir, i, x), x.name, out)?;
    }
    Ok(())
}

/// The rule that the declared name with that number breaks beside what the class inherits.
fn rule_beside(heir: &Heir<'_>, i: usize, x: &DeclaredName<'_>) -> Option<(Code, u8)>
    ensures { (u : List ClassT) → IsHeir u heir.now
        → slice_get (declared_here (class_view heir.now.tree.now)) i ≡ Some (declared_view x.now)
        → let c = class_view heir.now.tree.now in faults_by_rule c x.now.name.now result
        ≡ declared_name_faults c (entries (ups_in u c)) (take i (declared_here c))
        (declared_view x.now) }
{
    match sources_of(heir, &x.name.name) {
        Some(sources) => rule_by(heir, sources, i, x),
        None => None,
    }
}

/// VMFN.1: the name is declared before. VDRS.4: a deferred declaration has an entry that lasts.
/// VMFN.2: the name has an entry that is kept. The first of them counts.
fn rule_by(
    heir: &Heir<'_>,
    sources: &NameSources,
    i: usize,
    x: &DeclaredName<'_>,
) -> Option<(Code, u8)>
    ensures { (u : List ClassT) → IsHeir u heir.now
        → AreSources u (class_view heir.now.tree.now) sources.now x.now.name.now.name
        → let c = class_view heir.now.tree.now in faults_by_rule c x.now.name.now result
        ≡ declared_name_faults c (entries (ups_in u c)) (take i (declared_here c))
        (declared_view x.now) }
{
    if is_before(sources, i) {
        Some((Code::Vmfn, 1))
    } else if is_deferred_again(heir, sources, x.tree) {
        Some((Code::Vdrs, 4))
    } else if any_kept(heir, &sources.entries) {
        Some((Code::Vmfn, 2))
    } else {
        None
    }
}

/// Whether the first declaration of the name stands before that place.
fn is_before(sources: &NameSources, i: usize) -> bool
    ensures { result ≡ option_map_or (λ first. nat_lt first i) sources.now.declared false }
{
    match sources.declared {
        Some(first) => first < i,
        None => false,
    }
}

/// Whether the declaration is deferred and an entry is effective and not undefined.
fn is_deferred_again(heir: &Heir<'_>, sources: &NameSources, tree: &FeatureDecl) -> bool
    ensures { (u : List ClassT) (es : List Entry) → IsHeir u heir.now
        → map (entry_at (ups_in u (class_view heir.now.tree.now))) sources.now.entries.items
        ≡ map Some es → result ≡ (is_deferred_kind (kind_view tree.now.kind) && list_any lasts es) }
{
    if is_deferred(tree) {
        any_lasts(heir, &sources.entries)
    } else {
        false
    }
}

fn is_deferred(tree: &FeatureDecl) -> bool
    ensures { result ≡ is_deferred_kind (kind_view tree.now.kind) }
{
    match tree.kind {
        FeatureKind::DeferredBody => true,
        _ => false,
    }
}

/// Adds the fault of the rule, if one is broken: in the feature of the declared name, at that name
/// and about it.
fn push_if_broken(
    alloc: Global,
    class: &ClassTree,
    rule: Option<(Code, u8)>,
    name: &NameAt,
    out: &mut FaultList,
) -> Result<(), Memory>
    ensures { OnOk result
        (out.new ≡ out.old ++ faults_by_rule (class_view class.now) name.now rule) }
{
    match rule {
        Some((code, case)) => {
            let about = &name.name;
            let fault = LentFault::within(class, about, code, case, name.place, about);
            push_fault(alloc, out, &fault)
        }
        None => Ok(()),
    }
}
