//! The rules of selection: which of several versions dynamic binding uses.

ghost use Rattle.std.specs.Prelude.{◌≡◌, ℕ, ◌++◌, ◌||◌, ◌&&◌, List, map, flat_map, is_none, IfOk, OnOk};
ghost use Rattle.std.specs.List.{filter};
ghost use Rattle.eif_adapt.specs.NamedItems.{IsNameSet};
ghost use Rattle.eif_base.specs.Numbering.{is_among};
ghost use Rattle.eif_choices.specs.Chosen.{AreChoices};
ghost use Rattle.eif_classes.specs.Descent.{above};
ghost use Rattle.eif_classes.specs.Names as names_rules;
ghost use Rattle.eif_classes.specs.Names.{agreed};
ghost use Rattle.eif_feature_faults.specs.Candidates as the;
ghost use Rattle.eif_feature_faults.specs.Selected as selected;
ghost use Rattle.eif_feature_rules.specs.ClauseRules.{each_listed};
ghost use Rattle.eif_feature_rules.specs.SelectionRules as rules;
ghost use Rattle.eif_heirs.specs.Clauses.{ups_in};
ghost use Rattle.eif_heirs.specs.Heirs.{IsHeir};
ghost use Rattle.eif_system.specs.Lineage.{line_of};
ghost use Rattle.eif_tree.specs.Tree.{ClassT};
ghost use Rattle.eif_tree.specs.declared.tree.NameAt.{NameAt};
ghost use Rattle.eif_tree.specs.View.{class_view};

use crate::candidates::{are_one, are_several, names_among, names_at};
use eif_base::{Code, FaultList, FeatId, Memory, Name, NameSet};
use eif_choices::{Choices, selected_set};
use eif_heirs::{Clause, Heir, final_names};
use eif_rows::ordered_names;
use eif_tree::{ClassTree, NameAt};
use eif_written::{LentFault, push_fault, push_where};
use std::alloc::Global;

// Adds the names of the candidates to the set, where there are several.
fn add_choice(
    alloc: Global,
    set: &mut NameSet,
    names: &[Name],
    candidates: &[FeatId],
) -> Result<(), Memory>
    ensures { OnOk result ((ns : List (List ℕ)) → the.AreNamed names.now candidates.now ns
        → (n : List ℕ) → is_among set.new n
        ≡ (names_rules.are_several ns && is_among ns n || is_among set.old n)) }
{
    if are_one(candidates) {
        return Ok(());
    }
    let choice = names_at(alloc, names, candidates)?;
    if are_several(&choice) {
        add_all(set, &choice)?;
    }
    Ok(())
}

fn add_all(set: &mut NameSet, names: &[&Name]) -> Result<(), Memory>
    ensures { OnOk result ((n : List ℕ) → is_among set.new n
        ≡ (is_among (map (λ n. n.now) names.now) n || is_among set.old n)) }
{
    'names: for name in names {
        set.insert(name)?;
    }
    Ok(())
}

/// The names that are one of several candidates of some feature.
fn choice_names(
    alloc: Global,
    names: &[Name],
    candidates: &[Vec<FeatId>],
) -> Result<NameSet, Memory>
    ensures { IfOk result (λ s. (choices : List (List (List ℕ)))
        → selected.AreAllNamed names.now candidates.now choices
        → (n : List ℕ) → is_among s n ≡ rules.is_choice choices n) }
{
    let mut set = NameSet::new(alloc);
    'candidates: for one in candidates {
        add_choice(alloc, &mut set, names, one)?;
    }
    Ok(set)
}

/// VMSS.3: a selected name is one of these final names of the clause and none of the names that stand
/// to choose. One that stands before in the list is judged there.
fn push_needless_select(
    alloc: Global,
    class: &ClassTree,
    finals: &NameSet,
    choice: &NameSet,
    earlier: &NameSet,
    name: &NameAt,
    out: &mut FaultList,
) -> Result<(), Memory>
    ensures { (before : List NameAt) → IsNameSet earlier.now before → OnOk result (out.new ≡ out.old
        ++ selected.needless_by (class_view class.now) choice.now finals.now before name.now) }
{
    let is_broken = finals.has(&name.name) && !earlier.has(&name.name) && !choice.has(&name.name);
    let fault = LentFault::at(class, Code::Vmss, 3, name.place, &name.name);
    push_where(alloc, out, is_broken, &fault)
}

/// Adds the faults of the names that a clause with these final names selects.
fn push_needless_selects(
    alloc: Global,
    class: &ClassTree,
    finals: &NameSet,
    choice: &NameSet,
    selects: &[NameAt],
    out: &mut FaultList,
) -> Result<(), Memory>
    ensures { OnOk result (out.new ≡ out.old ++ each_listed
        (selected.needless_by (class_view class.now) choice.now finals.now) selects.now) }
{
    let mut earlier = NameSet::new(alloc);
    'selects: for name in selects {
        push_needless_select(alloc, class, finals, choice, &earlier, name, out)?;
        earlier.insert(&name.name)?;
    }
    Ok(())
}

/// Adds the faults of the names that the clause selects.
fn push_needless_in(
    alloc: Global,
    class: &ClassTree,
    clause: &Clause<'_>,
    choice: &NameSet,
    out: &mut FaultList,
) -> Result<(), Memory>
    ensures { OnOk result (out.new ≡ out.old
        ++ selected.clause_needless (class_view class.now) choice.now clause.now) }
{
    let finals = final_names(alloc, &clause.adapted)?;
    push_needless_selects(alloc, class, &finals, choice, &clause.tree.selects, out)?;
    Ok(())
}

/// Adds the faults of the names that the clauses select.
fn push_needless(
    alloc: Global,
    class: &ClassTree,
    clauses: &[Clause<'_>],
    choice: &NameSet,
    out: &mut FaultList,
) -> Result<(), Memory>
    ensures { OnOk result (out.new ≡ out.old
        ++ flat_map (selected.clause_needless (class_view class.now) choice.now) clauses.now) }
{
    'clauses: for clause in clauses {
        push_needless_in(alloc, class, clause, choice, out)?;
    }
    Ok(())
}

/// Whether several of the names or none are in the set.
fn is_undecided(alloc: Global, names: &[&Name], set: &NameSet) -> Result<bool, Memory>
    ensures { IfOk result (λ b. b ≡ is_none
        (agreed (filter (is_among set.now) (map (λ n. n.now) names.now)))) }
{
    let among = names_among(alloc, names, set)?;
    Ok(among.is_empty() || are_several(&among))
}

/// The least of the names by their bytes, or the empty name where there is none.
fn least_name(alloc: Global, names: Vec<&Name>) -> Result<Name, Memory>
    ensures { IfOk result (λ n. n ≡ rules.least (map (λ n. n.now) names.entry.items)) }
{
    let ordered = ordered_names(alloc, names)?;
    match ordered.first() {
        Some(least) => least.copy(alloc),
        None => Name::from_bytes(alloc, b""),
    }
}

/// VMRC.1: of several names not exactly one is selected. The fault is about the least of them.
fn push_undecided_names(
    alloc: Global,
    class: &ClassTree,
    names: Vec<&Name>,
    set: &NameSet,
    out: &mut FaultList,
) -> Result<(), Memory>
    ensures { OnOk result (out.new ≡ out.old ++ selected.undecided_by (class_view class.now)
        set.now (map (λ n. n.now) names.entry.items)) }
{
    if are_several(&names) && is_undecided(alloc, &names, set)? {
        let least = least_name(alloc, names)?;
        let fault = LentFault::at(class, Code::Vmrc, 1, class.place, &least);
        push_fault(alloc, out, &fault)?;
    }
    Ok(())
}

/// VMRC.1: a feature of an ancestor has several candidates and not exactly one of them is selected.
fn push_undecided(
    alloc: Global,
    heir: &Heir<'_>,
    set: &NameSet,
    candidates: &[FeatId],
    out: &mut FaultList,
) -> Result<(), Memory>
    ensures { OnOk result ((ns : List (List ℕ)) → the.AreNamed heir.now.names.items candidates.now ns
        → out.new ≡ out.old ++ selected.undecided_by (class_view heir.now.tree.now) set.now ns) }
{
    if are_one(candidates) {
        return Ok(());
    }
    let names = names_at(alloc, &heir.names, candidates)?;
    push_undecided_names(alloc, heir.tree, names, set, out)?;
    Ok(())
}

/// Adds the faults of the candidates for each feature.
fn push_all_undecided(
    alloc: Global,
    heir: &Heir<'_>,
    set: &NameSet,
    candidates: &[Vec<FeatId>],
    out: &mut FaultList,
) -> Result<(), Memory>
    ensures { OnOk result ((choices : List (List (List ℕ)))
        → selected.AreAllNamed heir.now.names.items candidates.now choices → out.new ≡ out.old
        ++ flat_map (selected.undecided_by (class_view heir.now.tree.now) set.now) choices) }
{
    'candidates: for one in candidates {
        push_undecided(alloc, heir, set, one, out)?;
    }
    Ok(())
}

/// Adds the faults of the names that the class selects, and of the features of its ancestors of which
/// several versions stand to choose.
pub fn push_selection_faults(
    alloc: Global,
    heir: &Heir<'_>,
    choices: &Choices,
    out: &mut FaultList,
) -> Result<(), Memory>
    ensures { let c = class_view heir.now.tree.now in OnOk result ((u : List ClassT) → IsHeir u heir.now
        → AreChoices u (line_of u heir.now.class_id.0) (ups_in u c) choices.now
        → out.new ≡ out.old
        ++ rules.selection_faults u c (ups_in u c) (above (line_of u heir.now.class_id.0))) }
{
    let choice = choice_names(alloc, &heir.names, &choices.candidates)?;
    push_needless(alloc, heir.tree, &heir.clauses, &choice, out)?;
    let set = selected_set(alloc, &heir.clauses)?;
    push_all_undecided(alloc, heir, &set, &choices.candidates, out)?;
    Ok(())
}
