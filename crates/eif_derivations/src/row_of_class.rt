//! What a class gives its ancestors, from what its parents give theirs, and the rules that this
//! breaks.

ghost use Rattle.std.specs.Prelude.{◌≡◌, ◌≢◌, ◌++◌, ◌∷◌, [], ◌<◌, ◌^◌, ℕ, List, flat_map, length, slice_get, Some, IfOk, OnOk};
ghost use Rattle.eif_classes.specs.Ancestry as the;
ghost use Rattle.eif_classes.specs.Descent.{above};
ghost use Rattle.eif_classes.specs.Types.{Actuals};
ghost use Rattle.eif_derivations.specs.DerivationRows.{IsDerivation, IsDerivationRow};
ghost use Rattle.eif_derivations.specs.ListNumbers.{Holds, Keeps, lists_of};
ghost use Rattle.eif_derivations.specs.ParentActuals.{AreClauseActuals, classes_by, lines_over};
ghost use Rattle.eif_derivations.specs.WayViews.{derived_actuals, derived_faults};
ghost use Rattle.eif_derivations.specs.declared.derivation.Derivation as form;
ghost use Rattle.eif_feature_rules.specs.DerivationRules as rules;
ghost use Rattle.eif_rows.specs.Matched.{Match};
ghost use Rattle.eif_rows.specs.Numbers.{class_numbers};
ghost use Rattle.eif_rows.specs.Systems.{IsSystem};
ghost use Rattle.eif_system.specs.Lineage.{line_of};
ghost use Rattle.eif_tree.specs.Tree.{ClassT};
ghost use Rattle.eif_tree.specs.View.{class_view};
ghost use Rattle.eif_universe.specs.Universes.{classes_of};

use crate::clause::ClauseActuals;
use crate::derivation::{Derivation, DerivationRow};
use crate::derived::{Derived, derived_by};
use crate::lists::{ActualLists, ListId};
use crate::ways::ways_to;
use eif_base::{ClassId, Code, FaultList, Memory, Name};
use eif_rows::ordered_classes;
use eif_tree::ClassTree;
use eif_type_forms::own_formals;
use eif_universe::Universe;
use eif_written::{LentFault, push_fault};
use std::alloc::Global;

/// Adds the class of the clause and its proper ancestors.
fn push_classes(clause: &ClauseActuals<'_>, out: &mut Vec<ClassId>) -> Result<(), Memory>
    ensures { OnOk result (class_numbers out.new.items
        ≡ class_numbers out.old.items ++ classes_by clause.now) }
{
    out.push(clause.parent)?;
    'ancestors: for derivation in &clause.row.ancestors {
        out.push(derivation.class_id)?;
    }
    Ok(())
}

/// The proper ancestors of the class with these clauses, by rising number.
fn proper_ancestors(alloc: Global, clauses: &[ClauseActuals<'_>]) -> Result<Vec<ClassId>, Memory>
    ensures { IfOk result (λ v. (u : List ClassT) (lists : List Actuals) (d : ℕ) (c : ClassT)
        → IsSystem u → slice_get u d ≡ Some c → AreClauseActuals u lists c clauses.now
        → class_numbers v.items ≡ above (line_of u d)) }
{
    let mut all = Vec::new(alloc);
    'clauses: for clause in clauses {
        push_classes(clause, &mut all)?;
    }
    Ok(ordered_classes(all))
}

/// What the ways from the class with these clauses give the ancestor k together.
fn derived_to(
    alloc: Global,
    lists: &ActualLists,
    clauses: &[ClauseActuals<'_>],
    k: ClassId,
) -> Result<Derived, Memory>
    ensures actuals { IfOk result (λ r. (u : List ClassT) (c : ClassT) → IsSystem u
        → AreClauseActuals u (lists_of lists.now) c clauses.now
        → derived_actuals r ≡ the.common (the.ways u c (lines_over u c) k.0)) }
    ensures faults { IfOk result (λ r. (u : List ClassT) (c : ClassT) (name : List ℕ)
        → IsSystem u → AreClauseActuals u (lists_of lists.now) c clauses.now
        → derived_faults c name r
        ≡ rules.ancestor_faults c name (the.ways u c (lines_over u c) k.0)) }
{
    let ways = ways_to(alloc, lists, clauses, k)?;
    derived_by(alloc, &ways)
}

/// The number of the list that was derived for the ancestor with that name, if there is one. Adds its
/// fault else.
fn keep(
    alloc: Global,
    class: &ClassTree,
    name: &Name,
    derived: Derived,
    lists: &mut ActualLists,
    out: &mut FaultList,
) -> Result<Option<ListId>, Memory>
    ensures kept { Keeps (lists_of lists.old) (lists_of lists.new) }
    ensures id { IfOk result (λ id. Holds (lists_of lists.new) id (derived_actuals derived)) }
    ensures faults { OnOk result (out.new
        ≡ out.old ++ derived_faults (class_view class.now) name.now derived) }
{
    match derived {
        Derived::Given(list) => Ok(Some(lists.intern(list)?)),
        Derived::Undefined => Ok(None),
        Derived::TooLarge(place) => {
            push_fault(
                alloc,
                out,
                &LentFault::at(class, Code::Xlim, 6, place, name),
            )?;
            Ok(None)
        }
        Derived::Differing(place) => {
            push_fault(
                alloc,
                out,
                &LentFault::at(class, Code::Xanc, 1, place, name),
            )?;
            Ok(None)
        }
    }
}

/// Adds what the class with these clauses gives its proper ancestor k, and its fault.
fn push_derivation(
    alloc: Global,
    u: &Universe,
    class: &ClassTree,
    clauses: &[ClauseActuals<'_>],
    k: ClassId,
    lists: &mut ActualLists,
    derivations: &mut Vec<Derivation>,
    out: &mut FaultList,
) -> Result<(), Memory>
    requires { k.0 < length (classes_of u.now) }
    ensures kept { Keeps (lists_of lists.old) (lists_of lists.new) }
    ensures derivation { let u = classes_of u.now in let c = class_view class.now in
        OnOk result ((d : ℕ) → IsSystem u → AreClauseActuals u (lists_of lists.old) c clauses.now
        → slice_get u d ≡ Some c → d ≢ k.0
        → (x : form.Derivation) × (derivations.new.items ≡ derivations.old.items ++ x ∷ [])
        × IsDerivation u (lists_of lists.new) d x k.0) }
    ensures faults { let u = classes_of u.now in let c = class_view class.now in
        OnOk result (IsSystem u → AreClauseActuals u (lists_of lists.old) c clauses.now
        → out.new ≡ out.old
        ++ rules.ancestor_faults c (rules.name_of u k.0) (the.ways u c (lines_over u c) k.0)) }
{
    let derived = derived_to(alloc, lists, clauses, k)?;
    let actuals = keep(alloc, class, &u.tree(k).name, derived, lists, out)?;
    derivations.push(Derivation {
        class_id: k,
        actuals,
    })?;
    Ok(())
}

/// Adds what the class with these clauses gives these of its proper ancestors, and their faults.
fn push_derivations(
    alloc: Global,
    u: &Universe,
    class: &ClassTree,
    clauses: &[ClauseActuals<'_>],
    ancestors: &[ClassId],
    lists: &mut ActualLists,
    out: &mut FaultList,
) -> Result<Vec<Derivation>, Memory>
    requires { (i k : ℕ) → slice_get (class_numbers ancestors.now) i ≡ Some k
        → k < length (classes_of u.now) }
    ensures kept { Keeps (lists_of lists.old) (lists_of lists.new) }
    ensures derivations { let u = classes_of u.now in let c = class_view class.now in
        IfOk result (λ v. (d : ℕ) → IsSystem u
        → AreClauseActuals u (lists_of lists.old) c clauses.now → slice_get u d ≡ Some c
        → ((i k : ℕ) → slice_get (class_numbers ancestors.now) i ≡ Some k → d ≢ k)
        → Match (IsDerivation u (lists_of lists.new) d) v.items (class_numbers ancestors.now)) }
    ensures faults { let u = classes_of u.now in let c = class_view class.now in
        OnOk result (IsSystem u → AreClauseActuals u (lists_of lists.old) c clauses.now
        → out.new ≡ out.old ++ flat_map (λ k.
        rules.ancestor_faults c (rules.name_of u k) (the.ways u c (lines_over u c) k))
        (class_numbers ancestors.now)) }
{
    let mut derivations = Vec::with_capacity(alloc, ancestors.len())?;
    'ancestors: for k in ancestors {
        push_derivation(alloc, u, class, clauses, *k, lists, &mut derivations, out)?;
    }
    Ok(derivations)
}

/// What the class with these clauses gives its ancestors. Adds the faults of its derivations.
pub fn row_of_class(
    alloc: Global,
    u: &Universe,
    class_id: ClassId,
    clauses: &[ClauseActuals<'_>],
    lists: &mut ActualLists,
    out: &mut FaultList,
) -> Result<DerivationRow, Memory>
    requires class { class_id.0 < length (classes_of u.now) }
    requires system { IsSystem (classes_of u.now) }
    requires clauses { (c : ClassT) → slice_get (classes_of u.now) class_id.0 ≡ Some c
        → AreClauseActuals (classes_of u.now) (lists_of lists.old) c clauses.now }
    ensures kept { Keeps (lists_of lists.old) (lists_of lists.new) }
    ensures row { IfOk result
        (IsDerivationRow (classes_of u.now) (lists_of lists.new) class_id.0) }
    ensures faults { let u = classes_of u.now in OnOk result
        (out.new ≡ out.old ++ rules.derivation_faults u (line_of u class_id.0)) }
{
    let class = u.tree(class_id);
    let formals = own_formals(alloc, class.formals.len() as u32)?;
    let own = lists.intern(formals)?;
    let above = proper_ancestors(alloc, clauses)?;
    let ancestors = push_derivations(alloc, u, class, clauses, &above, lists, out)?;
    Ok(DerivationRow { own, ancestors })
}
