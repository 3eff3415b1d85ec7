ghost use Rattle.std.specs.Prelude.{◌≡◌, ℕ, List, ◌||◌, IfOk, OnOk};
ghost use Rattle.eif_base.specs.Numbering.{is_among};
ghost use Rattle.eif_choices.specs.Picked.{clause_trees, selection};
ghost use Rattle.eif_classes.specs.Binding.{is_selected_in};
ghost use Rattle.eif_tree.specs.Members.{has_name};

use eif_base::{Memory, Name, NameSet};
use eif_heirs::Clause;
use eif_tree::NameAt;
use std::alloc::Global;

// For each name whether some clause selects it.
pub fn selected_names(
    alloc: Global,
    clauses: &[Clause<'_>],
    names: &[Name],
) -> Result<Vec<bool>, Memory>
    ensures { IfOk result (λ v. v.items ≡ selection clauses.now names.now) }
{
    let selected = selected_set(alloc, clauses)?;
    let mut out = Vec::with_capacity(alloc, names.len())?;
    'names: for name in names {
        out.push(selected.has(name))?;
    }
    Ok(out)
}

/// The names that the clauses select.
pub fn selected_set(alloc: Global, clauses: &[Clause<'_>]) -> Result<NameSet, Memory>
    ensures { IfOk result (λ s. (n : List ℕ)
        → is_among s n ≡ is_selected_in (clause_trees clauses.now) n) }
{
    let mut selected = NameSet::new(alloc);
    'clauses: for clause in clauses {
        add_all(&mut selected, &clause.tree.selects)?;
    }
    Ok(selected)
}

fn add_all(set: &mut NameSet, names: &[NameAt]) -> Result<(), Memory>
    ensures { OnOk result ((n : List ℕ)
        → is_among set.new n ≡ (has_name names.now n || is_among set.old n)) }
{
    'names: for name in names {
        set.insert(&name.name)?;
    }
    Ok(())
}
