//! The features parts in which a class declares its names.

ghost use Rattle.std.specs.Prelude.{◌≡◌, ◌++◌, map, flat_map, IfOk, OnOk};
ghost use Rattle.eif_heirs.specs.DraftParts.{lent_part, part_of_each, parts_of};
ghost use Rattle.eif_tree.specs.View.{class_view, decl_view, features_view};

use eif_base::Memory;
use eif_tree::{ClassTree, FeatureClause, FeatureDecl};
use std::alloc::Global;

// Adds the part once for each name of the declaration.
fn push_for_names<'t>(
    out: &mut Vec<&'t FeatureClause>,
    part: &'t FeatureClause,
    declaration: &FeatureDecl,
) -> Result<(), Memory>
    ensures { OnOk result (map lent_part out.new.items ≡ map lent_part out.old.items
        ++ part_of_each (features_view part.now) (decl_view declaration.now)) }
{
    'names: for _ in &declaration.names {
        out.push(part)?;
    }
    Ok(())
}

// Adds the part once for each name of these declarations.
fn push_for_declarations<'t>(
    out: &mut Vec<&'t FeatureClause>,
    part: &'t FeatureClause,
    declarations: &[FeatureDecl],
) -> Result<(), Memory>
    ensures { OnOk result (map lent_part out.new.items ≡ map lent_part out.old.items
        ++ flat_map (part_of_each (features_view part.now)) (map decl_view declarations.now)) }
{
    'declarations: for declaration in declarations {
        push_for_names(out, part, declaration)?;
    }
    Ok(())
}

/// For each name that the class declares, in the order of its text, the part that declares it.
pub(crate) fn declaring_parts(
    alloc: Global,
    tree: &ClassTree,
) -> Result<Vec<&FeatureClause>, Memory>
    ensures { IfOk result (λ v. map lent_part v.items ≡ parts_of (class_view tree.now).features) }
{
    let mut parts = Vec::new(alloc);
    'parts: for part in &tree.features {
        push_for_declarations(&mut parts, part, &part.decls)?;
    }
    Ok(parts)
}
