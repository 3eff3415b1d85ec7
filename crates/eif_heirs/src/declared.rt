ghost use Rattle.std.specs.Prelude.{◌≡◌, ◌++◌, List, Some, flat_map, map, slice_get, IfOk, OnOk};
ghost use Rattle.eif_feature_rules.specs.RuleForms as rules;
ghost use Rattle.eif_feature_rules.specs.RuleForms.{declared_here};
ghost use Rattle.eif_heirs.specs.DeclaredNames.{IsDeclaredName};
ghost use Rattle.eif_rows.specs.Matched.{Match};
ghost use Rattle.eif_rows.specs.Rows.{declaration_at};
ghost use Rattle.eif_tree.specs.Tree.{ClassT};
ghost use Rattle.eif_tree.specs.View.{class_view, decl_view, features_view};

use eif_base::Memory;
use eif_rows::DeclarationPlace;
use eif_tree::{ClassTree, FeatureClause, FeatureDecl, NameAt};
use std::alloc::Global;

/// A name that a class text declares, with its declaration.
#[derive(Clone, Copy)]
pub struct DeclaredName<'u> {
    pub name: &'u NameAt,
    pub tree: &'u FeatureDecl,
    pub place: DeclarationPlace,
}

// Adds the names of the declaration at that place.
fn push_names<'u>(
    out: &mut Vec<DeclaredName<'u>>,
    tree: &'u FeatureDecl,
    place: DeclarationPlace,
) -> Result<(), Memory>
    ensures { (c : ClassT) (before : List rules.DeclaredName)
        → declaration_at c (Some place) ≡ Some (decl_view tree.now)
        → Match (IsDeclaredName c) out.old.items before
        → OnOk result (Match (IsDeclaredName c) out.new.items
        (before ++ rules.names_of_declaration (decl_view tree.now))) }
{
    'names: for name in &tree.names {
        out.push(DeclaredName { name, tree, place })?;
    }
    Ok(())
}

// Adds the names that the features part with that number declares.
fn push_names_of_part<'u>(
    out: &mut Vec<DeclaredName<'u>>,
    tree: &'u FeatureClause,
    part: usize,
) -> Result<(), Memory>
    ensures { (c : ClassT) (before : List rules.DeclaredName)
        → slice_get c.features part ≡ Some (features_view tree.now)
        → Match (IsDeclaredName c) out.old.items before
        → OnOk result (Match (IsDeclaredName c) out.new.items
        (before ++ flat_map rules.names_of_declaration (features_view tree.now).decls)) }
{
    let decls = tree.decls.as_slice();
    'decls: for (place, decl) in decls.iter().enumerate() {
        push_names(out, decl, DeclarationPlace { part, place })?;
    }
    Ok(())
}

/// The names that the class declares, in the order of its text.
pub fn declared_names<'u>(
    alloc: Global,
    tree: &'u ClassTree,
) -> Result<Vec<DeclaredName<'u>>, Memory>
    ensures { IfOk result (λ v. let c = class_view tree.now in
        Match (IsDeclaredName c) v.items (declared_here c)) }
{
    let mut out = Vec::new(alloc);
    let parts = tree.features.as_slice();
    'parts: for (part, features) in parts.iter().enumerate() {
        push_names_of_part(&mut out, features, part)?;
    }
    Ok(out)
}
