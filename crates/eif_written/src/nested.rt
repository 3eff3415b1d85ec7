ghost use Rattle.std.specs.Prelude.{◌≡◌, ◌++◌, map, IfOk, OnOk};
ghost use Rattle.eif_system.specs.WrittenTypes as the;
ghost use Rattle.eif_tree.specs.View.{type_view, types_from};
ghost use Rattle.eif_written.specs.LentTypes.{lent_type};

use eif_base::Memory;
use eif_tree::TypeTree;
use std::alloc::Global;

/// A type and all types in it.
pub fn nested_types(alloc: Global, type_tree: &TypeTree) -> Result<Vec<&TypeTree>, Memory>
    ensures { IfOk result (λ v. map lent_type v.items ≡ the.nested (type_view type_tree.now)) }
{
    let mut out = Vec::new(alloc);
    push_nested(&mut out, type_tree)?;
    Ok(out)
}

#[cycle(nested)]
fn push_nested<'t>(out: &mut Vec<&'t TypeTree>, type_tree: &'t TypeTree) -> Result<(), Memory>
    ensures { OnOk result (map lent_type out.new.items
        ≡ map lent_type out.old.items ++ the.nested (type_view type_tree.now)) }
{
    out.push(type_tree)?;
    push_nested_in(out, &type_tree.actuals)
}

#[cycle(nested)]
fn push_nested_in<'t>(out: &mut Vec<&'t TypeTree>, types: &'t [TypeTree]) -> Result<(), Memory>
    ensures { OnOk result (map lent_type out.new.items
        ≡ map lent_type out.old.items ++ the.nested_in (types_from (map type_view types.now))) }
{
    'types: for type_tree in types {
        push_nested(out, type_tree)?;
    }
    Ok(())
}
