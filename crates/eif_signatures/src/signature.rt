//! Signatures, as declarations write them and as heirs see them.

ghost use Rattle.std.specs.Prelude.{◌≡◌, ◌<◌, ◌^◌, ◌++◌, flat_map, length, map, IfOk, OnOk};
ghost use Rattle.std.specs.Option.{option_map};
ghost use Rattle.eif_classes.specs.Resolution.{resolved};
ghost use Rattle.eif_classes.specs.Signatures as the;
ghost use Rattle.eif_classes.specs.Types.{put_in};
ghost use Rattle.eif_signatures.specs.SignatureViews.{signature_view};
ghost use Rattle.eif_tree.specs.View.{class_view, decl_view, group_view, type_view};
ghost use Rattle.eif_type_forms.specs.View.{actuals_view, ty_view};
ghost use Rattle.eif_universe.specs.Universes.{classes_of};

use eif_base::Memory;
use eif_tree::{ClassTree, FeatureDecl, Group, TypeTree};
use eif_type_forms::{Ty, put_type, resolve};
use eif_universe::Universe;
use std::alloc::Global;

/// The types of the arguments of a feature in their order, and of its result, if it has one: types
/// over the formals of a class.
#[derive(Drop)]
pub struct Signature {
    pub arguments: Vec<Ty>,
    pub result: Option<Ty>,
}

/// Adds the type of the group, once for each of its names.
fn push_group(
    alloc: Global,
    u: &Universe,
    class: &ClassTree,
    group: &Group,
    out: &mut Vec<Ty>,
) -> Result<(), Memory>
    requires { length class.now.formals.items < 2 ^ 32 }
    ensures { let u = classes_of u.now in let g = group_view group.now in
        OnOk result (map ty_view out.new.items ≡ map ty_view out.old.items
        ++ map (λ n. resolved u (class_view class.now) g.type_tree) g.names) }
{
    'names: for _ in &group.names {
        out.push(resolve(alloc, u, class, &group.type_tree)?)?;
    }
    Ok(())
}

/// The types of the arguments in these groups.
fn argument_types(
    alloc: Global,
    u: &Universe,
    class: &ClassTree,
    groups: &[Group],
) -> Result<Vec<Ty>, Memory>
    requires { length class.now.formals.items < 2 ^ 32 }
    ensures { let u = classes_of u.now in IfOk result (λ v. map ty_view v.items
        ≡ flat_map (λ g. map (λ n. resolved u (class_view class.now) g.type_tree) g.names)
        (map group_view groups.now)) }
{
    let mut types = Vec::new(alloc);
    'groups: for group in groups {
        push_group(alloc, u, class, group, &mut types)?;
    }
    Ok(types)
}

/// What the type of a result means, if there is one.
fn result_type(
    alloc: Global,
    u: &Universe,
    class: &ClassTree,
    tree: &Option<TypeTree>,
) -> Result<Option<Ty>, Memory>
    requires { length class.now.formals.items < 2 ^ 32 }
    ensures { IfOk result (λ o. option_map ty_view o
        ≡ option_map (resolved (classes_of u.now) (class_view class.now))
        (option_map type_view tree.now)) }
{
    match tree {
        Some(tree) => Ok(Some(resolve(alloc, u, class, tree)?)),
        None => Ok(None),
    }
}

/// The signature that the declaration writes in the class.
pub fn declared_signature(
    alloc: Global,
    u: &Universe,
    class: &ClassTree,
    decl: &FeatureDecl,
) -> Result<Signature, Memory>
    requires { length class.now.formals.items < 2 ^ 32 }
    ensures { IfOk result (λ s. signature_view s
        ≡ the.declared_signature (classes_of u.now) (class_view class.now) (decl_view decl.now)) }
{
    let arguments = argument_types(alloc, u, class, &decl.arguments)?;
    let result = result_type(alloc, u, class, &decl.result)?;
    Ok(Signature { arguments, result })
}

/// The types, each with the actuals put in.
fn put_each(alloc: Global, types: &[Ty], actuals: &[Ty]) -> Result<Vec<Ty>, Memory>
    ensures { IfOk result (λ v. map ty_view v.items
        ≡ map (put_in (actuals_view actuals.now)) (map ty_view types.now)) }
{
    let mut puts = Vec::with_capacity(alloc, types.len())?;
    'types: for t in types {
        puts.push(put_type(alloc, t, actuals)?)?;
    }
    Ok(puts)
}

/// The type with the actuals put in, if there is one.
fn put_result(alloc: Global, t: &Option<Ty>, actuals: &[Ty]) -> Result<Option<Ty>, Memory>
    ensures { IfOk result (λ o. option_map ty_view o
        ≡ option_map (put_in (actuals_view actuals.now)) (option_map ty_view t.now)) }
{
    match t {
        Some(t) => Ok(Some(put_type(alloc, t, actuals)?)),
        None => Ok(None),
    }
}

/// The signature with the actuals put in, whatever the size of its types.
pub fn with_actuals(
    alloc: Global,
    signature: &Signature,
    actuals: &[Ty],
) -> Result<Signature, Memory>
    ensures { IfOk result (λ s. signature_view s
        ≡ the.with_actuals (actuals_view actuals.now) (signature_view signature.now)) }
{
    let arguments = put_each(alloc, &signature.arguments, actuals)?;
    let result = put_result(alloc, &signature.result, actuals)?;
    Ok(Signature { arguments, result })
}
