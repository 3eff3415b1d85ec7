//! The rule of constants: each has the type of its literal.

ghost use Rattle.std.specs.Prelude.{◌≡◌, ◌==◌, ◌++◌, false, length, map, flat_map, OnOk};
ghost use Rattle.std.specs.List.{list_any};
ghost use Rattle.std.specs.Str.{bytes_eq};
ghost use Rattle.std.specs.Option.{option_map, option_map_or};
ghost use Rattle.eif_feature_faults.specs.DeclaredViews.{declared_view, is_attached_mark};
ghost use Rattle.eif_feature_rules.specs.DeclarationRules as rules;
ghost use Rattle.eif_system.specs.Universe.{class_number};
ghost use Rattle.eif_tree.specs.View.{class_view, kind_view, type_view};
ghost use Rattle.eif_universe.specs.Universes.{classes_of};

use eif_base::{ClassId, Code, FaultList, Memory, Name};
use eif_heirs::DeclaredName;
use eif_tree::{ClassTree, FeatureDecl, FeatureKind, Literal, Mark, TypeTree};
use eif_universe::Universe;
use eif_written::{LentFault, push_where};
use std::alloc::Global;

const INTEGER: ClassId = ClassId(1);

const BOOLEAN: ClassId = ClassId(2);

const CHARACTER: ClassId = ClassId(3);

const STRING: ClassId = ClassId(4);

/// VFFD.1: adds a fault for each declared constant whose type is not its literal's class.
pub(crate) fn push_wrong_constants(
    alloc: Global,
    u: &Universe,
    class: &ClassTree,
    declared: &[DeclaredName<'_>],
    out: &mut FaultList,
) -> Result<(), Memory>
    ensures { OnOk result (out.new ≡ out.old
        ++ flat_map (rules.wrong_constant (classes_of u.now) (class_view class.now))
        (map declared_view declared.now)) }
{
    'declared: for x in declared {
        push_wrong_constant(alloc, u, class, x, out)?;
    }
    Ok(())
}

fn push_wrong_constant(
    alloc: Global,
    u: &Universe,
    class: &ClassTree,
    x: &DeclaredName<'_>,
    out: &mut FaultList,
) -> Result<(), Memory>
    ensures { OnOk result (out.new ≡ out.old
        ++ rules.wrong_constant (classes_of u.now) (class_view class.now) (declared_view x.now)) }
{
    let is_broken = !has_literal_type(u, class, x.tree);
    let name = &x.name.name;
    let fault = LentFault::within(class, name, Code::Vffd, 1, x.name.place, name);
    push_where(alloc, out, is_broken, &fault)
}

fn has_literal_type(u: &Universe, class: &ClassTree, tree: &FeatureDecl) -> bool
    ensures { result ≡ rules.has_literal_type (classes_of u.now) (class_view class.now)
        (kind_view tree.now.kind) (option_map type_view tree.now.result) }
{
    match &tree.kind {
        FeatureKind::Constant(value) => match &tree.result {
            Some(type_tree) => is_literal_type(u, class, value, type_tree),
            None => false,
        },
        _ => true,
    }
}

/// Whether the type is that of the literal, which is attached.
fn is_literal_type(u: &Universe, class: &ClassTree, value: &Literal, type_tree: &TypeTree) -> bool
    ensures { result ≡ rules.is_literal_type (classes_of u.now) (class_view class.now) value.now
        (type_view type_tree.now) }
{
    if is_formal(class, &type_tree.name) {
        return false;
    }
    if !is_attached(type_tree.mark) {
        return false;
    }
    if !is_bare(&type_tree.actuals) {
        return false;
    }
    denotes(u, &type_tree.name, literal_class(value))
}

fn is_bare(actuals: &[TypeTree]) -> bool
    ensures { result ≡ (length actuals.now == 0) }
{
    actuals.is_empty()
}

fn is_formal(class: &ClassTree, name: &Name) -> bool
    ensures { result ≡ list_any (λ f. bytes_eq f.name name.now) class.now.formals.items }
{
    class.formals.iter().any(|formal| formal.name == *name)
}

/// Whether the name is that of the class with the number.
fn denotes(u: &Universe, name: &Name, class_id: ClassId) -> bool
    ensures { result
        ≡ option_map_or (λ k. k == class_id.0) (class_number (classes_of u.now) name.now) false }
{
    match u.class_named(name) {
        Some(found) => found.0 == class_id.0,
        None => false,
    }
}

fn literal_class(value: &Literal) -> ClassId
    ensures { result.0 ≡ rules.literal_class value.now }
{
    match value {
        Literal::Int(_) => INTEGER,
        Literal::Char(_) => CHARACTER,
        Literal::Text(_) => STRING,
        Literal::Bool(_) => BOOLEAN,
    }
}

/// Whether a class type with that mark is attached.
fn is_attached(mark: Mark) -> bool
    ensures { result ≡ is_attached_mark mark }
{
    match mark {
        Mark::Plain | Mark::Attached => true,
        Mark::Detachable => false,
    }
}
