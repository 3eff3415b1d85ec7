//! The outermost types that a class text writes, lent.

ghost use Rattle.std.specs.Prelude.{◌≡◌, ◌++◌, map, flat_map, IfOk, OnOk};
ghost use Rattle.eif_system.specs.WrittenTypes as the;
ghost use Rattle.eif_tree.specs.View.{class_view, decl_view, features_view, formal_view, group_view, kind_view, parent_view};
ghost use Rattle.eif_written.specs.LentTypes.{lent_type, owner_name, written_view};

use crate::outermost::{push_of_claims, push_of_compound, push_present};
use eif_base::{Memory, Name};
use eif_tree::{
    ClassTree, FeatureClause, FeatureDecl, FeatureKind, FormalTree, Group, NameAt, ParentClause,
    TypeTree,
};
use std::alloc::Global;

/// In what a type stands: in no feature, in the feature of that name, or in the class invariant.
#[derive(Clone, Copy)]
pub enum Owner<'t> {
    Class,
    Feature(&'t Name),
    Invariant,
}

impl<'t> Owner<'t> {
    /// The declaration of features with these names.
    fn named(names: &'t [NameAt]) -> Owner<'t>
        ensures { owner_name result ≡ the.feature_name names.now }
    {
        match names.first() {
            Some(first) => Owner::Feature(&first.name),
            None => Owner::Class,
        }
    }

    /// The name that faults are told of.
    pub fn name(&self, alloc: Global) -> Result<Name, Memory>
        ensures { IfOk result (λ n. n ≡ owner_name self.now) }
    {
        match self {
            Owner::Class => Name::from_bytes(alloc, b""),
            Owner::Feature(name) => name.copy(alloc),
            Owner::Invariant => Name::from_bytes(alloc, b"invariant"),
        }
    }
}

/// A type as it is written, and in what.
#[derive(Clone, Copy)]
pub struct WrittenType<'t> {
    pub owner: Owner<'t>,
    pub type_tree: &'t TypeTree,
}

fn push_of_groups<'t>(out: &mut Vec<&'t TypeTree>, groups: &'t [Group]) -> Result<(), Memory>
    ensures { OnOk result (map lent_type out.new.items
        ≡ map lent_type out.old.items ++ the.types_of_groups (map group_view groups.now)) }
{
    'groups: for group in groups {
        out.push(&group.type_tree)?;
    }
    Ok(())
}

fn push_of_kind<'t>(out: &mut Vec<&'t TypeTree>, kind: &'t FeatureKind) -> Result<(), Memory>
    ensures { OnOk result (map lent_type out.new.items
        ≡ map lent_type out.old.items ++ the.types_of_kind (kind_view kind.now)) }
{
    match kind {
        FeatureKind::Routine { locals, body } => {
            push_of_groups(out, locals)?;
            push_of_compound(out, body)
        }
        _ => Ok(()),
    }
}

fn push_of_declaration<'t>(out: &mut Vec<&'t TypeTree>, decl: &'t FeatureDecl) -> Result<(), Memory>
    ensures { OnOk result (map lent_type out.new.items
        ≡ map lent_type out.old.items ++ the.types_of_declaration (decl_view decl.now)) }
{
    push_of_groups(out, &decl.arguments)?;
    push_present(out, &decl.result)?;
    push_of_claims(out, &decl.preconditions)?;
    push_of_kind(out, &decl.kind)?;
    push_of_claims(out, &decl.postconditions)
}

fn push_of_constraints<'t>(
    out: &mut Vec<&'t TypeTree>,
    formals: &'t [FormalTree],
) -> Result<(), Memory>
    ensures { OnOk result (map lent_type out.new.items
        ≡ map lent_type out.old.items
        ++ flat_map (λ f. the.present f.constraint) (map formal_view formals.now)) }
{
    'formals: for formal in formals {
        push_present(out, &formal.constraint)?;
    }
    Ok(())
}

fn push_of_parents<'t>(
    out: &mut Vec<&'t TypeTree>,
    parents: &'t [ParentClause],
) -> Result<(), Memory>
    ensures { OnOk result (map lent_type out.new.items
        ≡ map lent_type out.old.items ++ map (λ p. p.parent) (map parent_view parents.now)) }
{
    'parents: for clause in parents {
        out.push(&clause.parent)?;
    }
    Ok(())
}

/// Adds these types, which stand in the owner.
fn push_written<'t>(
    out: &mut Vec<WrittenType<'t>>,
    owner: Owner<'t>,
    types: &[&'t TypeTree],
) -> Result<(), Memory>
    ensures { OnOk result (map written_view out.new.items
        ≡ map written_view out.old.items
        ++ map (the.written (owner_name owner.entry)) (map lent_type types.now)) }
{
    'types: for type_tree in types {
        out.push(WrittenType { owner, type_tree })?;
    }
    Ok(())
}

fn push_written_in<'t>(
    alloc: Global,
    out: &mut Vec<WrittenType<'t>>,
    decl: &'t FeatureDecl,
) -> Result<(), Memory>
    ensures { OnOk result (map written_view out.new.items
        ≡ map written_view out.old.items ++ the.written_in (decl_view decl.now)) }
{
    let mut types = Vec::new(alloc);
    push_of_declaration(&mut types, decl)?;
    push_written(out, Owner::named(&decl.names), &types)
}

fn push_written_in_all<'t>(
    alloc: Global,
    out: &mut Vec<WrittenType<'t>>,
    decls: &'t [FeatureDecl],
) -> Result<(), Memory>
    ensures { OnOk result (map written_view out.new.items
        ≡ map written_view out.old.items ++ flat_map the.written_in (map decl_view decls.now)) }
{
    'decls: for decl in decls {
        push_written_in(alloc, out, decl)?;
    }
    Ok(())
}

fn push_written_in_parts<'t>(
    alloc: Global,
    out: &mut Vec<WrittenType<'t>>,
    parts: &'t [FeatureClause],
) -> Result<(), Memory>
    ensures { OnOk result (map written_view out.new.items
        ≡ map written_view out.old.items
        ++ flat_map the.written_in (flat_map (λ part. part.decls) (map features_view parts.now))) }
{
    'parts: for part in parts {
        push_written_in_all(alloc, out, &part.decls)?;
    }
    Ok(())
}

/// The written types of a class: of the constraints and parents, of the features, and of the
/// invariant.
pub fn written_types<'t>(
    alloc: Global,
    class: &'t ClassTree,
) -> Result<Vec<WrittenType<'t>>, Memory>
    ensures { IfOk result (λ v. map written_view v.items
        ≡ the.written_types (class_view class.now)) }
{
    let mut of_head = Vec::new(alloc);
    push_of_constraints(&mut of_head, &class.formals)?;
    push_of_parents(&mut of_head, &class.parents)?;
    let mut of_invariant = Vec::new(alloc);
    push_of_claims(&mut of_invariant, &class.invariants)?;
    let mut out = Vec::new(alloc);
    push_written(&mut out, Owner::Class, &of_head)?;
    push_written_in_parts(alloc, &mut out, &class.features)?;
    push_written(&mut out, Owner::Invariant, &of_invariant)?;
    Ok(out)
}
