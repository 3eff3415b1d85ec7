//! The names of a class text, by their parts.

ghost use Rattle.std.specs.Prelude.{◌≡◌, ◌++◌, map, flat_map, IfOk, OnOk};
ghost use Rattle.eif_tree.specs.Members as parts;
ghost use Rattle.eif_tree.specs.View.{class_view, creators_view, decl_view, features_view, kind_view, inss_from, instr_view};
ghost use Rattle.eif_check.specs.Mentions.{name_at, IsNameSet};
ghost use Rattle.eif_system_rules.specs.PlainClasses as plain;

use eif_base::{Memory, Name, NameSet, Place};
use eif_tree::{
    ClassTree, CreatorPart, ExprKind, FeatureClause, FeatureDecl, FeatureKind, Instr, NameAt,
};
use std::alloc::Global;

/// A name where it stands.
#[derive(Clone, Copy)]
pub struct Mention<'t> {
    pub place: Place,
    pub name: &'t Name,
}

/// Whether one of them has that name.
pub fn has_name(names: &[Mention<'_>], name: &Name) -> bool
    ensures { result ≡ parts.has_name (map name_at names.now) name.now }
{
    'names: for mention in names {
        if mention.name == name {
            return true;
        }
    }
    false
}

/// The set of the names.
pub fn name_set(alloc: Global, names: &[Mention<'_>]) -> Result<NameSet, Memory>
    ensures { IfOk result (λ s. IsNameSet s (map name_at names.now)) }
{
    let mut set = NameSet::new(alloc);
    'names: for mention in names {
        set.insert(mention.name)?;
    }
    Ok(set)
}

fn push_names<'t>(out: &mut Vec<Mention<'t>>, names: &'t [NameAt]) -> Result<(), Memory>
    ensures { OnOk result (map name_at out.new.items ≡ map name_at out.old.items ++ names.now) }
{
    'names: for name in names {
        out.push(Mention {
            place: name.place,
            name: &name.name,
        })?;
    }
    Ok(())
}

fn push_declarations<'t>(
    out: &mut Vec<&'t FeatureDecl>,
    decls: &'t [FeatureDecl],
) -> Result<(), Memory>
    ensures { OnOk result (map (λ d. decl_view d.now) out.new.items
        ≡ map (λ d. decl_view d.now) out.old.items ++ map decl_view decls.now) }
{
    'decls: for decl in decls {
        out.push(decl)?;
    }
    Ok(())
}

/// The declarations of a class, in the order of its text.
pub fn declarations<'t>(alloc: Global, tree: &'t ClassTree) -> Result<Vec<&'t FeatureDecl>, Memory>
    ensures { IfOk result (λ v. map (λ d. decl_view d.now) v.items
        ≡ parts.declarations (class_view tree.now)) }
{
    let mut out = Vec::new(alloc);
    'parts: for part in &tree.features {
        push_declarations(&mut out, &part.decls)?;
    }
    Ok(out)
}

/// The names that these declarations declare.
pub fn declared_names<'t>(
    alloc: Global,
    decls: &[&'t FeatureDecl],
) -> Result<Vec<Mention<'t>>, Memory>
    ensures { IfOk result (λ v. map name_at v.items
        ≡ flat_map (λ d. d.names) (map (λ d. decl_view d.now) decls.now)) }
{
    let mut out = Vec::new(alloc);
    'decls: for decl in decls {
        push_names(&mut out, &decl.names)?;
    }
    Ok(out)
}

/// The names of the creators parts.
pub fn creator_names<'t>(alloc: Global, tree: &'t ClassTree) -> Result<Vec<Mention<'t>>, Memory>
    ensures { IfOk result (λ v. map name_at v.items ≡ parts.creator_names (class_view tree.now)) }
{
    let mut out = Vec::new(alloc);
    'parts: for part in &tree.creators {
        push_names(&mut out, &part.names)?;
    }
    Ok(out)
}

fn push_creators_clients<'t>(
    out: &mut Vec<Mention<'t>>,
    parts: &'t [CreatorPart],
) -> Result<(), Memory>
    ensures { OnOk result (map name_at out.new.items ≡ map name_at out.old.items
        ++ flat_map (λ part. part.clients.names) (map creators_view parts.now)) }
{
    'parts: for part in parts {
        push_names(out, &part.clients.names)?;
    }
    Ok(())
}

fn push_features_clients<'t>(
    out: &mut Vec<Mention<'t>>,
    parts: &'t [FeatureClause],
) -> Result<(), Memory>
    ensures { OnOk result (map name_at out.new.items ≡ map name_at out.old.items
        ++ flat_map (λ part. part.clients.names) (map features_view parts.now)) }
{
    'parts: for part in parts {
        push_names(out, &part.clients.names)?;
    }
    Ok(())
}

/// The names of clients, of the creators parts and then of the features parts.
pub fn client_names<'t>(alloc: Global, tree: &'t ClassTree) -> Result<Vec<Mention<'t>>, Memory>
    ensures { IfOk result (λ v. map name_at v.items ≡ plain.client_names (class_view tree.now)) }
{
    let mut out = Vec::new(alloc);
    push_creators_clients(&mut out, &tree.creators)?;
    push_features_clients(&mut out, &tree.features)?;
    Ok(out)
}

fn push_called_by<'t>(out: &mut Vec<Mention<'t>>, instr: &'t Instr) -> Result<(), Memory>
    ensures { OnOk result (map name_at out.new.items
        ≡ map name_at out.old.items ++ parts.called_by (instr_view instr.now)) }
{
    if let Instr::Call { call } = instr {
        if let ExprKind::Unqualified { name, args } = &call.kind {
            if args.is_empty() {
                out.push(Mention {
                    place: call.place,
                    name,
                })?;
            }
        }
    }
    Ok(())
}

fn push_called_in<'t>(out: &mut Vec<Mention<'t>>, body: &'t [Instr]) -> Result<(), Memory>
    ensures { OnOk result (map name_at out.new.items ≡ map name_at out.old.items
        ++ parts.called_in (inss_from (map instr_view body.now))) }
{
    'body: for instr in body {
        push_called_by(out, instr)?;
    }
    Ok(())
}

/// Adds the names that a declaration calls.
pub fn push_called<'t>(out: &mut Vec<Mention<'t>>, decl: &'t FeatureDecl) -> Result<(), Memory>
    ensures { OnOk result (map name_at out.new.items ≡ map name_at out.old.items
        ++ parts.called_in (parts.body_of (kind_view decl.now.kind))) }
{
    match &decl.kind {
        FeatureKind::Routine { body, .. } => push_called_in(out, body),
        _ => Ok(()),
    }
}
