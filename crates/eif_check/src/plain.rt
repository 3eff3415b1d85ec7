//! Plain classes, which are all that this version judges.

ghost use Rattle.std.specs.Prelude.{◌≡◌, true, map, flat_map, IfOk};
ghost use Rattle.std.specs.List.{list_all};
ghost use Rattle.eif_base.specs.Numbering.{is_among};
ghost use Rattle.eif_tree.specs.Members as parts;
ghost use Rattle.eif_tree.specs.View.{assertion_view, class_view, creators_view, decl_view, exs_from, features_view, inss_from, instr_view, kind_view};
ghost use Rattle.eif_check.specs.Mentions.{name_at};
ghost use Rattle.eif_system_rules.specs.PlainClasses as plain;

use crate::mention::{
    Mention, client_names, creator_names, declarations, declared_names, has_name, push_called,
};
use eif_base::{Memory, Name, NameSet};
use eif_tree::{
    Assertion, ClassTree, CreatorPart, ExprKind, FeatureClause, FeatureDecl, FeatureKind, Instr,
};
use std::alloc::Global;

fn no_assertions(claims: &[Assertion]) -> bool
    ensures { result ≡ plain.no_assertions (exs_from (map assertion_view claims.now)) }
{
    claims.is_empty()
}

/// Whether it is an unqualified call without arguments.
fn is_plain_call(instr: &Instr) -> bool
    ensures { result ≡ plain.is_plain_call (instr_view instr.now) }
{
    if let Instr::Call { call } = instr {
        if let ExprKind::Unqualified { args, .. } = &call.kind {
            return args.is_empty();
        }
    }
    false
}

fn has_plain_calls(body: &[Instr]) -> bool
    ensures { result ≡ plain.has_plain_calls (inss_from (map instr_view body.now)) }
{
    'body: for instr in body {
        if !is_plain_call(instr) {
            return false;
        }
    }
    true
}

/// Whether it is a routine without locals whose body has plain calls alone.
fn is_plain_routine(kind: &FeatureKind) -> bool
    ensures { result ≡ plain.is_plain_routine (kind_view kind.now) }
{
    match kind {
        FeatureKind::Routine { locals, body } => locals.is_empty() && has_plain_calls(body),
        _ => false,
    }
}

fn is_plain_declaration(decl: &FeatureDecl) -> bool
    ensures { result ≡ plain.is_plain_declaration (decl_view decl.now) }
{
    decl.names.len() == 1
        && decl.arguments.is_empty()
        && decl.result.is_none()
        && is_plain_routine(&decl.kind)
        && no_assertions(&decl.preconditions)
        && no_assertions(&decl.postconditions)
}

fn are_plain_declarations(decls: &[FeatureDecl]) -> bool
    ensures { result ≡ list_all plain.is_plain_declaration (map decl_view decls.now) }
{
    'decls: for decl in decls {
        if !is_plain_declaration(decl) {
            return false;
        }
    }
    true
}

/// Whether these features parts have plain declarations alone.
fn are_plain_parts(parts: &[FeatureClause]) -> bool
    ensures { result ≡ list_all plain.is_plain_declaration
        (flat_map (λ part. part.decls) (map features_view parts.now)) }
{
    'parts: for part in parts {
        if !are_plain_declarations(&part.decls) {
            return false;
        }
    }
    true
}

/// Whether it is one creators part with one name.
fn is_plain_creation(parts: &[CreatorPart]) -> bool
    ensures { result ≡ plain.is_plain_creation (map creators_view parts.now) }
{
    match parts {
        [part] => part.names.len() == 1,
        _ => false,
    }
}

fn has_plain_form(tree: &ClassTree) -> bool
    ensures { result ≡ plain.has_plain_form (class_view tree.now) }
{
    !tree.is_deferred
        && tree.formals.is_empty()
        && tree.parents.is_empty()
        && is_plain_creation(&tree.creators)
        && are_plain_parts(&tree.features)
        && no_assertions(&tree.invariants)
}

/// Whether no name stands in the list twice.
fn are_distinct(alloc: Global, names: &[Mention<'_>]) -> Result<bool, Memory>
    ensures { IfOk result (λ b. b ≡ plain.are_distinct (map name_at names.now)) }
{
    let mut earlier = NameSet::new(alloc);
    'names: for mention in names {
        if !earlier.insert(mention.name)? {
            return Ok(false);
        }
    }
    Ok(true)
}

fn is_kernel_feature(name: &Name) -> bool
    ensures { result ≡ is_among plain.kernel_features name.now }
{
    let text = name.text();
    text == b"default_create".as_slice() || text == b"out".as_slice() || text == b"print".as_slice()
}

/// Whether no name of the list is that of a kernel feature.
fn names_no_kernel_feature(names: &[Mention<'_>]) -> bool
    ensures { result ≡ plain.names_no_kernel_feature (map name_at names.now) }
{
    'names: for mention in names {
        if is_kernel_feature(mention.name) {
            return false;
        }
    }
    true
}

/// Whether each name of the list is declared.
fn are_declared(names: &[Mention<'_>], declared: &[Mention<'_>]) -> bool
    ensures { result ≡ list_all (λ n. parts.has_name (map name_at declared.now) n.name)
        (map name_at names.now) }
{
    'names: for mention in names {
        if !has_name(declared, mention.name) {
            return false;
        }
    }
    true
}

fn called_names<'t>(alloc: Global, decls: &[&'t FeatureDecl]) -> Result<Vec<Mention<'t>>, Memory>
    ensures { IfOk result (λ v. map name_at v.items
        ≡ plain.called_by_all (map (λ d. decl_view d.now) decls.now)) }
{
    let mut out = Vec::new(alloc);
    'decls: for decl in decls {
        push_called(&mut out, decl)?;
    }
    Ok(out)
}

/// Whether the creators are declared, and no kernel feature is named. The declared names differ.
fn has_plain_names(
    name: &Name,
    creators: &[Mention<'_>],
    declared: &[Mention<'_>],
    called: &[Mention<'_>],
    clients: &[Mention<'_>],
) -> bool
    requires { plain.are_distinct (map name_at declared.now) ≡ true }
    ensures { result ≡ plain.has_plain_names name.now (map name_at creators.now)
        (map name_at declared.now) (map name_at called.now) (map name_at clients.now) }
{
    are_declared(creators, declared)
        && !is_kernel_feature(name)
        && names_no_kernel_feature(creators)
        && names_no_kernel_feature(declared)
        && names_no_kernel_feature(called)
        && names_no_kernel_feature(clients)
}

/// Whether the class is plain, by its form and by its names.
pub fn is_plain(alloc: Global, tree: &ClassTree) -> Result<bool, Memory>
    ensures { IfOk result (λ b. b ≡ plain.is_plain (class_view tree.now)) }
{
    if !has_plain_form(tree) {
        return Ok(false);
    }
    let decls = declarations(alloc, tree)?;
    let declared = declared_names(alloc, &decls)?;
    if !are_distinct(alloc, &declared)? {
        return Ok(false);
    }
    let creators = creator_names(alloc, tree)?;
    let called = called_names(alloc, &decls)?;
    let clients = client_names(alloc, tree)?;
    Ok(has_plain_names(&tree.name, &creators, &declared, &called, &clients))
}
