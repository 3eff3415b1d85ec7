//! Features: attributes, constants and routines.

ghost use Rattle.std.specs.Prelude.{◌≡◌, ◌≤◌, drop, length};
ghost use Rattle.eif_tree.specs.View.{decl_view, kind_view, type_view};
ghost use Rattle.eif_grammar.specs.ClassRules as rules;
ghost use Rattle.eif_grammar.specs.Forms as form;
ghost use Rattle.eif_grammar.specs.Goals as goal;
ghost use Rattle.eif_grammar.specs.Outcomes.{Calls, Runs};
ghost use Rattle.eif_parse.specs.ClassSubrules as rule;
ghost use Rattle.eif_parse_expr.specs.Readings.{Reads};

use crate::groups::{formal_arguments, result_type};
use crate::heads::maybe_clients;
use crate::names::names_behind;
use crate::notes::literal;
use crate::routines::routine_rest;
use eif_base::limits::MOST_HEIGHT;
use eif_grammar::Terminal;
use eif_lex::Tokens;
use eif_parse_expr::look::{behind, is_at, name_behind};
use eif_parse_expr::{Parsed, PartError, semis, written_type};
use eif_tree::class_builders::{attribute, constant, written_decl, written_features};
use eif_tree::{FeatureClause, FeatureDecl, FeatureKind, NameAt, TypeTree};
use std::alloc::Global;

/// Attributes or constants of that type.
fn written_attributes(
    alloc: Global,
    names: Vec<NameAt>,
    type_tree: TypeTree,
    kind: FeatureKind,
) -> FeatureDecl
    ensures { decl_view result ≡ rules.attributes names.items (type_view type_tree) (kind_view kind) }
{
    written_decl(
        names,
        Vec::new(alloc),
        Some(type_tree),
        kind,
        Vec::new(alloc),
        Vec::new(alloc),
    )
}

/// The value of constants behind their type, or the end of attributes.
fn value_of(
    alloc: Global,
    tokens: &Tokens<'_>,
    from: u32,
    names: Vec<NameAt>,
    type_tree: TypeTree,
) -> Result<Parsed<FeatureDecl>, PartError>
    requires { from ≤ length tokens.now.tokens }
    ensures { Reads (Runs (rules.value_of names.items (type_view type_tree)) (drop from tokens.now.tokens)) decl_view tokens.now.tokens from result }
{
    let Some(start) = behind(tokens, from, Terminal::Equal) else {
        return Ok(Parsed {
            tree: written_attributes(alloc, names, type_tree, attribute()),
            next: from,
            height: 0,
        });
    };
    let value = literal(alloc, tokens, start)?;
    Ok(Parsed {
        tree: written_attributes(alloc, names, type_tree, constant(value.tree)),
        next: value.next,
        height: 0,
    })
}

/// Attributes or constants, behind the comma after their first name.
fn several(
    alloc: Global,
    tokens: &Tokens<'_>,
    from: u32,
    first: NameAt,
) -> Result<Parsed<FeatureDecl>, PartError>
    requires { from ≤ length tokens.now.tokens }
    ensures { Reads (Runs (rules.several first) (drop from tokens.now.tokens)) decl_view tokens.now.tokens from result }
{
    let second = name_behind(alloc, tokens, from)?;
    let both = vec![in alloc; first, second.tree]?;
    let names = names_behind(alloc, tokens, second.next, both)?;
    let written = written_type(alloc, tokens, names.next, MOST_HEIGHT)?;
    value_of(alloc, tokens, written.next, names.tree, written.tree)
}

fn begins_routine(terminal: Terminal) -> bool
    ensures { result ≡ form.begins_routine terminal }
{
    matches!(
        terminal,
        Terminal::Obsolete | Terminal::Require | Terminal::Local | Terminal::Do | Terminal::Deferred
    )
}

/// A function without arguments, an attribute or a constant, behind the colon after its name.
fn typed(
    alloc: Global,
    tokens: &Tokens<'_>,
    from: u32,
    name: NameAt,
) -> Result<Parsed<FeatureDecl>, PartError>
    requires { from ≤ length tokens.now.tokens }
    ensures { Reads (Runs (rules.typed name) (drop from tokens.now.tokens)) decl_view tokens.now.tokens from result }
{
    let written = written_type(alloc, tokens, from, MOST_HEIGHT)?;
    if begins_routine(tokens.next_terminal(written.next)) {
        let no_arguments = Vec::new(alloc);
        let function = Some(written.tree);
        return routine_rest(alloc, tokens, written.next, name, no_arguments, function);
    }
    let names = vec![in alloc; name]?;
    value_of(alloc, tokens, written.next, names, written.tree)
}

/// A routine behind its name.
fn routine_from(
    alloc: Global,
    tokens: &Tokens<'_>,
    from: u32,
    name: NameAt,
) -> Result<Parsed<FeatureDecl>, PartError>
    requires { from ≤ length tokens.now.tokens }
    ensures { Reads (Runs (rules.routine_from name) (drop from tokens.now.tokens)) decl_view tokens.now.tokens from result }
{
    let arguments = formal_arguments(alloc, tokens, from)?;
    let written = result_type(alloc, tokens, arguments.next)?;
    let end = written.next;
    routine_rest(alloc, tokens, end, name, arguments.tree, written.tree)
}

/// A declaration of features.
fn declaration(
    alloc: Global,
    tokens: &Tokens<'_>,
    from: u32,
) -> Result<Parsed<FeatureDecl>, PartError>
    requires { from ≤ length tokens.now.tokens }
    ensures { Reads (Calls (goal.class_goal goal.declaration) (drop from tokens.now.tokens)) decl_view tokens.now.tokens from result }
{
    let name = name_behind(alloc, tokens, from)?;
    if let Some(start) = behind(tokens, name.next, Terminal::Comma) {
        return several(alloc, tokens, start, name.tree);
    }
    match behind(tokens, name.next, Terminal::Colon) {
        Some(start) => typed(alloc, tokens, start, name.tree),
        None => routine_from(alloc, tokens, name.next, name.tree),
    }
}

/// All declarations that stand there.
fn declarations(
    alloc: Global,
    tokens: &Tokens<'_>,
    from: u32,
) -> Result<Parsed<Vec<FeatureDecl>>, PartError>
    requires { from ≤ length tokens.now.tokens }
    ensures { Reads (Calls (goal.class_goal goal.declarations) (drop from tokens.now.tokens)) rule.decls_view tokens.now.tokens from result }
{
    let mut tree = Vec::new(alloc);
    let mut next = from;
    'decls: while is_at(tokens, next, Terminal::Identifier) {
        let one = declaration(alloc, tokens, next)?;
        tree.push(one.tree)?;
        next = semis(tokens, one.next);
    }
    Ok(Parsed {
        tree,
        next,
        height: 0,
    })
}

/// All parts with features.
pub fn features(
    alloc: Global,
    tokens: &Tokens<'_>,
    from: u32,
) -> Result<Parsed<Vec<FeatureClause>>, PartError>
    requires { from ≤ length tokens.now.tokens }
    ensures { Reads (Calls (goal.class_goal goal.features) (drop from tokens.now.tokens)) rule.features_parts tokens.now.tokens from result }
{
    let mut tree = Vec::new(alloc);
    let mut next = from;
    'parts: while let Some(start) = behind(tokens, next, Terminal::Feature) {
        let clients = maybe_clients(alloc, tokens, start)?;
        let decls = declarations(alloc, tokens, clients.next)?;
        tree.push(written_features(clients.tree, decls.tree))?;
        next = decls.next;
    }
    Ok(Parsed {
        tree,
        next,
        height: 0,
    })
}
