//! Formal generic parameters, clients and creators parts.

ghost use Rattle.std.specs.Prelude.{◌≤◌, drop, length};
ghost use Rattle.eif_tree.specs.View.{clients_view, formal_view};
ghost use Rattle.eif_grammar.specs.Goals as goal;
ghost use Rattle.eif_grammar.specs.Outcomes.{Calls, Runs};
ghost use Rattle.eif_parse.specs.ClassSubrules as rule;
ghost use Rattle.eif_parse_expr.specs.Readings.{Reads};

use crate::names::names;
use eif_base::limits::MOST_HEIGHT;
use eif_grammar::Terminal;
use eif_lex::Tokens;
use eif_parse_expr::look::{behind, expect, is_at, name_behind};
use eif_parse_expr::{Parsed, PartError, written_type};
use eif_tree::class_builders::{written_clients, written_creators, written_formal};
use eif_tree::{Clients, CreatorPart, FormalTree};
use std::alloc::Global;

/// A formal and its constraint, if it has one.
fn formal(alloc: Global, tokens: &Tokens<'_>, from: u32) -> Result<Parsed<FormalTree>, PartError>
    requires { from ≤ length tokens.now.tokens }
    ensures { Reads (Calls (goal.class_goal goal.formal) (drop from tokens.now.tokens)) formal_view tokens.now.tokens from result }
{
    let name = name_behind(alloc, tokens, from)?;
    let at = name.tree;
    let Some(start) = behind(tokens, name.next, Terminal::Arrow) else {
        return Ok(Parsed {
            tree: written_formal(at.place, at.name, None),
            next: name.next,
            height: 0,
        });
    };
    let constraint = written_type(alloc, tokens, start, MOST_HEIGHT)?;
    Ok(Parsed {
        tree: written_formal(at.place, at.name, Some(constraint.tree)),
        next: constraint.next,
        height: 0,
    })
}

/// One formal or more, with commas between.
fn formal_list(
    alloc: Global,
    tokens: &Tokens<'_>,
    from: u32,
) -> Result<Parsed<Vec<FormalTree>>, PartError>
    requires { from ≤ length tokens.now.tokens }
    ensures { Reads (Runs rule.formal_list (drop from tokens.now.tokens)) rule.formals_view tokens.now.tokens from result }
{
    let mut tree = Vec::new(alloc);
    let mut next = from;
    'formals: loop {
        let one = formal(alloc, tokens, next)?;
        tree.push(one.tree)?;
        next = one.next;
        let Some(start) = behind(tokens, next, Terminal::Comma) else {
            return Ok(Parsed {
                tree,
                next,
                height: 0,
            });
        };
        next = start;
    }
}

/// Formals in their brackets, if there are any.
pub fn formals(
    alloc: Global,
    tokens: &Tokens<'_>,
    from: u32,
) -> Result<Parsed<Vec<FormalTree>>, PartError>
    requires { from ≤ length tokens.now.tokens }
    ensures { Reads (Calls (goal.class_goal goal.formals) (drop from tokens.now.tokens)) rule.formals_view tokens.now.tokens from result }
{
    let Some(start) = behind(tokens, from, Terminal::OpenBracket) else {
        return Ok(Parsed {
            tree: Vec::new(alloc),
            next: from,
            height: 0,
        });
    };
    let all = formal_list(alloc, tokens, start)?;
    let next = expect(tokens, all.next, Terminal::CloseBracket)?;
    Ok(Parsed {
        tree: all.tree,
        next,
        height: 0,
    })
}

/// Clients in their braces.
pub fn clients(alloc: Global, tokens: &Tokens<'_>, from: u32) -> Result<Parsed<Clients>, PartError>
    requires { from ≤ length tokens.now.tokens }
    ensures { Reads (Calls (goal.class_goal goal.clients) (drop from tokens.now.tokens)) clients_view tokens.now.tokens from result }
{
    let start = expect(tokens, from, Terminal::OpenBrace)?;
    if let Some(next) = behind(tokens, start, Terminal::CloseBrace) {
        return Ok(Parsed {
            tree: written_clients(true, Vec::new(alloc)),
            next,
            height: 0,
        });
    }
    let all = names(alloc, tokens, start)?;
    let next = expect(tokens, all.next, Terminal::CloseBrace)?;
    Ok(Parsed {
        tree: written_clients(true, all.tree),
        next,
        height: 0,
    })
}

/// Clients, if they are written.
pub fn maybe_clients(
    alloc: Global,
    tokens: &Tokens<'_>,
    from: u32,
) -> Result<Parsed<Clients>, PartError>
    requires { from ≤ length tokens.now.tokens }
    ensures { Reads (Runs rule.maybe_clients (drop from tokens.now.tokens)) clients_view tokens.now.tokens from result }
{
    if is_at(tokens, from, Terminal::OpenBrace) {
        return clients(alloc, tokens, from);
    }
    Ok(Parsed {
        tree: written_clients(false, Vec::new(alloc)),
        next: from,
        height: 0,
    })
}

/// All creators parts.
pub fn creators(
    alloc: Global,
    tokens: &Tokens<'_>,
    from: u32,
) -> Result<Parsed<Vec<CreatorPart>>, PartError>
    requires { from ≤ length tokens.now.tokens }
    ensures { Reads (Calls (goal.class_goal goal.creators) (drop from tokens.now.tokens)) rule.creators_parts tokens.now.tokens from result }
{
    let mut tree = Vec::new(alloc);
    let mut next = from;
    'parts: while let Some(start) = behind(tokens, next, Terminal::Create) {
        let clients = maybe_clients(alloc, tokens, start)?;
        let names = names(alloc, tokens, clients.next)?;
        tree.push(written_creators(clients.tree, names.tree))?;
        next = names.next;
    }
    Ok(Parsed {
        tree,
        next,
        height: 0,
    })
}
