//! Parents, and the clauses that change what is inherited.

ghost use Rattle.std.specs.Prelude.{◌≡◌, ◌≤◌, ◌==◌, drop, length, Some};
ghost use Rattle.std.specs.Option.{option_map};
ghost use Rattle.eif_tree.specs.View.{export_view, parent_view};
ghost use Rattle.eif_grammar.specs.ClassRules as rules;
ghost use Rattle.eif_grammar.specs.Goals as goal;
ghost use Rattle.eif_grammar.specs.Outcomes.{Calls, Runs};
ghost use Rattle.eif_grammar.specs.SpelledClasses.{clause_length};
ghost use Rattle.eif_grammar.specs.Spelling.{head};
ghost use Rattle.eif_parse.specs.ClassSubrules as rule;
ghost use Rattle.eif_parse_expr.specs.Readings.{Reads};

use crate::heads::clients;
use crate::names::names;
use eif_base::limits::MOST_HEIGHT;
use eif_grammar::Terminal;
use eif_lex::Tokens;
use eif_parse_expr::look::{after, behind, expect, is_at, name_behind, place_at};
use eif_parse_expr::{Parsed, PartError, semis, unmarked_type};
use eif_tree::class_builders::{written_export, written_parent};
use eif_tree::{ExportItem, ParentClause, RenamePair};
use std::alloc::Global;

/// The kinds of clauses of an adaptation.
#[derive(Clone, Copy)]
pub enum ClauseKind {
    Rename,
    Export,
    Undefine,
    Redefine,
    Select,
}

fn rename(alloc: Global, tokens: &Tokens<'_>, from: u32) -> Result<Parsed<RenamePair>, PartError>
    requires { from ≤ length tokens.now.tokens }
    ensures { Reads (Calls (goal.class_goal goal.rename) (drop from tokens.now.tokens)) (λ r. r) tokens.now.tokens from result }
{
    let old_name = name_behind(alloc, tokens, from)?;
    let start = expect(tokens, old_name.next, Terminal::As)?;
    let new_name = name_behind(alloc, tokens, start)?;
    Ok(Parsed {
        tree: RenamePair {
            old_name: old_name.tree,
            new_name: new_name.tree,
        },
        next: new_name.next,
        height: 0,
    })
}

/// One renaming or more, with commas between.
fn renames(
    alloc: Global,
    tokens: &Tokens<'_>,
    from: u32,
) -> Result<Parsed<Vec<RenamePair>>, PartError>
    requires { from ≤ length tokens.now.tokens }
    ensures { Reads (Calls (goal.class_goal goal.renames) (drop from tokens.now.tokens)) rule.renames_view tokens.now.tokens from result }
{
    let mut tree = Vec::new(alloc);
    let mut next = from;
    'pairs: loop {
        let one = rename(alloc, tokens, next)?;
        tree.push(one.tree)?;
        next = one.next;
        let Some(start) = behind(tokens, next, Terminal::Comma) else {
            return Ok(Parsed {
                tree,
                next,
                height: 0,
            });
        };
        next = start;
    }
}

/// Clients, and the features that they get: all, or those that are named.
fn export(alloc: Global, tokens: &Tokens<'_>, from: u32) -> Result<Parsed<ExportItem>, PartError>
    requires { from ≤ length tokens.now.tokens }
    ensures { Reads (Calls (goal.class_goal goal.export) (drop from tokens.now.tokens)) export_view tokens.now.tokens from result }
{
    let clients = clients(alloc, tokens, from)?;
    if let Some(next) = behind(tokens, clients.next, Terminal::All) {
        let all = Some(place_at(tokens, clients.next));
        return Ok(Parsed {
            tree: written_export(clients.tree, all, Vec::new(alloc)),
            next,
            height: 0,
        });
    }
    let names = names(alloc, tokens, clients.next)?;
    Ok(Parsed {
        tree: written_export(clients.tree, None, names.tree),
        next: names.next,
        height: 0,
    })
}

/// One such item or more.
fn exports(
    alloc: Global,
    tokens: &Tokens<'_>,
    from: u32,
) -> Result<Parsed<Vec<ExportItem>>, PartError>
    requires { from ≤ length tokens.now.tokens }
    ensures { Reads (Calls (goal.class_goal goal.exports) (drop from tokens.now.tokens)) rule.exports_view tokens.now.tokens from result }
{
    let mut tree = Vec::new(alloc);
    let mut next = from;
    'items: loop {
        let one = export(alloc, tokens, next)?;
        tree.push(one.tree)?;
        next = semis(tokens, one.next);
        if !is_at(tokens, next, Terminal::OpenBrace) {
            return Ok(Parsed {
                tree,
                next,
                height: 0,
            });
        }
    }
}

/// The kind of clause that the terminal begins.
fn clause_start(terminal: Terminal) -> Option<ClauseKind>
    ensures { option_map rule.clause_of result ≡ rules.clause_start terminal }
{
    match terminal {
        Terminal::Rename => Some(ClauseKind::Rename),
        Terminal::Export => Some(ClauseKind::Export),
        Terminal::Undefine => Some(ClauseKind::Undefine),
        Terminal::Redefine => Some(ClauseKind::Redefine),
        Terminal::Select => Some(ClauseKind::Select),
        _ => None,
    }
}

/// Whether no clause of that kind stands before.
fn is_first(parent: &ParentClause, kind: ClauseKind) -> bool
    ensures { result ≡ (clause_length (parent_view parent.now) (rule.clause_of kind) == 0) }
{
    match kind {
        ClauseKind::Rename => parent.renames.is_empty(),
        ClauseKind::Export => parent.exports.is_empty(),
        ClauseKind::Undefine => parent.undefines.is_empty(),
        ClauseKind::Redefine => parent.redefines.is_empty(),
        ClauseKind::Select => parent.selects.is_empty(),
    }
}

/// What a clause says, behind its word.
fn clause_body(
    alloc: Global,
    tokens: &Tokens<'_>,
    from: u32,
    parent: ParentClause,
    kind: ClauseKind,
) -> Result<Parsed<ParentClause>, PartError>
    requires { from ≤ length tokens.now.tokens }
    ensures { Reads (Runs (rule.clause_body (parent_view parent) (rule.clause_of kind)) (drop from tokens.now.tokens)) parent_view tokens.now.tokens from result }
{
    let mut tree = parent;
    let next = match kind {
        ClauseKind::Rename => {
            let all = renames(alloc, tokens, from)?;
            tree.renames = all.tree;
            all.next
        }
        ClauseKind::Export => {
            let all = exports(alloc, tokens, from)?;
            tree.exports = all.tree;
            all.next
        }
        ClauseKind::Undefine => {
            let all = names(alloc, tokens, from)?;
            tree.undefines = all.tree;
            all.next
        }
        ClauseKind::Redefine => {
            let all = names(alloc, tokens, from)?;
            tree.redefines = all.tree;
            all.next
        }
        ClauseKind::Select => {
            let all = names(alloc, tokens, from)?;
            tree.selects = all.tree;
            all.next
        }
    };
    Ok(Parsed {
        tree,
        next,
        height: 0,
    })
}

/// A clause of that kind, of which each stands at most once.
fn clause(
    alloc: Global,
    tokens: &Tokens<'_>,
    from: u32,
    parent: ParentClause,
    kind: ClauseKind,
) -> Result<Parsed<ParentClause>, PartError>
    requires start { from ≤ length tokens.now.tokens }
    requires begins { rules.clause_start (head (drop from tokens.now.tokens)) ≡ Some (rule.clause_of kind) }
    ensures { Reads (Runs (rule.clause (parent_view parent)) (drop from tokens.now.tokens)) parent_view tokens.now.tokens from result }
{
    if !is_first(&parent, kind) {
        return Err(PartError::At(from));
    }
    clause_body(alloc, tokens, after(tokens, from), parent, kind)
}

/// The clauses that follow, and the `end` behind them.
fn more_clauses(
    alloc: Global,
    tokens: &Tokens<'_>,
    from: u32,
    parent: ParentClause,
) -> Result<Parsed<ParentClause>, PartError>
    requires { from ≤ length tokens.now.tokens }
    ensures { Reads (Calls (goal.class_goal (goal.more_clauses (parent_view parent))) (drop from tokens.now.tokens)) parent_view tokens.now.tokens from result }
{
    let mut tree = parent;
    let mut next = from;
    'clauses: while let Some(kind) = clause_start(tokens.next_terminal(next)) {
        let one = clause(alloc, tokens, next, tree, kind)?;
        tree = one.tree;
        next = one.next;
    }
    let next = expect(tokens, next, Terminal::End)?;
    Ok(Parsed {
        tree,
        next,
        height: 0,
    })
}

/// A parent, and what is changed of it.
fn parent(alloc: Global, tokens: &Tokens<'_>, from: u32) -> Result<Parsed<ParentClause>, PartError>
    requires { from ≤ length tokens.now.tokens }
    ensures { Reads (Calls (goal.class_goal goal.parent) (drop from tokens.now.tokens)) parent_view tokens.now.tokens from result }
{
    let named = unmarked_type(alloc, tokens, from, MOST_HEIGHT)?;
    let unchanged = written_parent(
        named.tree,
        Vec::new(alloc),
        Vec::new(alloc),
        Vec::new(alloc),
        Vec::new(alloc),
        Vec::new(alloc),
    );
    if clause_start(tokens.next_terminal(named.next)).is_some() {
        return more_clauses(alloc, tokens, named.next, unchanged);
    }
    Ok(Parsed {
        tree: unchanged,
        next: named.next,
        height: 0,
    })
}

/// The parents behind `inherit`, of which there is at least one.
fn parent_list(
    alloc: Global,
    tokens: &Tokens<'_>,
    from: u32,
) -> Result<Parsed<Vec<ParentClause>>, PartError>
    requires { from ≤ length tokens.now.tokens }
    ensures { Reads (Runs rules.parents_from (drop from tokens.now.tokens)) rule.parents_view tokens.now.tokens from result }
{
    let mut tree = Vec::new(alloc);
    let mut next = from;
    'parents: loop {
        let one = parent(alloc, tokens, next)?;
        tree.push(one.tree)?;
        next = semis(tokens, one.next);
        if !is_at(tokens, next, Terminal::Identifier) {
            return Ok(Parsed {
                tree,
                next,
                height: 0,
            });
        }
    }
}

/// The parents, if there are any.
pub fn parents(
    alloc: Global,
    tokens: &Tokens<'_>,
    from: u32,
) -> Result<Parsed<Vec<ParentClause>>, PartError>
    requires { from ≤ length tokens.now.tokens }
    ensures { Reads (Calls (goal.class_goal goal.parents) (drop from tokens.now.tokens)) rule.parents_view tokens.now.tokens from result }
{
    match behind(tokens, from, Terminal::Inherit) {
        Some(start) => parent_list(alloc, tokens, start),
        None => Ok(Parsed {
            tree: Vec::new(alloc),
            next: from,
            height: 0,
        }),
    }
}
