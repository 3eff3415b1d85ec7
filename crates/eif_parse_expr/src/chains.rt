//! Calls: chains of names with dots between, and their arguments.

ghost use Rattle.std.specs.Prelude.{◌≡◌, ◌≤◌, ◌<◌, drop, length, IfOk};
ghost use Rattle.eif_tree.specs.Height as tall;
ghost use Rattle.eif_tree.specs.View.{expr_view};
ghost use Rattle.eif_grammar.specs.Goals as goal;
ghost use Rattle.eif_grammar.specs.Outcomes.{Calls, Runs};
ghost use Rattle.eif_parse_expr.specs.Readings.{Reads, exs_view};
ghost use Rattle.eif_parse_expr.specs.Subrules as rule;

use crate::expressions::expression;
use crate::look::{behind, expect, name_behind};
use crate::parsed::{Parsed, PartError};
use crate::primaries::primary;
use eif_base::Place;
use eif_grammar::Terminal;
use eif_lex::Tokens;
use eif_tree::builders::{precursor, qualified};
use eif_tree::{Expr, NameAt, place_of};
use std::alloc::Global;

/// What stands behind a created type or target: a creation procedure, if one is named, and its
/// arguments.
#[derive(Drop)]
pub struct CreatorCall {
    pub name: Option<NameAt>,
    pub args: Vec<Expr>,
}

/// A value or a call, and the calls on it.
#[cycle(expressions)]
pub fn chain(
    alloc: Global,
    tokens: &Tokens<'_>,
    from: u32,
    room: u32,
) -> Result<Parsed<Expr>, PartError>
    requires start { from ≤ length tokens.now.tokens }
    requires some { 1 ≤ room }
    ensures reads { Reads (Calls (goal.expression_goal (goal.chain room)) (drop from tokens.now.tokens)) expr_view tokens.now.tokens from result }
    ensures height { IfOk result (λ x. x.height ≡ tall.height (expr_view x.tree)) }
    ensures low { IfOk result (λ x. x.height ≤ room) }
{
    let first = primary(alloc, tokens, from, room)?;
    dots(alloc, tokens, first, room)
}

/// What goes on behind a target: calls with dots, or nothing.
#[cycle(expressions)]
pub fn dots(
    alloc: Global,
    tokens: &Tokens<'_>,
    first: Parsed<Expr>,
    room: u32,
) -> Result<Parsed<Expr>, PartError>
    requires start { first.next ≤ length tokens.now.tokens }
    requires some { 1 ≤ room }
    requires height { first.height ≡ tall.height (expr_view first.tree) }
    requires low { first.height ≤ room }
    ensures reads { Reads (Calls (goal.expression_goal (goal.dots room (expr_view first.tree))) (drop first.next tokens.now.tokens)) expr_view tokens.now.tokens first.next result }
    ensures height { IfOk result (λ x. x.height ≡ tall.height (expr_view x.tree)) }
    ensures low { IfOk result (λ x. x.height ≤ room) }
{
    let mut left = first;
    'links: loop {
        let Some(start) = behind(tokens, left.next, Terminal::Dot) else {
            return Ok(left);
        };
        if left.height >= room {
            return Err(PartError::At(left.next));
        }
        left = link(alloc, tokens, start, room, left)?;
    }
}

/// The call behind a target and its dot.
#[cycle(expressions)]
fn link(
    alloc: Global,
    tokens: &Tokens<'_>,
    from: u32,
    room: u32,
    target: Parsed<Expr>,
) -> Result<Parsed<Expr>, PartError>
    requires start { from ≤ length tokens.now.tokens }
    requires height { target.height ≡ tall.height (expr_view target.tree) }
    requires low { target.height < room }
    ensures reads { Reads (Runs (rule.link room (expr_view target.tree)) (drop from tokens.now.tokens)) expr_view tokens.now.tokens from result }
    ensures height { IfOk result (λ x. x.height ≡ tall.height (expr_view x.tree)) }
    ensures low { IfOk result (λ x. x.height ≤ room) }
    ensures higher { IfOk result (λ x. target.height < x.height) }
{
    let name = name_behind(alloc, tokens, from)?;
    let args = arguments(alloc, tokens, name.next, room)?;
    let height = target.height.max(args.height) + 1;
    let place = place_of(&target.tree);
    let tree = qualified(alloc, place, target.tree, name.tree, args.tree)?;
    Ok(Parsed {
        tree,
        next: args.next,
        height,
    })
}

/// The same as `dots`, with at least one dot.
pub fn dotted(
    alloc: Global,
    tokens: &Tokens<'_>,
    first: Parsed<Expr>,
    room: u32,
) -> Result<Parsed<Expr>, PartError>
    requires start { first.next ≤ length tokens.now.tokens }
    requires some { 1 ≤ room }
    requires height { first.height ≡ tall.height (expr_view first.tree) }
    requires low { first.height ≤ room }
    ensures reads { Reads (Calls (goal.expression_goal (goal.dotted room (expr_view first.tree))) (drop first.next tokens.now.tokens)) expr_view tokens.now.tokens first.next result }
    ensures height { IfOk result (λ x. x.height ≡ tall.height (expr_view x.tree)) }
    ensures low { IfOk result (λ x. x.height ≤ room) }
{
    if first.height >= room {
        return Err(PartError::At(first.next));
    }
    let start = expect(tokens, first.next, Terminal::Dot)?;
    let left = link(alloc, tokens, start, room, first)?;
    dots(alloc, tokens, left, room)
}

/// The parent behind `Precursor`, if one is named.
fn parent_name(
    alloc: Global,
    tokens: &Tokens<'_>,
    from: u32,
) -> Result<Parsed<Option<NameAt>>, PartError>
    requires { from ≤ length tokens.now.tokens }
    ensures { Reads (Runs rule.parent_name (drop from tokens.now.tokens)) (λ n. n) tokens.now.tokens from result }
{
    let Some(start) = behind(tokens, from, Terminal::OpenBrace) else {
        return Ok(Parsed {
            tree: None,
            next: from,
            height: 0,
        });
    };
    let name = name_behind(alloc, tokens, start)?;
    let next = expect(tokens, name.next, Terminal::CloseBrace)?;
    Ok(Parsed {
        tree: Some(name.tree),
        next,
        height: 0,
    })
}

/// What stands behind the word `Precursor` at that place.
#[cycle(expressions)]
pub fn precursor_rest(
    alloc: Global,
    tokens: &Tokens<'_>,
    from: u32,
    room: u32,
    place: Place,
) -> Result<Parsed<Expr>, PartError>
    requires start { from ≤ length tokens.now.tokens }
    requires some { 1 ≤ room }
    ensures reads { Reads (Calls (goal.expression_goal (goal.precursor_rest room place)) (drop from tokens.now.tokens)) expr_view tokens.now.tokens from result }
    ensures height { IfOk result (λ x. x.height ≡ tall.height (expr_view x.tree)) }
    ensures low { IfOk result (λ x. x.height ≤ room) }
{
    let parent = parent_name(alloc, tokens, from)?;
    let args = arguments(alloc, tokens, parent.next, room)?;
    Ok(Parsed {
        tree: precursor(place, parent.tree, args.tree),
        next: args.next,
        height: args.height + 1,
    })
}

/// What stands behind a created type or target. Its height is that of its arguments.
#[cycle(expressions)]
pub fn creator(
    alloc: Global,
    tokens: &Tokens<'_>,
    from: u32,
    room: u32,
) -> Result<Parsed<CreatorCall>, PartError>
    requires start { from ≤ length tokens.now.tokens }
    requires some { 1 ≤ room }
    ensures reads { Reads (Calls (goal.expression_goal (goal.creator room)) (drop from tokens.now.tokens)) rule.creator_view tokens.now.tokens from result }
    ensures height { IfOk result (λ x. x.height ≡ tall.heights (exs_view x.tree.args)) }
    ensures low { IfOk result (λ x. x.height < room) }
{
    let Some(start) = behind(tokens, from, Terminal::Dot) else {
        return Ok(Parsed {
            tree: CreatorCall {
                name: None,
                args: Vec::new(alloc),
            },
            next: from,
            height: 0,
        });
    };
    let name = name_behind(alloc, tokens, start)?;
    let args = arguments(alloc, tokens, name.next, room)?;
    Ok(Parsed {
        tree: CreatorCall {
            name: Some(name.tree),
            args: args.tree,
        },
        next: args.next,
        height: args.height,
    })
}

/// Arguments, if there are any. Their height is that of the highest.
#[cycle(expressions)]
pub fn arguments(
    alloc: Global,
    tokens: &Tokens<'_>,
    from: u32,
    room: u32,
) -> Result<Parsed<Vec<Expr>>, PartError>
    requires start { from ≤ length tokens.now.tokens }
    requires some { 1 ≤ room }
    ensures reads { Reads (Calls (goal.expression_goal (goal.arguments room)) (drop from tokens.now.tokens)) exs_view tokens.now.tokens from result }
    ensures height { IfOk result (λ x. x.height ≡ tall.heights (exs_view x.tree)) }
    ensures low { IfOk result (λ x. x.height < room) }
{
    let Some(start) = behind(tokens, from, Terminal::OpenParenthesis) else {
        return Ok(Parsed {
            tree: Vec::new(alloc),
            next: from,
            height: 0,
        });
    };
    if room == 1 {
        return Err(PartError::At(from));
    }
    let all = listed(alloc, tokens, start, room - 1)?;
    let next = expect(tokens, all.next, Terminal::CloseParenthesis)?;
    Ok(Parsed {
        tree: all.tree,
        next,
        height: all.height,
    })
}

/// One expression or more, with commas between.
#[cycle(expressions)]
fn listed(
    alloc: Global,
    tokens: &Tokens<'_>,
    from: u32,
    room: u32,
) -> Result<Parsed<Vec<Expr>>, PartError>
    requires start { from ≤ length tokens.now.tokens }
    requires some { 1 ≤ room }
    ensures reads { Reads (Calls (goal.expression_goal (goal.listed room)) (drop from tokens.now.tokens)) exs_view tokens.now.tokens from result }
    ensures height { IfOk result (λ x. x.height ≡ tall.heights (exs_view x.tree)) }
    ensures low { IfOk result (λ x. x.height ≤ room) }
{
    let mut tree = Vec::new(alloc);
    let mut next = from;
    let mut height = 0;
    'items: loop {
        let one = expression(alloc, tokens, next, room, 1)?;
        height = one.height.max(height);
        tree.push(one.tree)?;
        next = one.next;
        let Some(start) = behind(tokens, next, Terminal::Comma) else {
            return Ok(Parsed { tree, next, height });
        };
        next = start;
    }
}
