//! Types, by recursive descent.

ghost use Rattle.std.specs.Prelude.{◌≡◌, ◌≤◌, ◌<◌, drop, length, IfOk};
ghost use Rattle.eif_tree.specs.Height as tall;
ghost use Rattle.eif_tree.specs.declared.Mark.TheVariants.{Plain};
ghost use Rattle.eif_tree.specs.View.{type_view};
ghost use Rattle.eif_grammar.specs.Goals as goal;
ghost use Rattle.eif_grammar.specs.Outcomes.{Calls, Runs};
ghost use Rattle.eif_parse_expr.specs.Readings.{Reads, types_view};
ghost use Rattle.eif_parse_expr.specs.Subrules as rule;

use crate::look::{after, behind, expect, name_behind, place_at};
use crate::parsed::{Parsed, PartError};
use eif_base::Place;
use eif_grammar::Terminal;
use eif_lex::Tokens;
use eif_tree::{Mark, NameAt, TypeTree, builders};
use std::alloc::Global;

/// A type up to its name.
#[derive(Drop)]
pub struct TypeHead {
    pub place: Place,
    pub mark: Mark,
    pub name: NameAt,
}

fn mark_of(terminal: Terminal) -> Option<Mark>
    ensures { result ≡ rule.mark_of terminal }
{
    match terminal {
        Terminal::Question | Terminal::Detachable => Some(Mark::Detachable),
        Terminal::Exclamation | Terminal::Attached => Some(Mark::Attached),
        _ => None,
    }
}

/// The mark, if there is one, and the name.
fn type_head(alloc: Global, tokens: &Tokens<'_>, from: u32) -> Result<Parsed<TypeHead>, PartError>
    requires { from ≤ length tokens.now.tokens }
    ensures { Reads (Runs rule.type_head (drop from tokens.now.tokens)) (λ h. h) tokens.now.tokens from result }
{
    let Some(mark) = mark_of(tokens.next_terminal(from)) else {
        let name = name_behind(alloc, tokens, from)?;
        return Ok(plain_head(name));
    };
    let name = name_behind(alloc, tokens, after(tokens, from))?;
    Ok(Parsed {
        tree: TypeHead {
            place: place_at(tokens, from),
            mark,
            name: name.tree,
        },
        next: name.next,
        height: 0,
    })
}

fn plain_head(name: Parsed<NameAt>) -> Parsed<TypeHead>
    ensures tree { result.tree ≡ record { place = name.tree.place; mark = Plain; name = name.tree } }
    ensures next { result.next ≡ name.next }
{
    Parsed {
        tree: TypeHead {
            place: name.tree.place,
            mark: Mark::Plain,
            name: name.tree,
        },
        next: name.next,
        height: name.height,
    }
}

/// A type, with or without a mark.
#[cycle(types)]
pub fn written_type(
    alloc: Global,
    tokens: &Tokens<'_>,
    from: u32,
    room: u32,
) -> Result<Parsed<TypeTree>, PartError>
    requires start { from ≤ length tokens.now.tokens }
    requires some { 1 ≤ room }
    ensures reads { Reads (Calls (goal.type_goal (goal.written room)) (drop from tokens.now.tokens)) type_view tokens.now.tokens from result }
    ensures height { IfOk result (λ x. x.height ≡ tall.type_height (type_view x.tree)) }
    ensures low { IfOk result (λ x. x.height ≤ room) }
{
    let head = type_head(alloc, tokens, from)?;
    headed_type(alloc, tokens, head, room)
}

/// The type behind its name.
#[cycle(types)]
fn headed_type(
    alloc: Global,
    tokens: &Tokens<'_>,
    head: Parsed<TypeHead>,
    room: u32,
) -> Result<Parsed<TypeTree>, PartError>
    requires start { head.next ≤ length tokens.now.tokens }
    requires some { 1 ≤ room }
    ensures reads { Reads (Runs (rule.headed room head.tree) (drop head.next tokens.now.tokens)) type_view tokens.now.tokens head.next result }
    ensures height { IfOk result (λ x. x.height ≡ tall.type_height (type_view x.tree)) }
    ensures low { IfOk result (λ x. x.height ≤ room) }
{
    let all = actuals(alloc, tokens, head.next, room)?;
    let name = head.tree.name;
    Ok(Parsed {
        tree: builders::written_type(
            head.tree.place,
            name.place,
            head.tree.mark,
            name.name,
            all.tree,
        ),
        next: all.next,
        height: all.height + 1,
    })
}

/// Actuals, if there are any. Their height is that of the highest.
#[cycle(types)]
fn actuals(
    alloc: Global,
    tokens: &Tokens<'_>,
    from: u32,
    room: u32,
) -> Result<Parsed<Vec<TypeTree>>, PartError>
    requires start { from ≤ length tokens.now.tokens }
    requires some { 1 ≤ room }
    ensures reads { Reads (Calls (goal.type_goal (goal.actuals room)) (drop from tokens.now.tokens)) types_view tokens.now.tokens from result }
    ensures height { IfOk result (λ x. x.height ≡ tall.types_height (types_view x.tree)) }
    ensures low { IfOk result (λ x. x.height < room) }
{
    let Some(start) = behind(tokens, from, Terminal::OpenBracket) else {
        return Ok(Parsed {
            tree: Vec::new(alloc),
            next: from,
            height: 0,
        });
    };
    if room == 1 {
        return Err(PartError::At(from));
    }
    let all = type_list(alloc, tokens, start, room - 1)?;
    let next = expect(tokens, all.next, Terminal::CloseBracket)?;
    Ok(Parsed {
        tree: all.tree,
        next,
        height: all.height,
    })
}

/// One type or more, with commas between.
#[cycle(types)]
fn type_list(
    alloc: Global,
    tokens: &Tokens<'_>,
    from: u32,
    room: u32,
) -> Result<Parsed<Vec<TypeTree>>, PartError>
    requires start { from ≤ length tokens.now.tokens }
    requires some { 1 ≤ room }
    ensures reads { Reads (Runs (rule.type_list room) (drop from tokens.now.tokens)) types_view tokens.now.tokens from result }
    ensures height { IfOk result (λ x. x.height ≡ tall.types_height (types_view x.tree)) }
    ensures low { IfOk result (λ x. x.height ≤ room) }
{
    let mut tree = Vec::new(alloc);
    let mut next = from;
    let mut height = 0;
    'items: loop {
        let one = written_type(alloc, tokens, next, room)?;
        height = one.height.max(height);
        tree.push(one.tree)?;
        next = one.next;
        let Some(start) = behind(tokens, next, Terminal::Comma) else {
            return Ok(Parsed { tree, next, height });
        };
        next = start;
    }
}

/// A type without a mark.
pub fn unmarked_type(
    alloc: Global,
    tokens: &Tokens<'_>,
    from: u32,
    room: u32,
) -> Result<Parsed<TypeTree>, PartError>
    requires start { from ≤ length tokens.now.tokens }
    requires some { 1 ≤ room }
    ensures reads { Reads (Calls (goal.type_goal (goal.unmarked room)) (drop from tokens.now.tokens)) type_view tokens.now.tokens from result }
    ensures height { IfOk result (λ x. x.height ≡ tall.type_height (type_view x.tree)) }
    ensures low { IfOk result (λ x. x.height ≤ room) }
{
    let name = name_behind(alloc, tokens, from)?;
    headed_type(alloc, tokens, plain_head(name), room)
}

/// A type, and the closing brace behind it.
pub fn closed_type(
    alloc: Global,
    tokens: &Tokens<'_>,
    from: u32,
    room: u32,
) -> Result<Parsed<TypeTree>, PartError>
    requires start { from ≤ length tokens.now.tokens }
    requires some { 1 ≤ room }
    ensures reads { Reads (Runs (rule.closed_type room) (drop from tokens.now.tokens)) type_view tokens.now.tokens from result }
    ensures height { IfOk result (λ x. x.height ≡ tall.type_height (type_view x.tree)) }
    ensures low { IfOk result (λ x. x.height ≤ room) }
{
    let inner = written_type(alloc, tokens, from, room)?;
    let next = expect(tokens, inner.next, Terminal::CloseBrace)?;
    Ok(Parsed {
        tree: inner.tree,
        next,
        height: inner.height,
    })
}
