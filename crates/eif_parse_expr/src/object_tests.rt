//! The parts of object tests, `attached {TYPE} value as local` and `{local: TYPE} value`.

ghost use Rattle.std.specs.Prelude.{◌≡◌, ◌≤◌, true, drop, length, IfOk};
ghost use Rattle.std.specs.Option.{option_map};
ghost use Rattle.eif_tree.specs.Height as tall;
ghost use Rattle.eif_tree.specs.View.{type_view};
ghost use Rattle.eif_grammar.specs.ExpressionRules.{operand_start, braced, attached};
ghost use Rattle.eif_grammar.specs.Outcomes.{Runs};
ghost use Rattle.eif_grammar.specs.Spelling.{head};
ghost use Rattle.eif_grammar.specs.declared.terminal.Terminal.TheVariants as t;
ghost use Rattle.eif_parse_expr.specs.Readings.{Reads};
ghost use Rattle.eif_parse_expr.specs.Subrules as rule;

use crate::look::{after, behind, expect, is_at, name_behind, place_at};
use crate::parsed::{Parsed, PartError};
use crate::types::closed_type;
use eif_base::Place;
use eif_grammar::Terminal;
use eif_lex::Tokens;
use eif_tree::{NameAt, TypeTree};
use std::alloc::Global;

/// A test up to what it tests.
#[derive(Drop)]
pub struct TestHead {
    pub place: Place,
    pub type_tree: Option<TypeTree>,
    pub local: Option<NameAt>,
}

/// Whether an object test begins with that terminal.
pub fn begins_test(terminal: Terminal) -> bool
    ensures { result ≡ rule.begins_test terminal }
{
    match terminal {
        Terminal::OpenBrace | Terminal::Attached => true,
        _ => false,
    }
}

/// A test up to what it tests. Its height is that of its type.
pub fn test_head(
    alloc: Global,
    tokens: &Tokens<'_>,
    from: u32,
    room: u32,
) -> Result<Parsed<TestHead>, PartError>
    requires start { from ≤ length tokens.now.tokens }
    requires some { 1 ≤ room }
    requires begins { rule.begins_test (head (drop from tokens.now.tokens)) ≡ true }
    ensures reads { Reads (Runs (rule.test_head room (operand_start (head (drop from tokens.now.tokens)))) (drop from tokens.now.tokens)) rule.test_head_view tokens.now.tokens from result }
    ensures height { IfOk result (λ x. x.height ≡ tall.written_height (option_map type_view x.tree.type_tree)) }
    ensures low { IfOk result (λ x. x.height ≤ room) }
{
    if is_at(tokens, from, Terminal::Attached) {
        attached_head(alloc, tokens, from, room)
    } else {
        braced_head(alloc, tokens, from, room)
    }
}

/// `attached`, and the type, if one is written.
fn attached_head(
    alloc: Global,
    tokens: &Tokens<'_>,
    from: u32,
    room: u32,
) -> Result<Parsed<TestHead>, PartError>
    requires start { from ≤ length tokens.now.tokens }
    requires some { 1 ≤ room }
    requires begins { head (drop from tokens.now.tokens) ≡ t.Attached }
    ensures reads { Reads (Runs (rule.test_head room attached) (drop from tokens.now.tokens)) rule.test_head_view tokens.now.tokens from result }
    ensures height { IfOk result (λ x. x.height ≡ tall.written_height (option_map type_view x.tree.type_tree)) }
    ensures low { IfOk result (λ x. x.height ≤ room) }
{
    let place = place_at(tokens, from);
    let start = after(tokens, from);
    let Some(inner) = behind(tokens, start, Terminal::OpenBrace) else {
        return Ok(Parsed {
            tree: TestHead {
                place,
                type_tree: None,
                local: None,
            },
            next: start,
            height: 0,
        });
    };
    let type_tree = closed_type(alloc, tokens, inner, room)?;
    Ok(Parsed {
        tree: TestHead {
            place,
            type_tree: Some(type_tree.tree),
            local: None,
        },
        next: type_tree.next,
        height: type_tree.height,
    })
}

/// `{local: TYPE}`.
fn braced_head(
    alloc: Global,
    tokens: &Tokens<'_>,
    from: u32,
    room: u32,
) -> Result<Parsed<TestHead>, PartError>
    requires start { from ≤ length tokens.now.tokens }
    requires some { 1 ≤ room }
    requires begins { head (drop from tokens.now.tokens) ≡ t.OpenBrace }
    ensures reads { Reads (Runs (rule.test_head room braced) (drop from tokens.now.tokens)) rule.test_head_view tokens.now.tokens from result }
    ensures height { IfOk result (λ x. x.height ≡ tall.written_height (option_map type_view x.tree.type_tree)) }
    ensures low { IfOk result (λ x. x.height ≤ room) }
{
    let place = place_at(tokens, from);
    let local = name_behind(alloc, tokens, after(tokens, from))?;
    let start = expect(tokens, local.next, Terminal::Colon)?;
    let type_tree = closed_type(alloc, tokens, start, room)?;
    Ok(Parsed {
        tree: TestHead {
            place,
            type_tree: Some(type_tree.tree),
            local: Some(local.tree),
        },
        next: type_tree.next,
        height: type_tree.height,
    })
}

/// The local that was named, or else the one that `as` names.
pub fn test_local(
    alloc: Global,
    tokens: &Tokens<'_>,
    from: u32,
    named: Option<NameAt>,
) -> Result<Parsed<Option<NameAt>>, PartError>
    requires { from ≤ length tokens.now.tokens }
    ensures { Reads (Runs (rule.local_behind named) (drop from tokens.now.tokens)) (λ n. n) tokens.now.tokens from result }
{
    if let Some(name) = named {
        return Ok(Parsed {
            tree: Some(name),
            next: from,
            height: 0,
        });
    }
    let Some(start) = behind(tokens, from, Terminal::As) else {
        return Ok(Parsed {
            tree: None,
            next: from,
            height: 0,
        });
    };
    let name = name_behind(alloc, tokens, start)?;
    Ok(Parsed {
        tree: Some(name.tree),
        next: name.next,
        height: 0,
    })
}
