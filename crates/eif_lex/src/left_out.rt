ghost use Rattle.std.specs.Prelude.{◌≡◌, ◌<◌, ◌||◌, ◌&&◌, length, slice_get, None, Some, IfOk, IfSome};
ghost use Rattle.std.specs.Option.{MatchOption, option_map};
ghost use Rattle.eif_grammar.specs.LeftOut as left;

use crate::tokens::Tokens;
use eif_base::{Memory, Name};
use eif_grammar::Terminal;
use std::alloc::Global;

fn is_left_out(terminal: Terminal) -> bool
    ensures { result ≡ left.is_left_out terminal }
{
    matches!(
        terminal,
        Terminal::Real | Terminal::Verbatim | Terminal::LeftOutWord | Terminal::LeftOutSymbol
    )
}

/// Whether no `{` may follow directly.
fn bars_brace(terminal: Terminal) -> bool
    ensures { result ≡ left.bars_brace terminal }
{
    matches!(terminal, Terminal::Inherit | Terminal::Arrow)
}

fn is_open_brace(terminal: Terminal) -> bool
    ensures { result ≡ left.is_open_brace terminal }
{
    matches!(terminal, Terminal::OpenBrace)
}

/// Whether a token is left out where another stands before it.
fn is_left_out_after(before: Terminal, terminal: Terminal) -> bool
    ensures { result ≡ (left.is_left_out terminal || (left.bars_brace before && left.is_open_brace terminal)) }
{
    is_left_out(terminal) || (bars_brace(before) && is_open_brace(terminal))
}

/// The number of the first token that is left out.
pub fn first_left_out(tokens: &Tokens<'_>) -> Option<u32>
    ensures first { MatchOption result (left.left_out tokens.now.tokens ≡ None) (λ i. left.left_out tokens.now.tokens ≡ slice_get tokens.now.tokens i) }
    ensures within { IfSome result (λ i. i < length tokens.now.tokens) }
{
    let mut before = Terminal::EndOfText;
    let mut i = 0;
    'tokens: while i < tokens.count() {
        let terminal = tokens.terminal(i);
        if is_left_out_after(before, terminal) {
            return Some(i);
        }
        before = terminal;
        i += 1;
    }
    None
}

/// How the report names token i, which is left out.
pub fn left_out_text(alloc: Global, tokens: &Tokens<'_>, i: u32) -> Result<Name, Memory>
    requires { i < length tokens.now.tokens }
    ensures { IfOk result (λ n. option_map (λ t. left.left_out_text t.terminal t.text) (slice_get tokens.now.tokens i) ≡ Some n) }
{
    match tokens.terminal(i) {
        Terminal::Real => Name::from_bytes(alloc, b"real"),
        Terminal::Verbatim => Name::from_bytes(alloc, b"verbatim"),
        _ => Name::from_bytes(alloc, tokens.text(i)),
    }
}
