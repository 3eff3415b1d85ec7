ghost use Rattle.std.specs.Prelude.{◌≡◌, ◌<◌, ◌≤◌, length, IfSome, IfOk};
ghost use Rattle.std.specs.Option.{option_map};
ghost use Rattle.eif_grammar.specs.Literals as literal;
ghost use Rattle.eif_lex.specs.Items.{escape_of, value_item};

use crate::fronts::behind;
use crate::quotes::{Item, character_item, escape};
use eif_base::{Bytes, Memory};
use std::alloc::Global;

/// The byte of a character literal.
pub fn character_value(text: &[u8]) -> u8
    ensures { result ≡ literal.character_value text.now }
{
    match character_item(behind(text, 1)) {
        Some(item) => item.byte,
        None => 0,
    }
}

/// The item of a string at the front, up to its closing quote.
fn value_item(text: &[u8]) -> Option<Item>
    ensures value { option_map escape_of result ≡ value_item text.now }
    ensures some { IfSome result (λ e. 0 < e.len) }
    ensures within { IfSome result (λ e. e.len ≤ length text.now) }
{
    match text {
        [] | [b'"', ..] => None,
        [b, ..] => Some(escape(text).unwrap_or(Item { byte: *b, len: 1 })),
    }
}

/// The bytes of a string literal.
pub fn string_value(alloc: Global, text: &[u8]) -> Result<Bytes, Memory>
    ensures { IfOk result (λ b. b ≡ literal.string_value text.now) }
{
    let mut bytes = Vec::new(alloc);
    let mut rest = behind(text, 1);
    'items: while let Some(item) = value_item(rest) {
        bytes.push(item.byte)?;
        rest = behind(rest, item.len);
    }
    Bytes::from_slice(alloc, &bytes)
}
