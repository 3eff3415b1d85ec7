//! The tokens of a class text, with their kinds, places and texts, and what their literals stand for.
#![tactic(auto)]

mod fronts;
mod gaps;
mod left_out;
mod lexer;
mod literals;
mod numbers;
mod piece;
mod quotes;
mod spot;
mod symbols;
#[cfg(test)]
mod tests;
mod tokens;
mod words;

pub use eif_grammar::TokenKind;
pub use left_out::{first_left_out, left_out_text};
pub use lexer::{LexError, lex};
pub use literals::{character_value, string_value};
pub use tokens::Tokens;
pub use words::is_identifier;
