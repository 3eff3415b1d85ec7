//! The language as contracts speak of it: the tokens of a text and the grammar of class texts.
//! All of it is definitions, but for the types that name their parts.
#![tactic(auto)]

mod piece;
mod terminal;

pub use piece::Piece;
pub use terminal::{Terminal, TokenKind};
