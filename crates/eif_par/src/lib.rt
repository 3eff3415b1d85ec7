//! Work on items that lie in a row, divided among threads: one result for each piece, in order.
#![tactic(auto)]

mod division;
mod laws;
mod piece_work;

pub use division::in_pieces;
pub use laws::{pieces_cover, pieces_join};
pub use piece_work::PieceWork;

#[cfg(test)]
mod tests;
