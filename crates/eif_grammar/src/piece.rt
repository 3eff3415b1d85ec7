use crate::terminal::Terminal;

/// What is cut from a text: a token, or a blank or comment, which has no terminal. `len` counts bytes.
#[derive(Clone, Copy)]
pub struct Piece {
    pub terminal: Option<Terminal>,
    pub len: usize,
}
