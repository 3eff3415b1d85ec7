use eif_base::Place;
use eif_grammar::Terminal;

/// Where a token stands in its text, and how many bytes it has.
#[derive(Clone, Copy)]
pub struct Spot {
    pub terminal: Terminal,
    pub place: Place,
    pub len: u32,
}
