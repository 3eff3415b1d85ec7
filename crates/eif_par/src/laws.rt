ghost use Rattle.eif_par.specs.Pieces.{PiecesCover, PiecesJoin};

/// Each item belongs to exactly one piece, for any number of pieces up to the number of items.
pub fn pieces_cover()
    ensures { PiecesCover }
{}

/// If the result of each piece is shown as a list, the values of the items of that piece, then
/// the lists of all pieces, one after another, are the values of all items.
pub fn pieces_join<Out, Item, Value>()
    ensures { PiecesJoin Out Item Value }
{}
