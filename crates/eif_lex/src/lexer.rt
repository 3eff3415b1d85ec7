ghost use Rattle.std.specs.Prelude.{◌≡◌, ◌+◌, ◌<◌, ◌≤◌, ◌^◌, ◌++◌, length, fold, OnOk, IfOk};
ghost use Rattle.eif_grammar.specs.Places.{step};
ghost use Rattle.eif_grammar.specs.Tokens.{mark_length};
ghost use Rattle.eif_lex.specs.Lexes.{Lexes, AreSlices, AreInOrder, tokens_in};
ghost use Rattle.eif_lex.specs.Spots.{AreSpots, spots_of};

use crate::fronts::front;
use crate::piece::first_piece;
use crate::spot::Spot;
use crate::tokens::Tokens;
use eif_base::Place;
use eif_base::limits::MOST_BYTES;
use eif_grammar::Piece;
use std::alloc::{AllocError, AllocFailed, Global};

/// Why a text has no tokens.
#[derive(Clone, Copy, Debug, PartialEq, Eq)]
pub enum LexError {
    /// No blank, comment or token starts there.
    At(Place),
    Memory,
}

impl From<AllocError> for LexError {
    ghost use Rattle.std.specs.Prelude.{◌≡◌};
    ghost use Rattle.eif_lex.specs.declared.lexer.LexError.TheVariants.{Memory};

    ghost from_gives = { λ _ e. e ≡ Memory };

    fn from(_error: AllocError) -> LexError {
        LexError::Memory
    }
}

impl<T: Drop> From<AllocFailed<T>> for LexError {
    ghost use Rattle.std.specs.Prelude.{◌≡◌};
    ghost use Rattle.eif_lex.specs.declared.lexer.LexError.TheVariants.{Memory};

    ghost from_gives = { λ _ e. e ≡ Memory };

    fn from(_error: AllocFailed<T>) -> LexError {
        LexError::Memory
    }
}

/// The spots of a text's tokens, and its end.
#[derive(Drop)]
struct Cut {
    spots: Vec<Spot>,
    end: Place,
}

/// The line and column behind the bytes.
fn advance(bytes: &[u8], line: u32, column: u32) -> (u32, u32)
    requires line { line + length bytes.now < 2 ^ 32 }
    requires column { column + length bytes.now < 2 ^ 32 }
    ensures value { result ≡ fold step (line, column) bytes.now }
    ensures line_low { result.0 ≤ line + length bytes.now }
    ensures column_low { result.1 ≤ column + length bytes.now }
{
    let mut line = line;
    let mut column = column;
    'bytes: for b in bytes {
        if *b == b'\n' {
            line += 1;
            column = 1;
        } else {
            column += 1;
        }
    }
    (line, column)
}

/// The length of a byte order mark at the front.
fn mark_length(text: &[u8]) -> usize
    ensures value { result ≡ mark_length text.now }
    ensures within { result ≤ length text.now }
{
    match text {
        [0xEF, 0xBB, 0xBF, ..] => 3,
        _ => 0,
    }
}

fn push_piece(spots: &mut Vec<Spot>, piece: Piece, place: Place) -> Result<(), AllocError>
    requires { piece.len < 2 ^ 32 }
    ensures { OnOk result (spots.new.items ≡ spots.old.items ++ spots_of piece.terminal place piece.len) }
{
    if let Some(terminal) = piece.terminal {
        spots.push(Spot {
            terminal,
            place,
            len: piece.len as u32,
        })?;
    }
    Ok(())
}

fn cut_text(alloc: Global, file: u32, text: &[u8]) -> Result<Cut, LexError>
    requires { length text.now ≤ MOST_BYTES }
    ensures exact { Lexes file text.now (tokens_in text.now result) }
    ensures spots { IfOk result (λ cut. AreSpots text.now cut.spots.items) }
{
    let mut spots = Vec::new(alloc);
    let mut at = mark_length(text);
    let (mut line, mut column) = advance(front(text, at), 1, 1);
    'pieces: while at < text.len() {
        let place = Place {
            file,
            offset: at as u32,
            line,
            column,
        };
        let Some(piece) = first_piece(&text[at..]) else {
            return Err(LexError::At(place));
        };
        push_piece(&mut spots, piece, place)?;
        (line, column) = advance(&text[at..at + piece.len], line, column);
        at += piece.len;
    }
    let end = Place {
        file,
        offset: at as u32,
        line,
        column,
    };
    Ok(Cut { spots, end })
}

/// The tokens of the text, which they borrow.
pub fn lex<'t>(alloc: Global, file: u32, text: &'t [u8]) -> Result<Tokens<'t>, LexError>
    requires { length text.now ≤ MOST_BYTES }
    ensures exact { Lexes file text.now result }
    ensures slices { IfOk result (λ list. AreSlices text.now list.tokens) }
    ensures in_order { IfOk result (λ list. AreInOrder list.tokens) }
{
    match cut_text(alloc, file, text) {
        Ok(cut) => Ok(Tokens::new(text, cut.spots, cut.end)),
        Err(error) => Err(error),
    }
}
