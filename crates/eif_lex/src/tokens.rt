ghost use Rattle.std.specs.Prelude.{◌≡◌, ◌<◌, ◌≤◌, length, map, drop, slice_get, Some};
ghost use Rattle.std.specs.Option.{option_map};
ghost use Rattle.eif_grammar.specs.Kinds.{kind_of};
ghost use Rattle.eif_grammar.specs.Lexemes.{number_of, largest_integer};
ghost use Rattle.eif_grammar.specs.Literals.{integer_value};
ghost use Rattle.eif_grammar.specs.declared.terminal.Terminal.TheVariants.{Integer};
ghost use Rattle.eif_grammar.specs.Spelling.{head};
ghost use Rattle.eif_lex.specs.Spots.{AreSpots, token_at};

use crate::numbers::number_of;
use crate::spot::Spot;
use eif_base::Place;
use eif_grammar::{Terminal, TokenKind};
use std::marker::Model;

/// The tokens of a text, which they borrow.
#[derive(Drop)]
pub struct Tokens<'t> {
    text: &'t [u8],
    spots: Vec<Spot>,
    end: Place,
}

impl<'t> Model for Tokens<'t> {
    ghost use Rattle.std.specs.Prelude.{map};
    ghost use Rattle.eif_grammar.specs.Tokens.{TokenList};

    ghost Value = { TokenList };

    ghost use Rattle.eif_lex.specs.Spots.{token_at, AreSpots};

    ghost view = { λ t. record { tokens = map (token_at t.text.now) t.spots.items; end = t.end } };

    ghost invariant = { λ t. AreSpots t.text.now t.spots.items };
}

impl<'t> Tokens<'t> {
    pub(crate) fn new(text: &'t [u8], spots: Vec<Spot>, end: Place) -> Tokens<'t>
        requires { AreSpots text.now spots.items }
        ensures { result ≡ record { tokens = map (token_at text.now) spots.items; end = end } }
    {
        Tokens { text, spots, end }
    }

    fn slice(&self, i: u32) -> &'t [u8]
        requires { i < length self.now.tokens }
        ensures text { option_map (λ t. t.text) (slice_get self.now.tokens i) ≡ Some result.now }
        ensures small { head (drop i self.now.tokens) ≡ Integer → number_of result.now ≤ largest_integer }
    {
        let spot = self.spots[i as usize];
        let from = spot.place.offset as usize;
        &self.text[from..from + spot.len as usize]
    }

    /// How many tokens there are.
    pub fn count(&self) -> u32
        ensures { result ≡ length self.now.tokens }
    {
        self.spots.len() as u32
    }

    /// The kind of token i, from 0.
    pub fn kind(&self, i: u32) -> TokenKind
        requires { i < length self.now.tokens }
        ensures { option_map (λ t. kind_of t.terminal) (slice_get self.now.tokens i) ≡ Some result }
    {
        kind_of(self.terminal(i))
    }

    /// What token i is for the grammar, or that the text ends before it.
    pub fn next_terminal(&self, i: u32) -> Terminal
        ensures { result ≡ head (drop i self.now.tokens) }
    {
        if i < self.count() {
            self.terminal(i)
        } else {
            Terminal::EndOfText
        }
    }

    /// The value of token i, an integer literal.
    pub fn integer(&self, i: u32) -> i64
        requires { head (drop i self.now.tokens) ≡ Integer }
        ensures { option_map (λ t. integer_value t.text) (slice_get self.now.tokens i) ≡ Some result }
    {
        number_of(self.slice(i)) as i64
    }

    /// What token i is for the grammar.
    pub fn terminal(&self, i: u32) -> Terminal
        requires { i < length self.now.tokens }
        ensures { option_map (λ t. t.terminal) (slice_get self.now.tokens i) ≡ Some result }
    {
        self.spots[i as usize].terminal
    }

    /// The text of token i, as it is written.
    pub fn text(&self, i: u32) -> &'t [u8]
        requires { i < length self.now.tokens }
        ensures { option_map (λ t. t.text) (slice_get self.now.tokens i) ≡ Some result.now }
    {
        self.slice(i)
    }

    /// Where token i begins.
    pub fn place(&self, i: u32) -> Place
        requires { i < length self.now.tokens }
        ensures { option_map (λ t. t.place) (slice_get self.now.tokens i) ≡ Some result }
    {
        self.spots[i as usize].place
    }

    /// The place that one more byte behind the last would have.
    pub fn end(&self) -> Place
        ensures { result ≡ self.now.end }
    {
        self.end
    }
}

fn kind_of(terminal: Terminal) -> TokenKind
    ensures { result ≡ kind_of terminal }
{
    match terminal {
        Terminal::Identifier => TokenKind::Identifier,
        Terminal::Integer => TokenKind::Integer,
        Terminal::Real => TokenKind::Real,
        Terminal::Character => TokenKind::Character,
        Terminal::StringText => TokenKind::StringText,
        Terminal::Verbatim => TokenKind::Verbatim,
        Terminal::All
        | Terminal::And
        | Terminal::As
        | Terminal::Attached
        | Terminal::Check
        | Terminal::Class
        | Terminal::Create
        | Terminal::Current
        | Terminal::Deferred
        | Terminal::Detachable
        | Terminal::Do
        | Terminal::Else
        | Terminal::Elseif
        | Terminal::End
        | Terminal::Ensure
        | Terminal::Export
        | Terminal::False
        | Terminal::Feature
        | Terminal::From
        | Terminal::If
        | Terminal::Implies
        | Terminal::Inherit
        | Terminal::Invariant
        | Terminal::Local
        | Terminal::Loop
        | Terminal::Not
        | Terminal::Note
        | Terminal::Obsolete
        | Terminal::Or
        | Terminal::Precursor
        | Terminal::Redefine
        | Terminal::Rename
        | Terminal::Require
        | Terminal::Result
        | Terminal::Select
        | Terminal::Then
        | Terminal::True
        | Terminal::Undefine
        | Terminal::Until
        | Terminal::Variant
        | Terminal::Void
        | Terminal::Xor
        | Terminal::LeftOutWord => TokenKind::Word,
        _ => TokenKind::Symbol,
    }
}
