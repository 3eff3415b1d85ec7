use eif_base::{Memory, Name, Place};
use std::alloc::{AllocError, AllocFailed};

/// Why tokens are no class text.
#[derive(Debug, Drop)]
pub enum ParseError {
    /// The place of the first token that is left out, and how the report names it.
    Left(Place, Name),
    /// The tokens are no class text. The place is that of the first token past the longest front that begins
    /// one, or the text's end.
    Syntax(Place),
    Memory,
}

impl From<AllocError> for ParseError {
    ghost use Rattle.std.specs.Prelude.{◌≡◌};
    ghost use Rattle.eif_parse.specs.declared.error.ParseError.TheVariants as error;

    ghost from_gives = { λ _ e. e ≡ error.Memory };

    fn from(_error: AllocError) -> ParseError {
        ParseError::Memory
    }
}

impl<T: Drop> From<AllocFailed<T>> for ParseError {
    ghost use Rattle.std.specs.Prelude.{◌≡◌};
    ghost use Rattle.eif_parse.specs.declared.error.ParseError.TheVariants as error;

    ghost from_gives = { λ _ e. e ≡ error.Memory };

    fn from(_error: AllocFailed<T>) -> ParseError {
        ParseError::Memory
    }
}

impl From<Memory> for ParseError {
    ghost use Rattle.std.specs.Prelude.{◌≡◌};
    ghost use Rattle.eif_parse.specs.declared.error.ParseError.TheVariants as error;

    ghost from_gives = { λ _ e. e ≡ error.Memory };

    fn from(_error: Memory) -> ParseError {
        ParseError::Memory
    }
}
