use eif_base::Memory;
use std::alloc::{AllocError, AllocFailed};

/// A tree, the number of the token behind it, and its height, or 0 for what has no height of its own.
#[derive(Drop)]
pub struct Parsed<X> {
    pub tree: X,
    pub next: u32,
    pub height: u32,
}

/// Why there is no tree: the number of the first token that is refused, or too little memory.
#[derive(Clone, Copy, Debug, PartialEq, Eq)]
pub enum PartError {
    At(u32),
    Memory,
}

impl From<AllocError> for PartError {
    ghost use Rattle.std.specs.Prelude.{◌≡◌};
    ghost use Rattle.eif_parse_expr.specs.declared.parsed.PartError.TheVariants as error;

    ghost from_gives = { λ _ e. e ≡ error.Memory };

    fn from(_error: AllocError) -> PartError {
        PartError::Memory
    }
}

impl<T: Drop> From<AllocFailed<T>> for PartError {
    ghost use Rattle.std.specs.Prelude.{◌≡◌};
    ghost use Rattle.eif_parse_expr.specs.declared.parsed.PartError.TheVariants as error;

    ghost from_gives = { λ _ e. e ≡ error.Memory };

    fn from(_error: AllocFailed<T>) -> PartError {
        PartError::Memory
    }
}

impl From<Memory> for PartError {
    ghost use Rattle.std.specs.Prelude.{◌≡◌};
    ghost use Rattle.eif_parse_expr.specs.declared.parsed.PartError.TheVariants as error;

    ghost from_gives = { λ _ e. e ≡ error.Memory };

    fn from(_error: Memory) -> PartError {
        PartError::Memory
    }
}
