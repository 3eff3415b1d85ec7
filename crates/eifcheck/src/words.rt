//! What the words of a command ask for.

ghost use Rattle.std.specs.Prelude.{◌≤◌};
ghost use Rattle.eif_base.specs.declared.limits.TheConstants.{MOST_WORKERS};

use eif_base::Root;
use eif_report::ReportForm;
use std::alloc::AllocError;

/// What the words ask for.
#[derive(Drop)]
pub struct Words<'w> {
    pub root: Root,
    /// The name of a file with further file names.
    pub list: Option<&'w str>,
    /// The files that the words name.
    pub files: Vec<&'w str>,
    pub workers: u32,
    pub form: ReportForm,
    ghost some: { 1 ≤ workers },
    ghost few: { workers ≤ MOST_WORKERS },
}

/// Why words are not taken.
#[derive(Clone, Copy, Debug, PartialEq, Eq)]
pub enum Refusal {
    Usage,
    Memory,
}

impl From<eif_base::Memory> for Refusal {
    ghost use Rattle.std.specs.Prelude.{◌≡◌};
    ghost use Rattle.eifcheck.specs.declared.words.Refusal.TheVariants.{Memory};

    ghost from_gives = { λ _ e. e ≡ Memory };

    fn from(_error: eif_base::Memory) -> Refusal {
        Refusal::Memory
    }
}

impl From<AllocError> for Refusal {
    ghost use Rattle.std.specs.Prelude.{◌≡◌};
    ghost use Rattle.eifcheck.specs.declared.words.Refusal.TheVariants.{Memory};

    ghost from_gives = { λ _ e. e ≡ Memory };

    fn from(_error: AllocError) -> Refusal {
        Refusal::Memory
    }
}
