//! The limits of this project's profile.

/// How many class files a system may have.
pub const MOST_FILES: u32 = 8_192;

/// How many bytes a class text, or a list of files, may have.
pub const MOST_BYTES: u64 = 1_048_576;

/// How many bytes the class texts of a system may have in all.
pub const MOST_SYSTEM_BYTES: u64 = 33_554_432;

/// How high a type, an expression or an instruction may be.
pub const MOST_HEIGHT: u32 = 400;

/// How many parent clauses a class may have.
pub const MOST_PARENTS: u32 = 64;

/// How many proper ancestors a class may have.
pub const MOST_ANCESTORS: u32 = 256;

/// How many formals a class may have.
pub const MOST_FORMALS: u32 = 16;

/// How many names a type may have.
pub const MOST_TYPE_NAMES: u32 = 100;

/// How many feature names a class may have.
pub const MOST_NAMES: u32 = 2_048;

/// How many feature names the proper ancestors of a class may have in all.
pub const MOST_ANCESTOR_NAMES: u32 = 65_536;

/// How many workers may share the work.
pub const MOST_WORKERS: u32 = 64;
