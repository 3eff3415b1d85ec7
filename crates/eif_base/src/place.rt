/// The file number of a place that is in no file.
pub const NO_FILE: u32 = 4_294_967_295;

/// Where something stands: the number of the file, the offset in bytes from 0, and the line and the
/// column from 1. Columns count bytes, and a line ends after a line feed.
#[derive(Clone, Copy, Debug, PartialEq, Eq)]
pub struct Place {
    pub file: u32,
    pub offset: u32,
    pub line: u32,
    pub column: u32,
}
