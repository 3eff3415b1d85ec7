/// The digest of a tree, and the number of the file and the class text that it is to have.
pub type Row = (u64, u32, &'static [u8]);

/// The same for a tree that has the places with these offsets alone.
pub type SparseRow = (u64, u32, &'static [u32], &'static [u8]);
