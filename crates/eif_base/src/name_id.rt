/// The number of a name in a numbering, from 0.
#[derive(Clone, Copy, Debug, PartialEq, Eq)]
pub struct NameId(pub u32);
