/// The number of a feature in its class, from 0.
#[derive(Clone, Copy, Debug, PartialEq, Eq)]
pub struct FeatId(pub u32);
