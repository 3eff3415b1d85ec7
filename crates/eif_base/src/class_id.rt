/// The number of a class in its universe, from 0: the kernel's classes come first, then the given ones.
#[derive(Clone, Copy, Debug, PartialEq, Eq)]
pub struct ClassId(pub u32);
