/// What each piece of work passes before it begins. A test may hold pieces back by it.
pub trait Gate {
    /// Is called once at the start of the piece with that number.
    fn pass(&self, piece: u32);
}

/// A gate that holds nothing back.
#[derive(Clone, Copy, Debug)]
pub struct OpenGate;

impl Gate for OpenGate {
    fn pass(&self, _piece: u32) {}
}
