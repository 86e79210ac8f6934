// Where pieces arrive.

/// Where each piece arrives before it begins. Pieces are counted from 1.
pub trait Gate: Sync {
    fn arrive(&self, piece: u32);
}

/// A gate that is always open.
#[derive(Clone, Copy, Debug, Drop)]
pub struct OpenGate;

impl Gate for OpenGate {
    fn arrive(&self, _piece: u32) {}
}
