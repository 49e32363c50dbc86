//! What a worker passes before it reduces.

/// Told before each reduction of a worker, while no turn is held. A worker's first reduction has the count 1.
pub trait Gate {
    fn reach(&self, worker: u32, count: u64);
}

/// A gate that does nothing.
#[derive(Clone, Copy, Debug, Drop)]
pub struct OpenGate;

impl Gate for OpenGate {
    fn reach(&self, _worker: u32, _count: u64) {}
}
