//! Points at which a test may hold a worker.

/// Where a worker passes a gate.
#[derive(Clone, Copy, Debug, PartialEq, Eq)]
pub enum Point {
    /// Before it acts on the node.
    BeforeAct,
    /// After it has acted, before it sends.
    AfterAct,
}

/// Is passed by workers, and may hold them for a while. Nothing is promised of it: what is sent is right
/// whoever is held, and for how long.
pub trait Gate {
    /// The worker of this number passes.
    fn pass(&self, worker: u32, point: Point);
}

/// Nobody is held.
#[derive(Drop)]
pub struct NoGate;

impl Gate for NoGate {
    fn pass(&self, _worker: u32, _point: Point) {}
}
