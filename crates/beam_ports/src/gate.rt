/// Where a worker passes a gate.
#[derive(Debug, Clone, Copy, PartialEq, Eq)]
pub enum GatePoint {
    /// Before it takes a job.
    Job,
    /// Before it claims a position.
    Claim,
}

/// What each worker passes at certain points of its work. A gate may hold a worker back, as tests do to
/// force an order; it answers nothing, and no promise of a run rests on it.
pub trait Gate: Sync {
    /// Lets a worker pass, who is named by its number from 0.
    fn pass(&self, worker: u32, point: GatePoint);
}

/// The gate that lets each worker pass at once.
pub struct OpenGate;

impl Gate for OpenGate {
    fn pass(&self, worker: u32, point: GatePoint) {}
}
