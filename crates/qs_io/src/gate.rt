// What workers pass on their way.

/// A gate that workers pass. A worker calls it after each claim that took an arc, outside every turn. No clause speaks
/// of it: it may hold a worker for a while, but changes nothing that contracts see.
pub trait Gate {
    /// The worker with this number has claimed this arc, and goes on to its work.
    fn pass(&self, worker: u32, arc: u32);
}

/// A gate that holds nobody.
pub struct OpenGate;

impl Gate for OpenGate {
    fn pass(&self, _worker: u32, _arc: u32) {}
}
