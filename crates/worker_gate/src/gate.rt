// What a worker passes between a draw and its judgement.

/// Called once for each record that is drawn, with its number and the version held, before the record is judged and while the
/// claim is held. It promises nothing and changes no answer; a test holds workers in it.
pub trait Gate {
    fn pass(&self, number: u32, version: u32);

    /// In a round of so many records each worker has a thread of its own; in one of fewer they serve one behind the other.
    fn threads_from(&self) -> u32 {
        0
    }
}

/// A gate that returns at once.
#[derive(Clone, Copy, Debug)]
pub struct OpenGate;

impl Gate for OpenGate {
    fn pass(&self, _number: u32, _version: u32) {}
}

/// Fewer records are judged before a thread has begun, on some machines.
const WORTH_THREADS: u32 = 8_192;

/// A gate that returns at once, and has threads made only where there are records for them.
#[derive(Clone, Copy, Debug)]
pub struct SparingGate;

impl Gate for SparingGate {
    fn pass(&self, _number: u32, _version: u32) {}

    fn threads_from(&self) -> u32 {
        WORTH_THREADS
    }
}
