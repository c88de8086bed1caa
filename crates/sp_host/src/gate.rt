// What is called at the slices of a run while others go on.

/// Is told of each slice that a thread takes, and can hold the slice up before it runs.
///
/// What a gate does changes no answer: it decides only when slices run.
pub trait Gate {
    /// A thread took the slice with this number, counted from 0.
    fn claimed(&self, slice: u64);

    /// The slice runs when this returns.
    fn before(&self, slice: u64);
}

/// A gate that holds nothing up.
#[derive(Drop)]
pub struct FreeGate;

impl Gate for FreeGate {
    fn claimed(&self, _slice: u64) {}

    fn before(&self, _slice: u64) {}
}
