// One step of a machine, as tools see it.
use crate::instr::Instr;

/// A step: the instruction at `pc`, whether it begins a block (`fresh`), the registers before and
/// after it, and the next pc. `next` is None where the instruction did not complete, and `after`
/// then equals `before`.
#[derive(Clone, Copy, PartialEq, Eq)]
pub struct StepView {
    pub pc: u32,
    pub instr: Instr,
    pub fresh: bool,
    pub before: [u32; 32],
    pub after: [u32; 32],
    pub next: Option<u32>,
}
