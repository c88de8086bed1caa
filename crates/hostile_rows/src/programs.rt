// Programs written by hand.
use sample_files::{one_segment, two_segments};
use std::alloc::{AllocError, Global};

/// A program.
#[derive(Clone, Copy)]
pub enum Program {
    /// Writes `hello` and a line end, and exits with 0: 9 steps.
    Hello,
    /// Reads two single bytes and exits with 7: 10 steps. The reads are the fifth and the seventh.
    ReadTwice,
    /// Counts to 6 in memory and exits with 7: 45 steps. All registers are the same at positions 2, 9, 16, 23, 30 and 37.
    CountToSix,
    /// Maps 100 pages, stores 99 words of which each lies across two pages, and exits with 7: 407 steps. The k-th store is step
    /// 4k + 5.
    AcrossPages,
    /// Jumps to itself.
    TurnForEver,
}

const HELLO: [u32; 11] = [
    0x04000893, 0x00100513, 0x000105b7, 0x07858593, 0x00600613, 0x00000073, 0x05d00893, 0x00000513,
    0x00000073, 0x6c6c6568, 0x00000a6f,
];

const READ_TWICE: [u32; 10] = [
    0x000205b7, 0x03f00893, 0x00000513, 0x00100613, 0x00000073, 0x00000513, 0x00000073, 0x05d00893,
    0x00700513, 0x00000073,
];

const COUNT_TO_SIX: [u32; 12] = [
    0x00020337, 0x00600393, 0x00032283, 0x00128293, 0x00532023, 0x407282b3, 0x00028663, 0x00000293,
    0xfe9ff06f, 0x05d00893, 0x00700513, 0x00000073,
];

const ACROSS_PAGES: [u32; 15] = [
    0x000645b7, 0x00300613, 0x02200693, 0x0de00893, 0x00000073, 0x00001337, 0x06300393, 0x00650533,
    0xfe652f23, 0x00650533, 0xfff38393, 0xfe039ae3, 0x05d00893, 0x00700513, 0x00000073,
];

const TURN_FOR_EVER: [u32; 1] = [0x0000006f];

/// The file of a program. Two have a second segment, of two pages of zeros at 0x20000.
pub fn file_of(alloc: Global, program: Program) -> Result<Vec<u8>, AllocError> {
    match program {
        Program::Hello => one_segment(alloc, &HELLO),
        Program::ReadTwice => two_segments(alloc, &READ_TWICE),
        Program::CountToSix => two_segments(alloc, &COUNT_TO_SIX),
        Program::AcrossPages => one_segment(alloc, &ACROSS_PAGES),
        Program::TurnForEver => one_segment(alloc, &TURN_FOR_EVER),
    }
}
