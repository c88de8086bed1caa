// Programs written by hand.
use sample_files::{EXIT_7, one_segment, push_call, two_segments};
use std::alloc::{AllocError, Global};

// A program.
#[derive(Clone, Copy)]
pub enum Program {
    AddTwice,
    CountToSix,
    WaitASecond,
    ReadAll,
    WritePages,
    HelloAndMore,
    StoreReserved,
    CallBetween,
}

// li x5, 1; x5 += 1; exit with 7.
const ADD_TWICE: [u32; 5] = [0x00100293, 0x00128293, 0x05d00893, 0x00700513, 0x00000073];

// Counts to 6 in the word at 0x20000, and exits with 7. At the head of the loop, positions 2, 9, 16, 23, 30 and 37, all
// registers are the same.
const COUNT_TO_SIX: [u32; 12] = [
    0x00020337, 0x00600393, 0x00032283, 0x00128293, 0x00532023, 0x407282b3, 0x00028663, 0x00000293,
    0xfe9ff06f, 0x05d00893, 0x00700513, 0x00000073,
];

// getpid and clock_gettime64 in turn, until a second is stored at 0x20000, and exit with 7. At positions 9, 17 and 25 the
// whole state is the same.
const WAIT_A_SECOND: [u32; 12] = [
    0x00020337, 0x0ac00893, 0x00000073, 0x19300893, 0x00100513, 0x00030593, 0x00000073, 0x00032283,
    0xfe0282e3, 0x05d00893, 0x00700513, 0x00000073,
];

// Maps 65,536 bytes, reads the whole input to them, so many bytes at a time, and exits with 7. The k-th read is step 6k + 6.
const READ_ALL: [u32; 16] = [
    0x000105b7, 0x00000513, 0x00300613, 0x02200693, 0x0de00893, 0x00000073, 0x00050413, 0x00000513,
    0x00040593, 0x00010637, 0x03f00893, 0x00000073, 0xfe0516e3, 0x05d00893, 0x00700513, 0x00000073,
];

// Maps 100 pages, stores a word in each of them, and exits with 7. The k-th store is step 4k + 4.
const WRITE_PAGES: [u32; 14] = [
    0x000645b7, 0x00300613, 0x02200693, 0x0de00893, 0x00000073, 0x00001337, 0x06400393, 0x00652023,
    0x00650533, 0xfff38393, 0xfe039ae3, 0x05d00893, 0x00700513, 0x00000073,
];

// Writes `hello` and a line end, and then makes a call with the number 1.
const HELLO_AND_MORE: [u32; 11] = [
    0x04000893, 0x00100513, 0x000105b7, 0x07858593, 0x00600613, 0x00000073, 0x00100893, 0x00000513,
    0x00000073, 0x6c6c6568, 0x00000a6f,
];

// Reserves the word at 0x20000 by `lr.w`, stores there by `sc.w`, adds an instruction where that was done, and exits with 7.
const STORE_RESERVED: [u32; 8] = [
    0x00020337, 0x100322af, 0x185323af, 0x00039463, 0x00100293, 0x05d00893, 0x00700513, 0x00000073,
];

// The same with a getpid between, behind which nothing is reserved.
const CALL_BETWEEN: [u32; 10] = [
    0x00020337, 0x100322af, 0x0ac00893, 0x00000073, 0x185323af, 0x00039463, 0x00100293, 0x05d00893,
    0x00700513, 0x00000073,
];

// The file of a program. Four have a second segment, of two pages of zeros at 0x20000.
pub fn file_of(alloc: Global, program: Program) -> Result<Vec<u8>, AllocError> {
    match program {
        Program::AddTwice => one_segment(alloc, &ADD_TWICE),
        Program::CountToSix => two_segments(alloc, &COUNT_TO_SIX),
        Program::WaitASecond => two_segments(alloc, &WAIT_A_SECOND),
        Program::ReadAll => one_segment(alloc, &READ_ALL),
        Program::WritePages => one_segment(alloc, &WRITE_PAGES),
        Program::HelloAndMore => one_segment(alloc, &HELLO_AND_MORE),
        Program::StoreReserved => two_segments(alloc, &STORE_RESERVED),
        Program::CallBetween => two_segments(alloc, &CALL_BETWEEN),
    }
}

// The file of a program that writes `ELF` twice, reads a byte, writes `ELF` again and exits with 7. The calls are steps 11,
// 22, 33 and 44.
pub fn talk(alloc: Global) -> Result<Vec<u8>, AllocError> {
    let mut words = Vec::new(alloc);
    push_call(&mut words, 64, [1, 0x10001, 3, 0])?;
    push_call(&mut words, 64, [1, 0x10001, 3, 0])?;
    push_call(&mut words, 63, [0, 0x20000, 1, 0])?;
    push_call(&mut words, 64, [1, 0x10001, 3, 0])?;
    words.extend_from_slice(&EXIT_7)?;
    two_segments(alloc, &words)
}
