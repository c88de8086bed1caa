// Files written by hand, word by word.
use elf_load::ElfFault;
use std::alloc::{AllocError, Global};

/// Words that end with status 7: `li x17, 93`, `li x10, 7`, `ecall`.
pub const EXIT_7: [u32; 3] = [0x05d00893, 0x00700513, 0x00000073];

/// Words that load across the end of the second segment: `lui x5, 0x22`, `lw x6, -2(x5)`.
pub const LOAD_PAST_DATA: [u32; 2] = [0x000222b7, 0xffe2a303];

// The file header's 13 words, and a program header's 8. Words 17 and 18 are the file's size.
const ONE_SEGMENT: [u32; 21] = [
    0x464c457f, 0x00010101, 0x00000000, 0x00000000, 0x00f30002, 0x00000001, 0x00010054, 0x00000034,
    0x00000000, 0x00000000, 0x00200034, 0x00280001, 0x00000000, 0x00000001, 0x00000000, 0x00010000,
    0x00010000, 0x00000000, 0x00000000, 0x00000005, 0x00001000,
];

// The same, with a second program header.
const TWO_SEGMENTS: [u32; 29] = [
    0x464c457f, 0x00010101, 0x00000000, 0x00000000, 0x00f30002, 0x00000001, 0x00010074, 0x00000034,
    0x00000000, 0x00000000, 0x00200034, 0x00280002, 0x00000000, 0x00000001, 0x00000000, 0x00010000,
    0x00010000, 0x00000000, 0x00000000, 0x00000005, 0x00001000, 0x00000001, 0x00000000, 0x00020000,
    0x00020000, 0x00000000, 0x00002000, 0x00000006, 0x00001000,
];

// Data at 0x20080 with zeros behind it, first in the table, and code at 0x10074; then seven
// symbols, their names and three section headers.
const SYMBOLS: [u32; 94] = [
    0x464c457f, 0x00010101, 0x00000000, 0x00000000, 0x00f30002, 0x00000001, 0x00010074, 0x00000034,
    0x00000100, 0x00000000, 0x00200034, 0x00280002, 0x00000003, 0x00000001, 0x00000080, 0x00020080,
    0x00020080, 0x00000004, 0x00001000, 0x00000006, 0x00001000, 0x00000001, 0x00000000, 0x00010000,
    0x00010000, 0x00000080, 0x00000080, 0x00000005, 0x00001000, 0x05d00893, 0x00700513, 0x00000073,
    0x11223344, 0x00000000, 0x00000000, 0x00000000, 0x00000000, 0x00000006, 0x00010078, 0x00000004,
    0x00010012, 0x00000001, 0x00010074, 0x00000004, 0x00010012, 0x0000000a, 0x00010078, 0x00000004,
    0x00010012, 0x0000000a, 0x00020080, 0x00000004, 0x00010011, 0x0000000a, 0x00020080, 0x00000004,
    0x00010012, 0x0000ffff, 0x0001007c, 0x00000004, 0x00000012, 0x69616d00, 0x6e65006e, 0x00780064,
    0x00000000, 0x00000000, 0x00000000, 0x00000000, 0x00000000, 0x00000000, 0x00000000, 0x00000000,
    0x00000000, 0x00000000, 0x00000000, 0x00000002, 0x00000000, 0x00000000, 0x00000084, 0x00000070,
    0x00000002, 0x00000001, 0x00000004, 0x00000010, 0x00000000, 0x00000003, 0x00000000, 0x00000000,
    0x000000f4, 0x0000000c, 0x00000000, 0x00000000, 0x00000001, 0x00000000,
];

// The bytes of these headers and of these words of code, the lowest byte of each first. Words 17
// and 18 are the file's size, which is right where there are at most 1,000 words of code.
fn file_of(alloc: Global, headers: &[u32], code: &[u32]) -> Result<Vec<u8>, AllocError> {
    let size = 4 * (headers.len().min(94) + code.len().min(1000)) as u32;
    let mut bytes = Vec::new(alloc);
    for (k, word) in headers.iter().chain(code).enumerate() {
        let word = if k == 17 || k == 18 { size } else { *word };
        bytes.extend_from_slice(&word.to_le_bytes())?;
    }
    Ok(bytes)
}

/// A file of one segment, which is the file, at 0x10000. It can be read and executed. These words,
/// at most 1,000, lie at its entry, 0x10054.
pub fn one_segment(alloc: Global, code: &[u32]) -> Result<Vec<u8>, AllocError> {
    file_of(alloc, &ONE_SEGMENT, code)
}

/// A file of two segments. The first is as that of [`one_segment`], with the words at 0x10074. The
/// second is two pages of zeros at 0x20000, which can be read and written.
pub fn two_segments(alloc: Global, code: &[u32]) -> Result<Vec<u8>, AllocError> {
    file_of(alloc, &TWO_SEGMENTS, code)
}

/// A file with symbols. Its first segment is 4 bytes at 0x20080, 44 33 22 11, with zeros up to
/// 0x21080, and its second the first 128 bytes of the file, with the code at 0x10074. It has the
/// functions `end` at 0x10078, `main` at 0x10074 and `x` at 0x10078 too; an object and a function
/// in data; and a function that is not defined.
pub fn symbol_file(alloc: Global) -> Result<Vec<u8>, AllocError> {
    let mut bytes = Vec::new(alloc);
    for word in &SYMBOLS {
        bytes.extend_from_slice(&word.to_le_bytes())?;
    }
    Ok(bytes)
}

/// An edit of a file, which is refused then: it is cut to `size` bytes, and has the byte `value` at
/// `place`.
pub struct Edit {
    pub size: usize,
    pub place: usize,
    pub value: u8,
    pub fault: ElfFault,
}

/// The file with the edit.
pub fn edited(mut file: Vec<u8>, edit: &Edit) -> Vec<u8> {
    file.truncate(edit.size);
    if let Some(byte) = file.get_mut(edit.place) {
        *byte = edit.value;
    }
    file
}

/// Edits of the file of [`two_segments`] with the words [`LOAD_PAST_DATA`], one for each fault but
/// the last two, in the order of the tests.
pub const EDITS: [Edit; 16] = [
    Edit {
        size: 51,
        place: 0,
        value: 0x7f,
        fault: ElfFault::TooShort,
    },
    Edit {
        size: 124,
        place: 0,
        value: 0,
        fault: ElfFault::NotElf,
    },
    Edit {
        size: 124,
        place: 4,
        value: 2,
        fault: ElfFault::NotElf32Little,
    },
    Edit {
        size: 124,
        place: 16,
        value: 3,
        fault: ElfFault::NotExec,
    },
    Edit {
        size: 124,
        place: 18,
        value: 62,
        fault: ElfFault::NotRiscv,
    },
    Edit {
        size: 124,
        place: 36,
        value: 1,
        fault: ElfFault::Flags { value: 1 },
    },
    Edit {
        size: 124,
        place: 44,
        value: 0,
        fault: ElfFault::HeaderSizes,
    },
    Edit {
        size: 124,
        place: 29,
        value: 1,
        fault: ElfFault::TableOutOfFile,
    },
    Edit {
        size: 124,
        place: 84,
        value: 3,
        fault: ElfFault::Interpreter,
    },
    Edit {
        size: 124,
        place: 69,
        value: 1,
        fault: ElfFault::SegmentOutOfFile { k: 0 },
    },
    Edit {
        size: 124,
        place: 72,
        value: 123,
        fault: ElfFault::BadSegment { k: 0 },
    },
    Edit {
        size: 124,
        place: 94,
        value: 1,
        fault: ElfFault::SharedPage { k: 1 },
    },
    Edit {
        size: 124,
        place: 76,
        value: 7,
        fault: ElfFault::WritableCode { k: 0 },
    },
    Edit {
        size: 124,
        place: 95,
        value: 64,
        fault: ElfFault::OutsideUser { k: 1 },
    },
    Edit {
        size: 124,
        place: 107,
        value: 4,
        fault: ElfFault::TooManyPages,
    },
    Edit {
        size: 124,
        place: 24,
        value: 0x75,
        fault: ElfFault::BadEntry,
    },
];
