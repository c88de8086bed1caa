// Files written by hand: some that fail each test in turn, and some that are loaded.
use elf_load::{ElfFault, Segment, load};
use sample_files::{
    EDITS, EXIT_7, Edit, LOAD_PAST_DATA, edited, one_segment, symbol_file, two_segments,
};
use std::test::Fail;

fn is_segment(segment: &Segment, start: u32, size: u32, flags: u8, bytes: &[u8]) -> bool {
    segment.start == start
        && segment.size == size
        && segment.flags == flags
        && segment.bytes.as_slice() == bytes
}

#[test]
fn loads_one_segment(rt: HostRuntime) -> Result<(), Fail> {
    let file = one_segment(rt.alloc(), &EXIT_7)?;
    let image = load(rt.alloc(), &file).ok().ok_or("refused")?;
    assert!(rt; image.entry == 0x10054 && image.phdr == 0x10034 && image.phnum == 1);
    assert!(rt; image.segments.len() == 1 && image.functions.len() == 0);
    assert!(rt; is_segment(&image.segments[0], 0x10000, 96, 5, &file));
    Ok(())
}

#[test]
fn loads_segments_and_functions_in_order(rt: HostRuntime) -> Result<(), Fail> {
    let file = symbol_file(rt.alloc())?;
    let image = load(rt.alloc(), &file).ok().ok_or("refused")?;
    assert!(rt; image.entry == 0x10074 && image.phdr == 0x10034 && image.phnum == 2);
    assert!(rt; image.segments.len() == 2 && image.functions.len() == 2);
    let head = file.get(..128).ok_or("a short file")?;
    assert!(rt; is_segment(&image.segments[0], 0x10000, 128, 5, head));
    assert!(rt;
        is_segment(
            &image.segments[1],
            0x20080,
            0x1000,
            6,
            &[0x44, 0x33, 0x22, 0x11]
        )
    );
    let (first, second) = (&image.functions[0], &image.functions[1]);
    assert!(rt; first.start == 0x10074 && first.name.bytes() == b"main".as_slice());
    assert!(rt; second.start == 0x10078 && second.name.bytes() == b"end".as_slice());
    Ok(())
}

#[test]
fn refuses_edited_files(rt: HostRuntime) -> Result<(), Fail> {
    for (k, edit) in EDITS.iter().enumerate() {
        let file = edited(two_segments(rt.alloc(), &LOAD_PAST_DATA)?, edit);
        assert!(rt;
            load(rt.alloc(), &file).err() == Some(edit.fault),
            "edit {k}"
        );
    }
    Ok(())
}

#[test]
fn refuses_bad_symbols(rt: HostRuntime) -> Result<(), Fail> {
    let mut file = one_segment(rt.alloc(), &EXIT_7)?;
    assert!(rt; file.len() == 96);
    // one section header, behind the code: a symbol table with nothing else
    file[32] = 96;
    file[48] = 1;
    file.extend_from_slice(&[0, 0, 0, 0, 2])?;
    file.resize(136, 0)?;
    assert!(rt; load(rt.alloc(), &file).err() == Some(ElfFault::BadSymbols));
    Ok(())
}

// Edits of a file of one segment, of 96 bytes.
const BEGINNINGS: [Edit; 5] = [
    Edit {
        size: 0,
        place: 0,
        value: 0x7f,
        fault: ElfFault::TooShort,
    },
    Edit {
        size: 51,
        place: 0,
        value: 0x7f,
        fault: ElfFault::TooShort,
    },
    Edit {
        size: 52,
        place: 18,
        value: 62,
        fault: ElfFault::NotRiscv,
    },
    Edit {
        size: 52,
        place: 0,
        value: 0x7f,
        fault: ElfFault::TableOutOfFile,
    },
    Edit {
        size: 95,
        place: 0,
        value: 0x7f,
        fault: ElfFault::SegmentOutOfFile { k: 0 },
    },
];

#[test]
fn refuses_beginnings(rt: HostRuntime) -> Result<(), Fail> {
    for (k, edit) in BEGINNINGS.iter().enumerate() {
        let file = edited(one_segment(rt.alloc(), &EXIT_7)?, edit);
        assert!(rt;
            load(rt.alloc(), &file).err() == Some(edit.fault),
            "beginning {k}"
        );
    }
    Ok(())
}
