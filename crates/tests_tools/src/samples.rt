// A file, and events.
use elf_load::load;
use ins_views::Views;
use insert_points::Event;
use std::alloc::Global;
use std::test::Fail;

// Two executable segments, the second of which begins where the first ends: four words of `addi` from 0x10ff0 on; from
// 0x11000 on an `addi`, a `jal`, and two bytes of a word whose others are zeros, of 14 bytes in all. Functions `first` at
// 0x10ff0 and `second` at 0x11004, a symbol of data, and an undefined function.
const ADJACENT: [u32; 91] = [
    0x464c457f, 0x00010101, 0x00000000, 0x00000000, 0x00f30002, 0x00000001, 0x00010ff0, 0x00000034,
    0x000000f4, 0x00000000, 0x00200034, 0x00280002, 0x00000003, 0x00000001, 0x00000074, 0x00010ff0,
    0x00010ff0, 0x00000010, 0x00000010, 0x00000005, 0x00000001, 0x00000001, 0x00000084, 0x00011000,
    0x00011000, 0x0000000a, 0x0000000e, 0x00000005, 0x00000001, 0x00100293, 0x00128293, 0x00228313,
    0x00330393, 0x00438413, 0x0000006f, 0x00000013, 0x00000000, 0x00000000, 0x00000000, 0x00000000,
    0x00000007, 0x00011004, 0x00000000, 0x00010012, 0x00000001, 0x00010ff0, 0x00000000, 0x00010012,
    0x0000000e, 0x00010ff8, 0x00000000, 0x00010011, 0x00000001, 0x00010ff4, 0x00000000, 0x00000012,
    0x72696600, 0x73007473, 0x6e6f6365, 0x61640064, 0x00006174, 0x00000000, 0x00000000, 0x00000000,
    0x00000000, 0x00000000, 0x00000000, 0x00000000, 0x00000000, 0x00000000, 0x00000000, 0x00000000,
    0x00000002, 0x00000000, 0x00000000, 0x00000090, 0x00000050, 0x00000002, 0x00000000, 0x00000000,
    0x00000010, 0x00000000, 0x00000003, 0x00000000, 0x00000000, 0x000000e0, 0x00000013, 0x00000000,
    0x00000000, 0x00000000, 0x00000000,
];

// The views of that file, with the word 58 in place of the one that has `econ` of `second`.
pub fn views_with(alloc: Global, name: u32) -> Result<Views, Fail> {
    let mut file = Vec::new(alloc);
    for (k, word) in ADJACENT.iter().enumerate() {
        let word = if k == 58 { name } else { *word };
        file.extend_from_slice(&word.to_le_bytes())?;
    }
    let image = load(alloc, &file).ok().ok_or("refused")?;
    Ok(Views::new(alloc, &image)?)
}

// The views of that file.
pub fn views(alloc: Global) -> Result<Views, Fail> {
    views_with(alloc, 0x6e6f6365)
}

// An event with this number and this first argument.
pub fn event(number: u8, first: u32) -> Event {
    Event {
        number,
        args: [first, 0, 0, 0],
    }
}

// An event of a call with the number 0.
pub fn own(first: u32) -> Event {
    event(0, first)
}
