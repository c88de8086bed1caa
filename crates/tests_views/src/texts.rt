// The text of a program's code.
use crate::files::{ADJACENT, bytes_of};
use elf_load::load;
use ins_views::Views;
use sp_report::view_text;
use std::alloc::Global;
use std::test::Fail;

const ADJACENT_TEXT: &str = "routine 0x00010ff0 first\n\
0x00010ff0 00100293 addi x5,x0,1\n\
0x00010ff4 00128293 addi x5,x5,1\n\
0x00010ff8 00228313 addi x6,x5,2\n\
0x00010ffc 00330393 addi x7,x6,3\n\
routine 0x00011004 second\n\
0x00011004 0000006f jal x0,0\n";

// The same with `lr.w x5,(x10)`, `sc.w x6,x5,(x10)`, `amoadd.w.aqrl x10,x11,(x12)` and `amomaxu.w x31,x1,(x2)` as its first words:
// what orders the memory is not shown.
const ATOMICS: [u32; 4] = [0x100522af, 0x1855232f, 0x06b6252f, 0xe0112faf];

const ATOMICS_TEXT: &str = "routine 0x00010ff0 first\n\
0x00010ff0 100522af lr.w x5,(x10)\n\
0x00010ff4 1855232f sc.w x6,x5,(x10)\n\
0x00010ff8 06b6252f amoadd.w x10,x11,(x12)\n\
0x00010ffc e0112faf amomaxu.w x31,x1,(x2)\n\
routine 0x00011004 second\n\
0x00011004 0000006f jal x0,0\n";

// The text of a file of these words.
fn text_of(alloc: Global, words: &[u32]) -> Result<Vec<u8>, Fail> {
    let file = bytes_of(alloc, words)?;
    let image = load(alloc, &file).ok().ok_or("refused")?;
    let views = Views::new(alloc, &image)?;
    Ok(view_text(alloc, &image, &views)?)
}

#[test]
fn from_what_is_known(rt: HostRuntime) -> Result<(), Fail> {
    let alloc = rt.alloc();
    assert!(rt; text_of(alloc, &ADJACENT)?.as_slice() == ADJACENT_TEXT.as_bytes());
    let mut words = ADJACENT;
    // the code begins behind the headers, of 29 words
    for (k, word) in ATOMICS.iter().enumerate() {
        words[29 + k] = *word;
    }
    assert!(rt; text_of(alloc, &words)?.as_slice() == ATOMICS_TEXT.as_bytes());
    Ok(())
}
