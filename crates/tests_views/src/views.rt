// Instructions, blocks and routines of files.
use crate::files::{ADJACENT, bytes_of, is_shared};
use elf_load::load;
use ins_views::Views;
use rv_isa::instr_text;
use std::alloc::{AllocError, Global};
use std::test::Fail;

// What stands at an address: the instruction's text, the length of the block there, and the number of the routine in
// which it lies.
struct Place {
    at: u32,
    text: Option<&'static str>,
    block: Option<u32>,
    routine: Option<u32>,
}

const PLACES: [Place; 11] = [
    Place {
        at: 0x10fec,
        text: None,
        block: None,
        routine: None,
    },
    Place {
        at: 0x10ff0,
        text: Some("addi x5,x0,1"),
        block: Some(6),
        routine: Some(0),
    },
    Place {
        at: 0x10ff2,
        text: None,
        block: None,
        routine: Some(0),
    },
    Place {
        at: 0x10ffc,
        text: Some("addi x7,x6,3"),
        block: Some(3),
        routine: Some(0),
    },
    Place {
        at: 0x11000,
        text: Some("addi x8,x7,4"),
        block: Some(2),
        routine: None,
    },
    Place {
        at: 0x11004,
        text: Some("jal x0,0"),
        block: Some(1),
        routine: Some(1),
    },
    Place {
        at: 0x11008,
        text: Some("addi x0,x0,0"),
        block: Some(1),
        routine: Some(1),
    },
    Place {
        at: 0x1100c,
        text: None,
        block: None,
        routine: Some(1),
    },
    Place {
        at: 0x1100d,
        text: None,
        block: None,
        routine: Some(1),
    },
    Place {
        at: 0x1100e,
        text: None,
        block: None,
        routine: None,
    },
    Place {
        at: 0xfffffffc,
        text: None,
        block: None,
        routine: None,
    },
];

fn has_text(alloc: Global, views: &Views, place: &Place) -> Result<bool, AllocError> {
    match (views.ins_at(place.at), place.text) {
        (Some(instr), Some(text)) => {
            let spelled = instr_text(alloc, &instr)?;
            Ok(spelled.as_str() == text)
        }
        (None, None) => Ok(true),
        _ => Ok(false),
    }
}

fn holds(alloc: Global, views: &Views, place: &Place) -> Result<bool, AllocError> {
    let block = views.block_at(place.at);
    let length = block.map(|block| block.len);
    let head = block.map_or(place.at, |block| block.head);
    let routine = views.routine_of(place.at);
    let text = has_text(alloc, views, place)?;
    Ok(text && length == place.block && head == place.at && routine == place.routine)
}

fn is_routine(views: &Views, k: u32, start: u32, name: &[u8]) -> bool {
    k < views.routines() && views.routine(k).start == start && views.routine(k).name.bytes() == name
}

#[test]
fn adjacent_segments(rt: HostRuntime) -> Result<(), Fail> {
    let alloc = rt.alloc();
    let file = bytes_of(alloc, &ADJACENT)?;
    let views = is_shared(Views::new(alloc, &load(alloc, &file).ok().ok_or("refused")?)?);
    for place in PLACES.iter() {
        let at = place.at;
        assert!(rt; holds(alloc, &views, place)?, "at {at:x}");
    }
    assert!(rt; views.routines() == 2);
    assert!(rt; is_routine(&views, 0, 0x10ff0, b"first"));
    assert!(rt; is_routine(&views, 1, 0x11004, b"second"));
    Ok(())
}

#[test]
fn words_by_number(rt: HostRuntime) -> Result<(), Fail> {
    let alloc = rt.alloc();
    let file = bytes_of(alloc, &ADJACENT)?;
    let views = Views::new(alloc, &load(alloc, &file).ok().ok_or("refused")?)?;
    let code = views.code();
    assert!(rt; code.len() == 2);
    assert!(rt; code[0].first() == 0x10ff0 && code[0].words() == 4);
    assert!(rt; code[1].first() == 0x11000 && code[1].words() == 3);
    assert!(rt; code[1].word(2).is_some() && code[1].word(3).is_none());
    Ok(())
}
