// The bytes of a guest's stack at position 0.
ghost use Rattle.std.specs.Prelude.{◌≡◌, ◌+◌, ◌-◌, ◌*◌, ◌/◌, ◌≤◌, ◌++◌, IfOk, OnOk, map};
ghost use Rattle.std.specs.Prelude.{string_bytes};
ghost use Rattle.std.specs.List.{flat_map};
ghost use Rattle.guest_model.specs.Bytes.{low_bytes};
ghost use Rattle.rv_machine.specs.Load.{first_stack, stack_pointer_of, stack_words, strings_at};
ghost use Rattle.rv_machine.specs.Load.{strings_size, with_zero};

use elf_load::Image;
use guest_model::Area;
use guest_model::platform::{MOST_STRINGS, PAGE_SIZE, RANDOM_SIZE, STACK_END, STACK_START};
use std::alloc::{AllocError, Global};

/// Where the stack lies.
pub(crate) const STACK: Area = Area {
    start: STACK_START,
    end: STACK_END,
    read: true,
    write: true,
    execute: false,
};

/// Where the 16 bytes of AT_RANDOM lie, at the end of the stack.
pub(crate) const RANDOM: u32 = STACK_END - RANDOM_SIZE;

const RANDOM_BYTES: [u8; 16] = [0, 1, 2, 3, 4, 5, 6, 7, 8, 9, 10, 11, 12, 13, 14, 15];

// The words but for the addresses of the strings: argc, two zeros and seven pairs.
const OTHER_WORDS: u32 = 17;

/// The stack pointer, from which the words of `count` arguments have room below the strings, which
/// begin at `strings`.
pub(crate) fn stack_pointer(count: usize, strings: u32) -> u32
    requires { 4 * (count + 17) ≤ strings }
    ensures { result ≡ (strings - 4 * (count + 17)) / 16 * 16 }
{
    (strings - 4 * (count as u32 + OTHER_WORDS)) / 16 * 16
}

/// The bytes from the stack pointer to the end of the stack, where the strings begin at `strings`.
pub(crate) fn first_stack(
    alloc: Global,
    image: &Image,
    args: &[String],
    strings: u32,
    pointer: u32,
) -> Result<Vec<u8>, AllocError>
    requires few { strings_size (map string_bytes args.now) ≤ MOST_STRINGS }
    requires strings { strings ≡ strings_at (map string_bytes args.now) }
    requires pointer { pointer ≡ stack_pointer_of (map string_bytes args.now) }
    ensures { IfOk result
        (λ bytes. bytes.items ≡ first_stack image.now (map string_bytes args.now)) }
{
    let mut bytes = Vec::new(alloc);
    put_words(&mut bytes, &stack_words(alloc, image, args, strings)?)?;
    bytes.resize((strings - pointer) as usize, 0)?;
    put_strings(&mut bytes, args)?;
    bytes.extend_from_slice(&RANDOM_BYTES)?;
    Ok(bytes)
}

// The words from the stack pointer on, where the strings begin at `strings`.
fn stack_words(
    alloc: Global,
    image: &Image,
    args: &[String],
    strings: u32,
) -> Result<Vec<u32>, AllocError>
    requires few { strings_size (map string_bytes args.now) ≤ MOST_STRINGS }
    requires strings { strings ≡ strings_at (map string_bytes args.now) }
    ensures { IfOk result
        (λ words. words.items ≡ stack_words image.now (map string_bytes args.now)) }
{
    let mut words = Vec::new(alloc);
    words.push(args.len() as u32)?;
    let mut at = strings;
    for arg in args {
        words.push(at)?;
        at += arg.len() as u32 + 1;
    }
    words.extend_from_slice(&[
        0,
        0,
        3,
        image.phdr,
        4,
        32,
        5,
        image.phnum as u32,
        6,
        PAGE_SIZE,
        9,
        image.entry,
        25,
        RANDOM,
        0,
        0,
    ])?;
    Ok(words)
}

// Puts the words at the end, four bytes each, the lowest first.
fn put_words(bytes: &mut Vec<u8>, words: &[u32]) -> Result<(), AllocError>
    ensures { OnOk result (bytes.new.items ≡ bytes.old.items ++ flat_map (low_bytes 4) words.now) }
{
    for word in words {
        bytes.extend_from_slice(&word.to_le_bytes())?;
    }
    Ok(())
}

// Puts the strings at the end, with a zero byte each.
fn put_strings(bytes: &mut Vec<u8>, args: &[String]) -> Result<(), AllocError>
    ensures { OnOk result (bytes.new.items ≡ bytes.old.items
        ++ flat_map with_zero (map string_bytes args.now)) }
{
    for arg in args {
        bytes.extend_from_slice(arg.as_bytes())?;
        bytes.push(0)?;
    }
    Ok(())
}
