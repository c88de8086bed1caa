// The text of a program's code.
ghost use Rattle.std.specs.Prelude.{◌≡◌, ◌++◌, ◌+◌, ◌-◌, ◌/◌, ◌<◌, ◌≤◌, ◌^◌, All, IfOk, OnOk, filter, length, option_copied};
ghost use Rattle.std.specs.List.{flat_map};
ghost use Rattle.elf_load.specs.Image.{IsSegment, is_executable};
ghost use Rattle.ins_views.specs.Memory.{lies_in};
ghost use Rattle.ins_views.specs.Views.{views_of};
ghost use Rattle.sp_report.specs.View.{first_shown, instruction_text, lower, lowest_known, routine_line, segment_text, shown_byte, shown_name, view_text, word_line};

use crate::digits::{push_address, push_digits};
use crate::instruction::push_instruction;
use elf_load::{Function, Image, Segment};
use ins_views::{Views, memory_word};
use rv_isa::{Instr, decode};
use std::alloc::{AllocError, Global};

// A byte of a name, as it is printed.
fn shown_byte(byte: u8) -> u8
    ensures { result ≡ shown_byte byte }
{
    if 0x21 <= byte && byte <= 0x7e {
        byte
    } else {
        0x3f
    }
}

/// Adds a name, as it is printed.
pub fn push_name(text: &mut Vec<u8>, name: &[u8]) -> Result<(), AllocError>
    ensures { OnOk result (text.new.items ≡ text.old.items ++ shown_name name.now) }
{
    for byte in name {
        text.push(shown_byte(*byte))?;
    }
    Ok(())
}

// Adds the line of a routine, if one starts there.
fn push_routine(text: &mut Vec<u8>, routine: Option<&Function>) -> Result<(), AllocError>
    ensures { OnOk result (text.new.items ≡ text.old.items ++ routine_line (option_copied routine.entry)) }
{
    if let Some(routine) = routine {
        text.extend_from_slice(b"routine ")?;
        push_address(text, routine.start)?;
        text.extend_from_slice(b" ")?;
        push_name(text, routine.name.bytes())?;
        text.extend_from_slice(b"\n")?;
    }
    Ok(())
}

// Adds the text of an instruction, or `?` where there is none.
fn push_decoded(text: &mut Vec<u8>, instr: Option<Instr>) -> Result<(), AllocError>
    ensures { OnOk result (text.new.items ≡ text.old.items ++ instruction_text instr) }
{
    match instr {
        Some(instr) => push_instruction(text, &instr),
        None => text.extend_from_slice(b"?"),
    }
}

// Adds the line of a word.
fn push_word(text: &mut Vec<u8>, at: u32, word: u32) -> Result<(), AllocError>
    ensures { OnOk result (text.new.items ≡ text.old.items ++ word_line at word) }
{
    push_address(text, at)?;
    text.push(b' ')?;
    push_digits(text, word)?;
    text.push(b' ')?;
    push_decoded(text, decode(word))?;
    text.push(b'\n')?;
    Ok(())
}

// The lower of two places, where there is one already.
fn lower(lowest: Option<u32>, a: u32) -> Option<u32>
    ensures { result ≡ lower lowest a }
{
    match lowest {
        Some(b) => Some(b.min(a)),
        None => Some(a),
    }
}

// Whether an address lies in a segment.
fn lies_in(segment: &Segment, at: u32) -> bool
    requires { IsSegment segment.now }
    ensures { result ≡ lies_in segment.now.start segment.now.size at }
{
    segment.start <= at && at < segment.start + segment.size
}

// The lowest of the entry and the starts of routines that lie in a segment, or the segment's start.
fn lowest_known(entry: u32, functions: &[Function], segment: &Segment) -> u32
    requires { IsSegment segment.now }
    ensures value { result ≡ lowest_known entry functions.now segment.now }
    ensures from { segment.now.start ≤ result }
    ensures to { result ≤ segment.now.start + segment.now.size }
{
    let mut lowest = if lies_in(segment, entry) {
        Some(entry)
    } else {
        None
    };
    for function in functions {
        if lies_in(segment, function.start) {
            lowest = lower(lowest, function.start);
        }
    }
    lowest.unwrap_or(segment.start)
}

// The first address of a segment that is printed.
fn first_shown(image: &Image, segment: &Segment) -> u32
    requires { IsSegment segment.now }
    ensures value { result ≡ first_shown image.now segment.now }
    ensures from { segment.now.start ≤ result }
    ensures to { result ≤ segment.now.start + segment.now.size + 3 }
{
    (lowest_known(image.entry, &image.functions, segment) + 3) / 4 * 4
}

// How many words of a segment are printed.
fn count_shown(segment: &Segment, first: u32) -> u32
    requires { IsSegment segment.now }
    ensures value { result ≡ (segment.now.start + length segment.now.bytes - first) / 4 }
    ensures within { result < 2 ^ 29 }
{
    (segment.start + segment.bytes.len() as u32).saturating_sub(first) / 4
}

// Adds the lines of a segment.
fn push_segment(
    text: &mut Vec<u8>,
    image: &Image,
    views: &Views,
    segment: &Segment,
) -> Result<(), AllocError>
    requires views { views.now ≡ views_of image.now }
    requires segment { IsSegment segment.now }
    ensures { OnOk result (text.new.items ≡ text.old.items ++ segment_text image.now segment.now) }
{
    let first = first_shown(image, segment);
    for k in 0..count_shown(segment, first) {
        let at = first + 4 * k;
        push_routine(text, views.routine_at(at))?;
        push_word(text, at, memory_word(segment, at))?;
    }
    Ok(())
}

// The lines of the executable ones of these segments.
fn segments_text(
    alloc: Global,
    image: &Image,
    views: &Views,
    segments: &[Segment],
) -> Result<Vec<u8>, AllocError>
    requires views { views.now ≡ views_of image.now }
    requires segments { All IsSegment segments.now }
    ensures { IfOk result (λ text. text.items ≡ flat_map (segment_text image.now) (filter is_executable segments.now)) }
{
    let mut text = Vec::new(alloc);
    for segment in segments {
        if segment.flags & 1 != 0 {
            push_segment(&mut text, image, views, segment)?;
        }
    }
    Ok(text)
}

/// The text of a program's code. All of it is made in memory.
#[tactic(auto, unfolding(crate::specs::View::view_text))]
pub fn view_text(alloc: Global, image: &Image, views: &Views) -> Result<Vec<u8>, AllocError>
    requires { views.now ≡ views_of image.now }
    ensures { IfOk result (λ text. text.items ≡ view_text image.now) }
{
    segments_text(alloc, image, views, &image.segments)
}
