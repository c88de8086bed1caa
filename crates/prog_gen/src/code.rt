// Bytes of a file: headers, words and instructions.
ghost use Rattle.std.specs.Prelude.{◌≡◌, ◌++◌, [], ◌∷◌, IfOk};
ghost use Rattle.std.specs.List.{flat_map};
ghost use Rattle.prog_gen.specs.File.{word, headers, Adds};

use rv_isa::{Instr, encode};
use std::alloc::AllocError;

// Appends words, the lowest byte of each first.
fn push_words(bytes: &mut Vec<u8>, words: &[u32]) -> Result<(), AllocError>
    ensures { IfOk result (λ _.
        bytes.new.items ≡ bytes.old.items ++ flat_map word words.now) }
{
    for word in words {
        bytes.extend_from_slice(&word.to_le_bytes())?;
    }
    Ok(())
}

// Appends the headers of a file of `size` bytes, which are loaded at 0x10000, with `zeros_size`
// bytes of zeros at `zeros`. The code begins behind them, at the entry.
pub(crate) fn push_headers(
    bytes: &mut Vec<u8>,
    size: u32,
    zeros: u32,
    zeros_size: u32,
) -> Result<(), AllocError>
    ensures { IfOk result (λ _.
        bytes.new.items ≡ bytes.old.items ++ headers size zeros zeros_size) }
{
    // the file header, and the program headers of the file's bytes and of the zeros
    push_words(
        bytes,
        &[
            0x464c457f, 0x00010101, 0, 0, 0x00f30002, 1, 0x00010074, 52, 0, 0, 0x00200034,
            0x00280002, 0, 1, 0, 0x10000, 0x10000, size, size, 5, 0x1000, 1, 0, zeros, zeros, 0,
            zeros_size, 6, 0x1000,
        ],
    )
}

// Appends an instruction.
#[tactic(auto, using(crate::proofs::Added::adds_one))]
pub(crate) fn push(bytes: &mut Vec<u8>, instr: &Instr) -> Result<(), AllocError>
    ensures { IfOk result (λ _. Adds (instr.now ∷ []) bytes.old.items bytes.new.items) }
{
    bytes.extend_from_slice(&encode(instr).to_le_bytes())?;
    Ok(())
}

// Appends instructions.
pub(crate) fn push_all(bytes: &mut Vec<u8>, instrs: &[Instr]) -> Result<(), AllocError>
    ensures { IfOk result (λ _. Adds instrs.now bytes.old.items bytes.new.items) }
{
    for instr in instrs {
        push(bytes, instr)?;
    }
    Ok(())
}
