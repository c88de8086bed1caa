// The lines of a run's slices.
ghost use Rattle.std.specs.Prelude.{◌≡◌, ◌++◌, IfOk, OnOk, decimal};
ghost use Rattle.sp_report.specs.Slices.{figures_text, hits_text, lines_text, slice_text};

use itoa::Buffer;
use ordered_merge::SliceLine;
use std::alloc::{AllocError, Global};
use tool_law::Hits;

// Adds a number.
fn push_decimal(text: &mut Vec<u8>, n: u64) -> Result<(), AllocError>
    ensures { OnOk result (text.new.items ≡ text.old.items ++ decimal n) }
{
    let mut buffer = Buffer::new();
    text.extend_from_slice(buffer.format(n).as_bytes())
}

// Adds the four counts.
fn push_hits(text: &mut Vec<u8>, hits: &Hits) -> Result<(), AllocError>
    ensures { OnOk result (text.new.items ≡ text.old.items ++ hits_text hits.now) }
{
    push_decimal(text, hits.quick)?;
    text.push(b' ')?;
    push_decimal(text, hits.registers)?;
    text.push(b' ')?;
    push_decimal(text, hits.stack)?;
    text.push(b' ')?;
    push_decimal(text, hits.whole)?;
    Ok(())
}

// Adds the instructions, the calls and the hits of a slice.
fn push_figures(text: &mut Vec<u8>, line: &SliceLine) -> Result<(), AllocError>
    ensures { OnOk result (text.new.items ≡ text.old.items ++ figures_text line.now) }
{
    push_decimal(text, line.steps)?;
    text.push(b' ')?;
    push_decimal(text, line.calls)?;
    text.push(b' ')?;
    push_hits(text, &line.hits)
}

// Adds the line of a slice.
#[tactic(auto, unfolding(crate::specs::Slices::slice_text))]
fn push_slice(text: &mut Vec<u8>, number: u64, line: &SliceLine) -> Result<(), AllocError>
    ensures { OnOk result (text.new.items ≡ text.old.items ++ slice_text (number, line.now)) }
{
    text.extend_from_slice(b"slice ")?;
    push_decimal(text, number)?;
    text.extend_from_slice(b" ")?;
    push_figures(text, line)?;
    text.extend_from_slice(b"\n")?;
    Ok(())
}

/// The lines of slices, numbered from 0, with a line end each. It fails for want of memory alone.
pub fn slice_lines(alloc: Global, lines: &[SliceLine]) -> Result<Vec<u8>, AllocError>
    ensures { IfOk result (λ text. text.items ≡ lines_text lines.now) }
{
    let mut text = Vec::new(alloc);
    for (number, line) in lines.iter().enumerate() {
        push_slice(&mut text, number as u64, line)?;
    }
    Ok(text)
}
