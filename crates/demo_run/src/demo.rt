// The text of the demonstration.
ghost use Rattle.std.specs.Prelude.{◌≡◌, IfOk, map};
ghost use Rattle.demo_run.specs.Demo.{DemoGives, all_lines};
ghost use Rattle.demo_run.specs.Parts.{ThreeGive};
ghost use Rattle.sp_report.specs.Lines.{end_by};
ghost use Rattle.sliced_run.specs.Sliced.{line_by};

use crate::program::image_of;
use crate::runs::{Cut, both};
use crate::text::{push_cuts, push_file, push_matches};
use cache_tool::DirectCache;
use elf_load::Image;
use prog_gen::demo_program;
use sp_report::{Refusal, end_line};
use std::alloc::{AllocError, Global};
use std::thread::Threads;
use tool_counts::{BlockCount, InsCount};

// The three runs by windows.
#[derive(Drop)]
pub(crate) struct Three {
    pub(crate) icount: Cut,
    pub(crate) bcount: Cut,
    pub(crate) cache: Cut,
}

// The runs of an image with each of the three tools.
fn run_all<R: Threads + Sync>(rt: &R, alloc: Global, image: &Image) -> Result<Three, Refusal>
    ensures { ThreeGive image.now result }
{
    let icount = match both(rt, alloc, image, &InsCount) {
        Ok(cut) => cut,
        Err(refusal) => return Err(refusal),
    };
    let bcount = match both(rt, alloc, image, &BlockCount) {
        Ok(cut) => cut,
        Err(refusal) => return Err(refusal),
    };
    let cache = match both(rt, alloc, image, &DirectCache::default()) {
        Ok(cut) => cut,
        Err(refusal) => return Err(refusal),
    };
    Ok(Three {
        icount,
        bcount,
        cache,
    })
}

// The lines of the three runs, all of which were cut alike.
fn lines_of(alloc: Global, n: u32, bytes: usize, three: &Three) -> Result<Vec<u8>, AllocError>
    ensures { IfOk result (λ text. text.items ≡ all_lines n bytes
        three.now.icount.seen.text.items three.now.bcount.seen.text.items three.now.cache.seen.text.items
        (end_by three.now.cache.seen.end) three.now.cache.cuts.items (map line_by three.now.cache.lines.items)) }
{
    let mut text = Vec::new(alloc);
    push_file(&mut text, n, bytes)?;
    text.extend_from_slice(&three.icount.seen.text)?;
    text.extend_from_slice(&three.bcount.seen.text)?;
    text.extend_from_slice(&three.cache.seen.text)?;
    text.extend_from_slice(&end_line(alloc, &three.cache.seen.end)?)?;
    push_cuts(&mut text, three.cache.cuts.len())?;
    push_matches(&mut text, &three.cache.lines)?;
    text.extend_from_slice(b"equal\n")?;
    Ok(text)
}

/// The text of the demonstration of `n`: the program `demo_program(n)` is run for icount, bcount and a cache of 64 sets of 32
/// bytes, serially and by windows, with no input and no moments. Its lines are `demo N file BYTES`, with the size of the
/// program's file; the text of each tool; how the run ended; `cuts C`, at how many positions the run by windows was cut;
/// `matches Q R S W`, how many positions of all slices passed each test of the end of their slice; and `equal`, since the
/// two runs of each tool gave the same text and end.
///
/// # Errors
/// `Elf` where the file is not accepted; `UnsupportedCall` where the run comes to a call without a row; `BudgetSpent` where it
/// goes on after 1,000,000,000 steps; `NoMemory` where there is no memory.
pub fn demo_text<R: Threads + Sync>(rt: &R, alloc: Global, n: u32) -> Result<Vec<u8>, Refusal>
    ensures { DemoGives n result }
{
    let Ok(file) = demo_program(alloc, n) else {
        return Err(Refusal::NoMemory);
    };
    let image = match image_of(alloc, &file) {
        Ok(image) => image,
        Err(refusal) => return Err(refusal),
    };
    let three = match run_all(rt, alloc, &image) {
        Ok(three) => three,
        Err(refusal) => return Err(refusal),
    };
    match lines_of(alloc, n, file.len(), &three) {
        Ok(text) => Ok(text),
        Err(_) => Err(Refusal::NoMemory),
    }
}
