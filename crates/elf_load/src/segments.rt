// The segments of an image, from the program headers.
ghost use Rattle.std.specs.Prelude.{◌≡◌, ◌≤◌, ◌+◌, ◌^◌, true, false, length, map, All, IfOk};
ghost use Rattle.std.specs.Map.{values_of};
ghost use Rattle.elf_load.specs.Elf.{in_order, segment_of, holds_table, table_address};
ghost use Rattle.elf_load.specs.Tests.{ends_past_file, is_segment};

use crate::fields::{FileHeader, ProgramHeader};
use crate::header_checks::PROGRAM_HEADER;
use crate::image::Segment;
use crate::segment_checks::is_segment;
use std::alloc::{AllocError, Global};
use std::collections::BTreeMap;

// PF_X, PF_W and PF_R
const PERMISSIONS: u32 = 7;

// The headers of the segments, by address.
fn by_address(
    alloc: Global,
    headers: &[ProgramHeader],
) -> Result<BTreeMap<u32, ProgramHeader>, AllocError>
    ensures { IfOk result (λ segments. values_of segments.entries ≡ in_order headers.now) }
{
    let mut segments = BTreeMap::new(alloc);
    let mut k = headers.len();
    while k > 0 {
        k -= 1;
        let header = headers[k];
        if is_segment(&header) {
            segments.insert(header.address, header)?;
        }
    }
    Ok(segments)
}

/// The headers of the segments, in order of address.
pub fn in_order(alloc: Global, headers: &[ProgramHeader]) -> Result<Vec<ProgramHeader>, AllocError>
    ensures { IfOk result (λ ordered. ordered.items ≡ in_order headers.now) }
{
    by_address(alloc, headers)?.into_values().collect(alloc)
}

// The segment of a program header, with its bytes in the file.
fn segment(alloc: Global, file: &[u8], header: &ProgramHeader) -> Result<Segment, AllocError>
    requires { ends_past_file (length file.now) header.now ≡ false }
    ensures { IfOk result (λ segment. segment ≡ segment_of file.now header.now) }
{
    let from = header.offset as usize;
    let to = from + header.file_size as usize;
    Ok(Segment {
        start: header.address,
        size: header.memory_size,
        flags: (header.flags & PERMISSIONS) as u8,
        bytes: file[from..to].to_vec(alloc)?,
    })
}

/// The segments of these program headers.
pub fn segments(
    alloc: Global,
    file: &[u8],
    headers: &[ProgramHeader],
) -> Result<Vec<Segment>, AllocError>
    requires { All (λ header. ends_past_file (length file.now) header ≡ false) headers.now }
    ensures { IfOk result (λ segments. segments.items ≡ map (segment_of file.now) headers.now) }
{
    let mut segments = Vec::new(alloc);
    for header in headers {
        segments.push(segment(alloc, file, header)?)?;
    }
    Ok(segments)
}

// Whether the segment's bytes in the file hold the program header table.
fn holds_table(header: &FileHeader, segment: &ProgramHeader) -> bool
    ensures { result ≡ holds_table header.now segment.now }
{
    let from = header.program_headers_at as usize;
    let to = from + PROGRAM_HEADER * header.program_header_count as usize;
    is_segment(segment)
        && segment.offset as usize <= from
        && to <= segment.offset as usize + segment.file_size as usize
}

/// The address of the program header table in the first segment that holds it, or 0.
#[tactic(auto, unfolding(crate::specs::Elf::table_address))]
pub fn table_address(header: &FileHeader, headers: &[ProgramHeader]) -> u32
    requires { All (λ segment. is_segment segment ≡ true
        → segment.address + segment.file_size ≤ 2 ^ 30) headers.now }
    ensures { result ≡ table_address header.now headers.now }
{
    for segment in headers {
        if holds_table(header, segment) {
            return segment.address + (header.program_headers_at - segment.offset);
        }
    }
    0
}
