// The tests of the program headers.
ghost use Rattle.std.specs.Prelude.{◌≡◌, ◌&&◌, true, ◌≤◌, ◌<◌, ◌^◌, length, ◌+◌, IfSome};
ghost use Rattle.std.specs.List.{list_any};
ghost use Rattle.elf_load.specs.Limits.{most_headers};
ghost use Rattle.elf_load.specs.Tests.{first_fault, segment_tests, is_dynamic, is_segment};
ghost use Rattle.elf_load.specs.Tests.{can_execute, can_write, ends_past_file, is_malformed};
ghost use Rattle.elf_load.specs.Tests.{have_page_in_common, shares_page, is_outside_user};
ghost use Rattle.elf_load.specs.Tests.{first_segment, first_sharing, are_too_many_pages, holds};
ghost use Rattle.elf_load.specs.Tests.{is_code, is_entry, first_page, last_page, page_count};

use crate::fault::ElfFault;
use crate::fields::ProgramHeader;

const PAGE: u64 = 4096;

// The pages of the stack, and the most pages that may be mapped.
const STACK_PAGES: u64 = 256;

const MAX_PAGES: u64 = 16_384;

// The addresses of the user's memory.
const USER_START: u64 = 0x1000;

const USER_END: u64 = 0x4000_0000;

// Whether the program header asks for an interpreter or for dynamic linking: PT_INTERP or
// PT_DYNAMIC.
fn is_dynamic(header: &ProgramHeader) -> bool
    ensures { result ≡ is_dynamic header.now }
{
    header.kind == 2 || header.kind == 3
}

// Whether a program header asks for an interpreter or for dynamic linking.
fn is_any_dynamic(headers: &[ProgramHeader]) -> bool
    ensures { result ≡ list_any is_dynamic headers.now }
{
    headers.iter().any(is_dynamic)
}

/// Whether the program header is a segment: of type PT_LOAD, with some memory.
pub fn is_segment(header: &ProgramHeader) -> bool
    ensures { result ≡ is_segment header.now }
{
    header.kind == 1 && header.memory_size != 0
}

/// Whether the segment can be executed: PF_X.
pub fn can_execute(header: &ProgramHeader) -> bool
    ensures { result ≡ can_execute header.now }
{
    header.flags & 1 != 0
}

// Whether the segment can be written: PF_W.
fn can_write(header: &ProgramHeader) -> bool
    ensures { result ≡ can_write header.now }
{
    header.flags & 2 != 0
}

// Whether the segment's bytes end past a file of `size` bytes.
fn ends_past_file(size: usize, header: &ProgramHeader) -> bool
    ensures { result ≡ ends_past_file size header.now }
{
    size < header.offset as usize + header.file_size as usize
}

// Whether the segment has more bytes in the file than in memory, or an alignment that it does not
// keep.
fn is_malformed(header: &ProgramHeader) -> bool
    ensures { result ≡ is_malformed header.now }
{
    let alignment = header.alignment;
    header.memory_size < header.file_size
        || alignment > 1
            && (!alignment.is_power_of_two()
                || header.address % alignment != header.offset % alignment)
}

// The number of the segment's first page.
fn first_page(header: &ProgramHeader) -> u64
    ensures { result ≡ first_page header.now }
{
    header.address as u64 / PAGE
}

// The number of the segment's last page.
fn last_page(header: &ProgramHeader) -> u64
    requires { is_segment header.now ≡ true }
    ensures page { result ≡ last_page header.now }
    ensures small { result < 2 ^ 21 }
{
    (header.address as u64 + header.memory_size as u64 - 1) / PAGE
}

// Whether the two segments have a page in common.
fn have_page_in_common(a: &ProgramHeader, b: &ProgramHeader) -> bool
    requires first { is_segment a.now ≡ true }
    requires second { is_segment b.now ≡ true }
    ensures { result ≡ have_page_in_common a.now b.now }
{
    first_page(a) <= last_page(b) && first_page(b) <= last_page(a)
}

// Whether the segment has a page in common with a segment among `others`.
fn shares_page(others: &[ProgramHeader], header: &ProgramHeader) -> bool
    requires { is_segment header.now ≡ true }
    ensures { result ≡ shares_page others.now header.now }
{
    others.iter().any(|other| is_segment(other) && have_page_in_common(other, header))
}

// Whether the segment begins before the user's memory, or ends behind it.
fn is_outside_user(header: &ProgramHeader) -> bool
    ensures { result ≡ is_outside_user header.now }
{
    (header.address as u64) < USER_START
        || header.address as u64 + header.memory_size as u64 > USER_END
}

// The first segment whose bytes end past a file of `size` bytes.
#[tactic(auto, unfolding(crate::specs::Tests::first_segment))]
fn first_out_of_file(size: usize, headers: &[ProgramHeader]) -> Option<usize>
    ensures first { result ≡ first_segment (ends_past_file size) headers.now }
    ensures below { IfSome result (λ k. k < length headers.now) }
{
    headers.iter().position(|header| is_segment(header) && ends_past_file(size, header))
}

// The first segment that is malformed.
#[tactic(auto, unfolding(crate::specs::Tests::first_segment))]
fn first_malformed(headers: &[ProgramHeader]) -> Option<usize>
    ensures first { result ≡ first_segment is_malformed headers.now }
    ensures below { IfSome result (λ k. k < length headers.now) }
{
    headers
        .iter()
        .position(|header| is_segment(header) && is_malformed(header))
}

// The first segment that has a page in common with one before it in the table.
fn first_sharing(headers: &[ProgramHeader]) -> Option<usize>
    ensures first { result ≡ first_sharing headers.now }
    ensures below { IfSome result (λ k. k < length headers.now) }
{
    for (k, header) in headers.iter().enumerate() {
        if is_segment(header) && shares_page(&headers[..k], header) {
            return Some(k);
        }
    }
    None
}

// The first segment that can be written and executed.
#[tactic(auto, unfolding(crate::specs::Tests::first_segment))]
fn first_writable_code(headers: &[ProgramHeader]) -> Option<usize>
    ensures first { result ≡ first_segment
        (λ header. can_write header && can_execute header) headers.now }
    ensures below { IfSome result (λ k. k < length headers.now) }
{
    headers.iter().position(|header| is_segment(header)
        && (can_write(header) && can_execute(header)))
}

// The first segment that is not in the user's memory.
#[tactic(auto, unfolding(crate::specs::Tests::first_segment))]
fn first_outside_user(headers: &[ProgramHeader]) -> Option<usize>
    ensures first { result ≡ first_segment is_outside_user headers.now }
    ensures below { IfSome result (λ k. k < length headers.now) }
{
    headers
        .iter()
        .position(|header| is_segment(header) && is_outside_user(header))
}

// How many pages the segment is in.
fn page_count(header: &ProgramHeader) -> u64
    requires { is_segment header.now ≡ true }
    ensures count { result ≡ page_count header.now }
    ensures small { result ≤ 2 ^ 21 }
{
    last_page(header) + 1 - first_page(header)
}

// Whether the pages of the segments and of the stack are more than may be mapped.
#[tactic(auto, unfolding(crate::specs::Tests::are_too_many_pages))]
fn are_too_many_pages(headers: &[ProgramHeader]) -> bool
    requires { length headers.now ≤ most_headers }
    ensures { result ≡ are_too_many_pages headers.now }
{
    let mut pages = 0u64;
    for header in headers {
        if is_segment(header) {
            pages += page_count(header);
        }
    }
    pages + STACK_PAGES > MAX_PAGES
}

// Whether the segment's memory holds the bytes from address `from` to before `to`.
fn holds(from: u64, to: u64, header: &ProgramHeader) -> bool
    ensures { result ≡ holds from to header.now }
{
    is_segment(header)
        && header.address as u64 <= from
        && to <= header.address as u64 + header.memory_size as u64
}

/// Whether a segment that can be executed holds the bytes from address `from` to before `to`.
pub fn is_code(from: u64, to: u64, headers: &[ProgramHeader]) -> bool
    ensures { result ≡ is_code from to headers.now }
{
    headers
        .iter()
        .any(|header| can_execute(header) && holds(from, to, header))
}

// Whether the entry is a word of a segment that can be executed.
#[tactic(auto, unfolding(crate::specs::Tests::is_entry))]
fn is_entry(entry: u32, headers: &[ProgramHeader]) -> bool
    ensures { result ≡ is_entry entry headers.now }
{
    let from = entry as u64;
    entry % 4 == 0 && is_code(from, from + 4, headers)
}

/// The first fault of the program headers, at most 32, in a file of `size` bytes with this entry.
pub fn segment_fault(size: usize, entry: u32, headers: &[ProgramHeader]) -> Option<ElfFault>
    requires { length headers.now ≤ most_headers }
    ensures { result ≡ first_fault (segment_tests size entry headers.now) }
{
    if is_any_dynamic(headers) {
        return Some(ElfFault::Interpreter);
    }
    if let Some(k) = first_out_of_file(size, headers) {
        return Some(ElfFault::SegmentOutOfFile { k: k as u16 });
    }
    if let Some(k) = first_malformed(headers) {
        return Some(ElfFault::BadSegment { k: k as u16 });
    }
    if let Some(k) = first_sharing(headers) {
        return Some(ElfFault::SharedPage { k: k as u16 });
    }
    if let Some(k) = first_writable_code(headers) {
        return Some(ElfFault::WritableCode { k: k as u16 });
    }
    if let Some(k) = first_outside_user(headers) {
        return Some(ElfFault::OutsideUser { k: k as u16 });
    }
    if are_too_many_pages(headers) {
        return Some(ElfFault::TooManyPages);
    }
    if !is_entry(entry, headers) {
        return Some(ElfFault::BadEntry);
    }
    None
}
