// The tests of the file header.
ghost use Rattle.std.specs.Prelude.{◌≡◌, ◌≤◌, true, length, IfNone};
ghost use Rattle.elf_load.specs.Limits.{most_headers};
ghost use Rattle.elf_load.specs.Tests.{first_fault, identification_tests, header_tests};
ghost use Rattle.elf_load.specs.Tests.{has_unsupported_flags, has_header_sizes, has_tables};

use crate::fault::ElfFault;
use crate::fields::FileHeader;

// The bytes of a file header, of a program header and of a section header.
pub const FILE_HEADER: usize = 52;

pub const PROGRAM_HEADER: usize = 32;

pub const SECTION_HEADER: usize = 40;

// EM_RISCV
const RISCV: u16 = 243;

// EF_RISCV_RVC, EF_RISCV_FLOAT_ABI and EF_RISCV_RVE
const UNSUPPORTED_FLAGS: u32 = 0xf;

// The most program headers that a file may have.
pub const MAX_PROGRAM_HEADERS: usize = 32;

/// The first fault of the bytes that say what kind of file it is.
pub fn identification_fault(file: &[u8]) -> Option<ElfFault>
    ensures first { result ≡ first_fault (identification_tests file.now) }
    ensures long { IfNone result (52 ≤ length file.now) }
{
    if file.len() < FILE_HEADER {
        return Some(ElfFault::TooShort);
    }
    if !file.starts_with(&[0x7f, b'E', b'L', b'F']) {
        return Some(ElfFault::NotElf);
    }
    if file[4] != 1 || file[5] != 1 {
        return Some(ElfFault::NotElf32Little);
    }
    None
}

/// The first fault of the file header, in a file of `size` bytes.
pub fn header_fault(header: &FileHeader, size: usize) -> Option<ElfFault>
    ensures first { result ≡ first_fault (header_tests header.now size) }
    ensures few { IfNone result (header.now.program_header_count ≤ most_headers) }
    ensures tables { IfNone result (has_tables header.now size ≡ true) }
{
    if header.file_type != 2 {
        return Some(ElfFault::NotExec);
    }
    if header.machine != RISCV {
        return Some(ElfFault::NotRiscv);
    }
    if has_unsupported_flags(header) {
        return Some(ElfFault::Flags {
            value: header.flags,
        });
    }
    if !has_header_sizes(header) {
        return Some(ElfFault::HeaderSizes);
    }
    if !has_tables(header, size) {
        return Some(ElfFault::TableOutOfFile);
    }
    None
}

// Whether the flags name an extension or a calling convention that is not supported.
fn has_unsupported_flags(header: &FileHeader) -> bool
    ensures { result ≡ has_unsupported_flags header.now }
{
    header.flags & UNSUPPORTED_FLAGS != 0
}

// Whether there are 1 to 32 program headers, and all headers have their size.
fn has_header_sizes(header: &FileHeader) -> bool
    ensures { result ≡ has_header_sizes header.now }
{
    header.program_header_size as usize == PROGRAM_HEADER
        && header.program_header_count >= 1
        && header.program_header_count as usize <= MAX_PROGRAM_HEADERS
        && (header.section_header_count == 0
            || header.section_header_size as usize == SECTION_HEADER)
}

// Whether both tables end in a file of `size` bytes.
fn has_tables(header: &FileHeader, size: usize) -> bool
    ensures { result ≡ has_tables header.now size }
{
    let programs_end = header.program_headers_at as usize
        + PROGRAM_HEADER * header.program_header_count as usize;
    let sections_end = header.section_headers_at as usize
        + SECTION_HEADER * header.section_header_count as usize;
    programs_end <= size && (header.section_header_count == 0 || sections_end <= size)
}
