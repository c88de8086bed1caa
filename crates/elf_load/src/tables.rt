// The program header table and the section header table.
ghost use Rattle.std.specs.Prelude.{◌≡◌, ◌<◌, true, length, find, ◌≤◌};
ghost use Rattle.elf_load.specs.Header.{file_header, program_headers, section};
ghost use Rattle.elf_load.specs.Limits.{most_headers};
ghost use Rattle.elf_load.specs.Symbols.{symbol_table};
ghost use Rattle.elf_load.specs.Tests.{has_tables};

use crate::fields::{
    FileHeader, ProgramHeader, SectionHeader, program_header_at, section_header_at,
};
use crate::header_checks::{MAX_PROGRAM_HEADERS, PROGRAM_HEADER, SECTION_HEADER};
use arrayvec::ArrayVec;

// SHT_SYMTAB
const SYMBOL_TABLE: u32 = 2;

/// The program header table, which ends in the file.
pub fn program_headers(
    file: &[u8],
    header: &FileHeader,
) -> ArrayVec<ProgramHeader, MAX_PROGRAM_HEADERS>
    requires header { header.now ≡ file_header file.now }
    requires tables { has_tables header.now (length file.now) ≡ true }
    requires few { header.now.program_header_count ≤ most_headers }
    ensures { result.items ≡ program_headers file.now }
{
    let mut headers = ArrayVec::new();
    let at = header.program_headers_at as usize;
    for k in 0..header.program_header_count as usize {
        headers.push(program_header_at(file, at + PROGRAM_HEADER * k));
    }
    headers
}

/// The section header at index `k` of the table, which ends in the file.
#[tactic(auto, unfolding(crate::specs::Header::section))]
pub fn section(file: &[u8], header: &FileHeader, k: usize) -> SectionHeader
    requires header { header.now ≡ file_header file.now }
    requires tables { has_tables header.now (length file.now) ≡ true }
    requires index { k < header.now.section_header_count }
    ensures { result ≡ section file.now k }
{
    section_header_at(
        file,
        header.section_headers_at as usize + SECTION_HEADER * k,
    )
}

/// The header of the first section that is a symbol table, if there is one.
pub fn symbol_table(file: &[u8], header: &FileHeader) -> Option<SectionHeader>
    requires header { header.now ≡ file_header file.now }
    requires tables { has_tables header.now (length file.now) ≡ true }
    ensures { result ≡ symbol_table file.now }
{
    for k in 0..header.section_header_count as usize {
        let found = section(file, header, k);
        if found.kind == SYMBOL_TABLE {
            return Some(found);
        }
    }
    None
}
