// The whole loader.
ghost use Rattle.std.specs.Prelude.{◌≡◌, ◌≤◌, ◌⊎◌, true, false, None, Some, length, IfOk};
ghost use Rattle.std.specs.Prelude.{MatchResult};
ghost use Rattle.elf_load.specs.Elf.{refusal_of, image_of};
ghost use Rattle.elf_load.specs.Header.{file_header, program_headers};
ghost use Rattle.elf_load.specs.Limits.{most_headers};
ghost use Rattle.elf_load.specs.Symbols.{symbol_table, are_bad_symbols};
ghost use Rattle.elf_load.specs.Tests.{first_fault, segment_tests, has_tables};
ghost use Rattle.elf_load.specs.declared.fault.ElfFault.TheVariants.{NoMemory};

use crate::fault::ElfFault;
use crate::fields::{FileHeader, ProgramHeader, SectionHeader, file_header};
use crate::functions::functions;
use crate::header_checks::{header_fault, identification_fault};
use crate::image::Image;
use crate::segment_checks::segment_fault;
use crate::segments::{in_order, segments, table_address};
use crate::symbol_checks::are_bad_symbols;
use crate::tables::{program_headers, symbol_table};
use std::alloc::{AllocError, Global};

// The image of a file that passes all tests.
fn image(
    alloc: Global,
    file: &[u8],
    header: &FileHeader,
    headers: &[ProgramHeader],
    table: Option<SectionHeader>,
) -> Result<Image, AllocError>
    requires header { header.now ≡ file_header file.now }
    requires headers { headers.now ≡ program_headers file.now }
    requires table { table ≡ symbol_table file.now }
    requires few { header.now.program_header_count ≤ most_headers }
    requires tables { has_tables header.now (length file.now) ≡ true }
    requires passed { None
        ≡ first_fault (segment_tests (length file.now) header.now.entry headers.now) }
    requires good { are_bad_symbols file.now ≡ false }
    ensures { IfOk result (λ image. image ≡ image_of file.now) }
{
    let ordered = in_order(alloc, headers)?;
    Ok(Image {
        entry: header.entry,
        phdr: table_address(header, headers),
        phnum: header.program_header_count,
        segments: segments(alloc, file, &ordered)?,
        functions: functions(alloc, file, header, table, headers)?,
    })
}

/// The image of a static executable for RISC-V in an ELF file of 32 bits.
///
/// # Errors
/// The first test of [`ElfFault`], in its order, that the file fails. The tests take no memory:
/// `NoMemory` comes where the file passes them all and there is none for the image.
pub fn load(alloc: Global, file: &[u8]) -> Result<Image, ElfFault>
    ensures { MatchResult result
        (λ image. (refusal_of file.now ≡ None) × (image ≡ image_of file.now))
        (λ fault. ((refusal_of file.now ≡ None) × (fault ≡ ElfFault.NoMemory))
        ⊎ (refusal_of file.now ≡ Some fault)) }
{
    if let Some(fault) = identification_fault(file) {
        return Err(fault);
    }
    let header = file_header(file);
    if let Some(fault) = header_fault(&header, file.len()) {
        return Err(fault);
    }
    let headers = program_headers(file, &header);
    let headers = headers.as_slice();
    if let Some(fault) = segment_fault(file.len(), header.entry, headers) {
        return Err(fault);
    }
    let table = symbol_table(file, &header);
    if are_bad_symbols(file, &header, table) {
        return Err(ElfFault::BadSymbols);
    }
    match image(alloc, file, &header, headers, table) {
        Ok(image) => Ok(image),
        Err(_) => Err(ElfFault::NoMemory),
    }
}
