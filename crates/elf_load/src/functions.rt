// The functions that the symbol table names.
ghost use Rattle.std.specs.Prelude.{◌≡◌, true, false, length, map, IfOk};
ghost use Rattle.std.specs.Arc.{arc_value};
ghost use Rattle.std.specs.List.{filter_map};
ghost use Rattle.elf_load.specs.Header.{file_header};
ghost use Rattle.elf_load.specs.Symbols.{section_ends_past_file, symbols, names, by_address};
ghost use Rattle.elf_load.specs.Symbols.{function_entry, function_named, is_bad_table};
ghost use Rattle.elf_load.specs.Symbols.{table_functions, symbol_table, are_bad_symbols, functions};
ghost use Rattle.elf_load.specs.Tests.{has_tables};

use crate::fields::{FileHeader, ProgramHeader, SectionHeader, symbol_at};
use crate::image::{Function, Name};
use crate::segment_checks::is_code;
use crate::symbol_checks::{SYMBOL, is_function, section_bytes};
use crate::tables::section;
use std::alloc::{AllocError, Global};
use std::collections::BTreeMap;
use std::sync::Arc;

// The address of each function in use in code and the offset of its name, in order of address. The
// table is read from its end, so that the first of several at one address stays.
fn entries(
    alloc: Global,
    file: &[u8],
    table: &SectionHeader,
    headers: &[ProgramHeader],
) -> Result<BTreeMap<u32, u32>, AllocError>
    requires { section_ends_past_file (length file.now) table.now ≡ false }
    ensures { IfOk result
        (λ entries. entries.entries
        ≡ by_address (filter_map (function_entry headers.now) (symbols file.now table.now))) }
{
    let mut entries = BTreeMap::new(alloc);
    let mut k = table.size as usize / SYMBOL;
    while k > 0 {
        k -= 1;
        let symbol = symbol_at(file, table.offset as usize + SYMBOL * k);
        let address = symbol.value as u64;
        if is_function(&symbol) && is_code(address, address + 1, headers) {
            entries.insert(symbol.value, symbol.name)?;
        }
    }
    Ok(entries)
}

// A copy of these bytes that several can own.
fn shared(alloc: Global, bytes: &[u8]) -> Result<Arc<Vec<u8>>, AllocError>
    ensures { IfOk result (λ copy. (arc_value copy).items ≡ bytes.now) }
{
    Ok(Arc::new(alloc, bytes.to_vec(alloc)?)?)
}

// The functions of these entries, whose names stand in this table.
fn named(
    alloc: Global,
    table: &Arc<Vec<u8>>,
    entries: &[(u32, u32)],
) -> Result<Vec<Function>, AllocError>
    ensures { IfOk result (λ functions.
        functions.items ≡ map (function_named (arc_value table.now).items) entries.now) }
{
    let mut functions = Vec::with_capacity(alloc, entries.len())?;
    for (start, at) in entries {
        functions.push(Function {
            start: *start,
            name: Name::new(Arc::try_clone(table)?, *at),
        })?;
    }
    Ok(functions)
}

// The pairs of a map, in order.
fn pairs(alloc: Global, map: BTreeMap<u32, u32>) -> Result<Vec<(u32, u32)>, AllocError>
    ensures { IfOk result (λ pairs. pairs.items ≡ map.entries) }
{
    map.into_iter().collect(alloc)
}

// The names of the symbols of a table that is not bad.
fn names<'a>(file: &'a [u8], header: &FileHeader, table: &SectionHeader) -> &'a [u8]
    requires header { header.now ≡ file_header file.now }
    requires tables { has_tables header.now (length file.now) ≡ true }
    requires good { is_bad_table file.now table.now ≡ false }
    ensures { result.now ≡ names file.now table.now }
{
    section_bytes(file, &section(file, header, table.link as usize))
}

// The functions in use in code that a table names, in order of address. The table is not bad.
fn table_functions(
    alloc: Global,
    file: &[u8],
    header: &FileHeader,
    table: &SectionHeader,
    headers: &[ProgramHeader],
) -> Result<Vec<Function>, AllocError>
    requires header { header.now ≡ file_header file.now }
    requires tables { has_tables header.now (length file.now) ≡ true }
    requires good { is_bad_table file.now table.now ≡ false }
    ensures { IfOk result
        (λ functions. functions.items ≡ table_functions file.now headers.now table.now) }
{
    let entries = pairs(alloc, entries(alloc, file, table, headers)?)?;
    let names = shared(alloc, names(file, header, table))?;
    named(alloc, &names, &entries)
}

/// The functions in use in code that the file's symbol table names, in order of address; none if it
/// has no symbol table. The table is not bad.
#[tactic(auto, unfolding(crate::specs::Symbols::functions))]
pub fn functions(
    alloc: Global,
    file: &[u8],
    header: &FileHeader,
    table: Option<SectionHeader>,
    headers: &[ProgramHeader],
) -> Result<Vec<Function>, AllocError>
    requires header { header.now ≡ file_header file.now }
    requires tables { has_tables header.now (length file.now) ≡ true }
    requires table { table ≡ symbol_table file.now }
    requires good { are_bad_symbols file.now ≡ false }
    ensures { IfOk result (λ found. found.items ≡ functions file.now headers.now) }
{
    match table {
        Some(table) => table_functions(alloc, file, header, &table, headers),
        None => Ok(Vec::new(alloc)),
    }
}
