// The tests of the symbol table.
ghost use Rattle.std.specs.Prelude.{◌≡◌, ℕ, ◌==◌, nat_lt, true, false, length, drop};
ghost use Rattle.std.specs.List.{list_any};
ghost use Rattle.elf_load.specs.Header.{file_header, section};
ghost use Rattle.elf_load.specs.Symbols.{section_ends_past_file, section_bytes, symbols};
ghost use Rattle.elf_load.specs.Symbols.{is_function, is_unnamed, is_malformed_table};
ghost use Rattle.elf_load.specs.Symbols.{are_malformed_names, is_bad_table, symbol_table};
ghost use Rattle.elf_load.specs.Symbols.{are_bad_symbols};
ghost use Rattle.elf_load.specs.Tests.{has_tables};

use crate::fields::{FileHeader, SectionHeader, Symbol, symbol_at};
use crate::tables::section;

/// The bytes of a symbol.
pub const SYMBOL: usize = 16;

// SHT_STRTAB
const STRING_TABLE: u32 = 3;

// STT_FUNC
const FUNCTION: u8 = 2;

// Whether the section's bytes end past a file of `size` bytes.
fn section_ends_past_file(size: usize, section: &SectionHeader) -> bool
    ensures { result ≡ section_ends_past_file size section.now }
{
    section.offset as usize + section.size as usize > size
}

/// The bytes of a section, which end in the file.
pub fn section_bytes<'a>(file: &'a [u8], section: &SectionHeader) -> &'a [u8]
    requires { section_ends_past_file (length file.now) section.now ≡ false }
    ensures { result.now ≡ section_bytes file.now section.now }
{
    let from = section.offset as usize;
    &file[from..from + section.size as usize]
}

/// Whether the symbol is a function in use.
pub fn is_function(symbol: &Symbol) -> bool
    ensures { result ≡ is_function symbol.now }
{
    symbol.kind == FUNCTION && symbol.section != 0
}

// Whether the table is no whole number of symbols, or ends past the file, or is linked to no
// section.
fn is_malformed_table(file: &[u8], header: &FileHeader, table: &SectionHeader) -> bool
    requires { header.now ≡ file_header file.now }
    ensures { result ≡ is_malformed_table file.now table.now }
{
    table.size as usize % SYMBOL != 0
        || table.entry_size as usize != SYMBOL
        || section_ends_past_file(file.len(), table)
        || table.link >= header.section_header_count as u32
}

// Whether the section is no string table, or ends past the file.
fn are_malformed_names(file: &[u8], strings: &SectionHeader) -> bool
    ensures { result ≡ are_malformed_names file.now strings.now }
{
    strings.kind != STRING_TABLE || section_ends_past_file(file.len(), strings)
}

// The place behind the last zero byte, or 0 if there is none: a name that begins before it has an
// end.
fn names_end(names: &[u8]) -> usize
    ensures { (at : ℕ) → list_any (λ byte. byte == 0) (drop at names.now) ≡ nat_lt at result }
{
    let mut end = 0;
    for (at, byte) in names.iter().enumerate() {
        if *byte == 0 {
            end = at + 1;
        }
    }
    end
}

// Whether a function in use has a name without an end.
fn is_any_unnamed(file: &[u8], table: &SectionHeader, names: &[u8]) -> bool
    requires { section_ends_past_file (length file.now) table.now ≡ false }
    ensures { result ≡ list_any (is_unnamed names.now) (symbols file.now table.now) }
{
    let end = names_end(names);
    for k in 0..table.size as usize / SYMBOL {
        let symbol = symbol_at(file, table.offset as usize + SYMBOL * k);
        if is_function(&symbol) && symbol.name as usize >= end {
            return true;
        }
    }
    false
}

// Whether the table, its names or the name of a function is malformed.
fn is_bad_table(file: &[u8], header: &FileHeader, table: &SectionHeader) -> bool
    requires header { header.now ≡ file_header file.now }
    requires tables { has_tables header.now (length file.now) ≡ true }
    ensures { result ≡ is_bad_table file.now table.now }
{
    if is_malformed_table(file, header, table) {
        return true;
    }
    let strings = section(file, header, table.link as usize);
    if are_malformed_names(file, &strings) {
        return true;
    }
    is_any_unnamed(file, table, section_bytes(file, &strings))
}

/// Whether the file's symbol table, if it has one, is bad.
#[tactic(auto, unfolding(crate::specs::Symbols::are_bad_symbols))]
pub fn are_bad_symbols(file: &[u8], header: &FileHeader, table: Option<SectionHeader>) -> bool
    requires header { header.now ≡ file_header file.now }
    requires tables { has_tables header.now (length file.now) ≡ true }
    requires table { table ≡ symbol_table file.now }
    ensures { result ≡ are_bad_symbols file.now }
{
    match table {
        Some(table) => is_bad_table(file, header, &table),
        None => false,
    }
}
