// The headers and symbols of an ELF file of 32 bits, little-endian.
ghost use Rattle.std.specs.Prelude.{◌≡◌, ◌≤◌, ◌+◌, length};
ghost use Rattle.elf_load.specs.Header.{half, word, file_header, program_header_at};
ghost use Rattle.elf_load.specs.Header.{section_header_at, symbol_at};

use byteorder::{ByteOrder, LittleEndian};

/// The fields of the file header (`Elf32_Ehdr`) that the loader reads.
#[derive(Clone, Copy)]
pub struct FileHeader {
    /// `e_type`
    pub file_type: u16,
    /// `e_machine`
    pub machine: u16,
    /// `e_entry`, an address
    pub entry: u32,
    /// `e_phoff`, an offset in the file
    pub program_headers_at: u32,
    /// `e_shoff`, an offset in the file
    pub section_headers_at: u32,
    /// `e_flags`
    pub flags: u32,
    /// `e_phentsize`, in bytes
    pub program_header_size: u16,
    /// `e_phnum`
    pub program_header_count: u16,
    /// `e_shentsize`, in bytes
    pub section_header_size: u16,
    /// `e_shnum`
    pub section_header_count: u16,
}

/// The fields of a program header (`Elf32_Phdr`) that the loader reads.
#[derive(Clone, Copy, Default)]
pub struct ProgramHeader {
    /// `p_type`
    pub kind: u32,
    /// `p_offset`, an offset in the file
    pub offset: u32,
    /// `p_vaddr`
    pub address: u32,
    /// `p_filesz`, in bytes
    pub file_size: u32,
    /// `p_memsz`, in bytes
    pub memory_size: u32,
    /// `p_flags`
    pub flags: u32,
    /// `p_align`
    pub alignment: u32,
}

/// The fields of a section header (`Elf32_Shdr`) that the loader reads.
#[derive(Clone, Copy)]
pub struct SectionHeader {
    /// `sh_type`
    pub kind: u32,
    /// `sh_offset`, an offset in the file
    pub offset: u32,
    /// `sh_size`, in bytes
    pub size: u32,
    /// `sh_link`, an index of the section header table
    pub link: u32,
    /// `sh_entsize`, in bytes
    pub entry_size: u32,
}

/// The fields of a symbol (`Elf32_Sym`) that the loader reads.
#[derive(Clone, Copy)]
pub struct Symbol {
    /// `st_name`, an offset in the section of names
    pub name: u32,
    /// `st_value`, an address
    pub value: u32,
    /// The type, the low 4 bits of `st_info`
    pub kind: u8,
    /// `st_shndx`, an index of the section header table
    pub section: u16,
}

// The number in the 2 bytes from `at` on.
#[tactic(auto, unfolding(crate::specs::Header::half))]
fn half(file: &[u8], at: usize) -> u16
    requires { at + 2 ≤ length file.now }
    ensures { result ≡ half file.now at }
{
    LittleEndian::read_u16(&file[at..])
}

// The number in the 4 bytes from `at` on.
#[tactic(auto, unfolding(crate::specs::Header::word))]
fn word(file: &[u8], at: usize) -> u32
    requires { at + 4 ≤ length file.now }
    ensures { result ≡ word file.now at }
{
    LittleEndian::read_u32(&file[at..])
}

/// The file header.
#[tactic(auto, unfolding(crate::specs::Header::file_header))]
pub fn file_header(file: &[u8]) -> FileHeader
    requires { 52 ≤ length file.now }
    ensures { result ≡ file_header file.now }
{
    FileHeader {
        file_type: half(file, 16),
        machine: half(file, 18),
        entry: word(file, 24),
        program_headers_at: word(file, 28),
        section_headers_at: word(file, 32),
        flags: word(file, 36),
        program_header_size: half(file, 42),
        program_header_count: half(file, 44),
        section_header_size: half(file, 46),
        section_header_count: half(file, 48),
    }
}

/// The program header at offset `at` of the file.
#[tactic(auto, unfolding(crate::specs::Header::program_header_at))]
pub fn program_header_at(file: &[u8], at: usize) -> ProgramHeader
    requires { at + 32 ≤ length file.now }
    ensures { result ≡ program_header_at file.now at }
{
    ProgramHeader {
        kind: word(file, at),
        offset: word(file, at + 4),
        address: word(file, at + 8),
        file_size: word(file, at + 16),
        memory_size: word(file, at + 20),
        flags: word(file, at + 24),
        alignment: word(file, at + 28),
    }
}

/// The section header at offset `at` of the file.
#[tactic(auto, unfolding(crate::specs::Header::section_header_at))]
pub fn section_header_at(file: &[u8], at: usize) -> SectionHeader
    requires { at + 40 ≤ length file.now }
    ensures { result ≡ section_header_at file.now at }
{
    SectionHeader {
        kind: word(file, at + 4),
        offset: word(file, at + 16),
        size: word(file, at + 20),
        link: word(file, at + 24),
        entry_size: word(file, at + 36),
    }
}

/// The symbol at offset `at` of the file.
#[tactic(auto, unfolding(crate::specs::Header::symbol_at))]
pub fn symbol_at(file: &[u8], at: usize) -> Symbol
    requires { at + 16 ≤ length file.now }
    ensures { result ≡ symbol_at file.now at }
{
    Symbol {
        name: word(file, at),
        value: word(file, at + 4),
        kind: file[at + 12] % 16,
        section: half(file, at + 14),
    }
}
