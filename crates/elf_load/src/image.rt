// What an executable asks to be loaded.
ghost use Rattle.std.specs.Prelude.{◌≡◌, ◌==◌, not, drop, take_while};
ghost use Rattle.std.specs.List.{prefix_len};

use std::alloc::AllocError;
use std::marker::Model;
use std::sync::Arc;

/// A segment: `bytes` stand at address `start`, and zeros behind them up to `size` bytes.
#[derive(Drop)]
pub struct Segment {
    /// The address of the first byte.
    pub start: u32,
    /// How many bytes the segment takes in memory.
    pub size: u32,
    /// The flags of its program header: 1 execute, 2 write, 4 read (ELF, `p_flags`).
    pub flags: u8,
    /// The bytes that the file gives, at most `size`.
    pub bytes: Vec<u8>,
}

impl Model for Segment {
    ghost use Rattle.elf_load.specs.Image.{SegmentFields};

    ghost Value = { SegmentFields };

    ghost view = { λ s. record { start = s.start; size = s.size; flags = s.flags; bytes = s.bytes.items } };
}

/// A name of a string table: its bytes up to its final zero byte. The names of an image share one
/// copy of the table.
#[derive(Drop)]
pub struct Name {
    table: Arc<Vec<u8>>,
    // where the name begins in the table
    at: u32,
}

impl Model for Name {
    ghost use Rattle.std.specs.Prelude.{ℕ, List};
    ghost use Rattle.std.specs.Arc.{arc_value};
    ghost use Rattle.elf_load.specs.Image.{name_at};

    ghost Value = { List ℕ };

    ghost view = { λ n. name_at (arc_value n.table).items n.at };
}

impl Name {
    ghost use Rattle.std.specs.Prelude.{◌≡◌, IfOk};
    ghost use Rattle.std.specs.Arc.{arc_value};
    ghost use Rattle.elf_load.specs.Image.{name_at};

    // The name that begins at byte `at` of a string table.
    pub(crate) fn new(table: Arc<Vec<u8>>, at: u32) -> Name
        ensures { result ≡ name_at (arc_value table).items at }
    {
        Name { table, at }
    }

    /// The same name again, which shares its table. It copies no byte.
    pub fn share(&self) -> Result<Name, AllocError>
        ensures { IfOk result (λ name. name ≡ self.now) }
    {
        Ok(Name {
            table: Arc::try_clone(&self.table)?,
            at: self.at,
        })
    }

    /// The bytes of the name, without its final zero byte. It looks for that, so it takes the time
    /// of the name's length.
    pub fn bytes(&self) -> &[u8]
        ensures { result.now ≡ self.now }
    {
        up_to_zero(bytes_from(&self.table, self.at as usize))
    }
}

/// A function of the symbol table.
#[derive(Drop)]
pub struct Function {
    /// The address of the first instruction.
    pub start: u32,
    pub name: Name,
}

impl Model for Function {
    ghost use Rattle.elf_load.specs.Image.{FunctionFields};

    ghost Value = { FunctionFields };

    ghost view = { λ f. record { start = f.start; name = f.name } };
}

impl Function {
    ghost use Rattle.std.specs.Prelude.{◌≡◌, IfOk};

    /// The same function again, whose name shares its table. It copies no byte.
    pub fn share(&self) -> Result<Function, AllocError>
        ensures { IfOk result (λ function. function ≡ self.now) }
    {
        Ok(Function {
            start: self.start,
            name: self.name.share()?,
        })
    }
}

/// What an executable asks to be loaded.
#[derive(Drop)]
pub struct Image {
    /// The address of the first instruction to run.
    pub entry: u32,
    /// The address of the program header table in memory.
    pub phdr: u32,
    /// The number of entries of the program header table.
    pub phnum: u16,
    /// The segments, at most 32, in order of address. Each has 1 byte or more, from 0x1000 to below
    /// 0x4000_0000, and no page in common with another.
    pub segments: Vec<Segment>,
    /// The functions in code, in order of address, one at each.
    pub functions: Vec<Function>,
}

impl Model for Image {
    ghost use Rattle.elf_load.specs.Image.{ImageFields, IsImage};

    ghost Value = { ImageFields };

    ghost view = { λ i. record { entry = i.entry; phdr = i.phdr; phnum = i.phnum; segments = i.segments.items; functions = i.functions.items } };

    ghost invariant = { λ i. IsImage (record { entry = i.entry; phdr = i.phdr; phnum = i.phnum; segments = i.segments.items; functions = i.functions.items }) };
}

// The bytes from place `at` on, none where that is past the end.
fn bytes_from(bytes: &[u8], at: usize) -> &[u8]
    ensures { result.now ≡ drop at bytes.now }
{
    if at < bytes.len() { &bytes[at..] } else { &[] }
}

// How many bytes stand before the first zero byte.
fn name_length(bytes: &[u8]) -> usize
    ensures { result ≡ prefix_len (λ byte. not (byte == 0)) bytes.now }
{
    bytes.iter().take_while(|byte| **byte != 0).count()
}

// The bytes before the first zero byte.
fn up_to_zero(bytes: &[u8]) -> &[u8]
    ensures { result.now ≡ take_while (λ byte. not (byte == 0)) bytes.now }
{
    &bytes[..name_length(bytes)]
}

// Takes only what can be moved between threads.
fn movable<T: Send>(_value: &T) {}

// An image can.
fn movable_image(image: &Image) {
    movable(image);
}
