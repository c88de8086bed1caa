// Why a file is refused.
use std::alloc::AllocError;

/// Why a file is not loaded. The faults stand in the order of the tests: the first that fails is
/// the answer. `k` is the place of a segment's header in the program header table, from 0.
#[derive(Clone, Copy, PartialEq, Eq)]
pub enum ElfFault {
    /// The file is shorter than a file header, 52 bytes.
    TooShort,
    /// The first four bytes are not 7F 45 4C 46.
    NotElf,
    /// The class is not ELFCLASS32, or the byte order is not ELFDATA2LSB.
    NotElf32Little,
    /// The file's type is not ET_EXEC.
    NotExec,
    /// The machine is not EM_RISCV.
    NotRiscv,
    /// The flags `value` name an extension or a calling convention that is not supported:
    /// compressed instructions, a float ABI, or the E base.
    Flags { value: u32 },
    /// The headers of a table do not have their size, or the program headers are none or more than
    /// 32.
    HeaderSizes,
    /// A header of a table ends past the file.
    TableOutOfFile,
    /// The file asks for an interpreter or for dynamic linking.
    Interpreter,
    /// The bytes of segment `k` end past the file.
    SegmentOutOfFile { k: u16 },
    /// Segment `k` has more bytes in the file than in memory, or its alignment is no power of two,
    /// or its address and its offset differ by no multiple of the alignment.
    BadSegment { k: u16 },
    /// Segment `k` has a page in common with a segment before it in the table.
    SharedPage { k: u16 },
    /// Segment `k` can be written and executed.
    WritableCode { k: u16 },
    /// Segment `k` begins below 0x1000 or ends above 0x4000_0000.
    OutsideUser { k: u16 },
    /// The pages of the segments and 256 pages of the stack are more than 16,384.
    TooManyPages,
    /// The entry is no multiple of 4, or its four bytes are not in one segment that can be
    /// executed.
    BadEntry,
    /// The symbol table or its names are malformed.
    BadSymbols,
    /// There is no memory for the image.
    NoMemory,
}

impl From<AllocError> for ElfFault {
    ghost use Rattle.std.specs.Prelude.{◌≡◌};
    ghost use Rattle.elf_load.specs.declared.fault.ElfFault.TheVariants.{NoMemory};

    ghost from_gives = { λ _ e. e ≡ NoMemory };

    fn from(_e: AllocError) -> ElfFault {
        ElfFault::NoMemory
    }
}
