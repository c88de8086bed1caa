// The numbers of the platform that a guest runs on. They stand here alone: definitions and code
// cite them.
ghost use Rattle.std.specs.Prelude.{◌≡◌, ◌<◌};
ghost use Rattle.guest_model.specs.Errors.{failure};

/// How many bytes a page has.
pub const PAGE_SIZE: u32 = 4096;

/// How many pages may be mapped at once.
pub const MOST_PAGES: u32 = 16_384;

/// How many areas may stand at once.
pub const MOST_AREAS: usize = 64;

/// The lowest address at which a heap may begin.
pub const HEAP_START: u32 = 0x1000;

/// Where maps start. A heap ends there at the latest.
pub const MAPS_START: u32 = 0x4000_0000;

/// Where maps end. What stands above them, as a stack, stands from here on.
pub const MAPS_END: u32 = 0x7FE0_0000;

/// Where the stack starts.
pub const STACK_START: u32 = 0x7FEF_F000;

/// Where the stack ends.
pub const STACK_END: u32 = 0x7FFF_F000;

/// How many random bytes a program gets (Linux, AT_RANDOM). They lie at the end of the stack.
pub const RANDOM_SIZE: u32 = 16;

/// The most bytes of a program's argument strings, with a zero byte each.
pub const MOST_STRINGS: u32 = 65_536;

/// The most bytes that one call takes from the input.
pub const MOST_READ: u32 = 65_536;

/// The most bytes that one call sends from the ranges of an array (Linux, writev(2)).
pub const MOST_SENT: u32 = 0x7FFF_FFFF;

/// The most ranges that the array of readv or writev may have (Linux, IOV_MAX).
pub const MOST_RANGES: u32 = 1024;

/// The most ranges of its array that readv uses.
pub const MOST_USED: usize = 8;

/// The first descriptor that openat gives: 0 is the standard input, 1 the standard output and 2 the standard error.
pub const FIRST_FILE: u32 = 3;

/// The most files that are open at once.
pub const MOST_FILES: usize = 16;

/// The most bytes of an open file's name.
pub const MOST_NAME: usize = 255;

/// The bytes of a timespec: seconds and nanoseconds, each a number of 64 bits.
pub const TIMESPEC_SIZE: u32 = 16;

/// How many bytes from the stack pointer on the signature of a position holds.
pub const SIGNATURE_BYTES: u32 = 256;

/// How many nanoseconds a second has.
pub const SECOND: u64 = 1_000_000_000;

/// The number of a guest's process and of its only thread.
pub const PROCESS: u32 = 1000;

/// The number of the error that no such file is open, or not for this (Linux, errno(3)).
pub const EBADF: u32 = 9;

/// That there is no room for more.
pub const ENOMEM: u32 = 12;

/// That a buffer is not where the call may go.
pub const EFAULT: u32 = 14;

/// That an argument is not one that the call takes.
pub const EINVAL: u32 = 22;

/// That the file is no terminal.
pub const ENOTTY: u32 = 25;

/// The result of a call that failed with an error of this number: the number, negative, modulo
/// 2^32.
pub fn failure(number: u32) -> u32
    requires { 0 < number }
    ensures { result ≡ failure number }
{
    number.wrapping_neg()
}
