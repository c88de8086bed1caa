// Code that sets registers and makes calls.
ghost use Rattle.std.specs.Prelude.{◌<◌};

use std::alloc::AllocError;

/// The two words that put a value into a register: `lui` and `addi`.
pub fn set_register(register: u32, value: u32) -> [u32; 2]
    requires { register < 32 }
{
    let upper = value.wrapping_add(0x800) & 0xfffff000;
    let lower = value.wrapping_shl(20);
    [
        upper | register << 7 | 0x37,
        lower | register << 15 | register << 7 | 0x13,
    ]
}

/// Appends the eleven words that make the call with this number and these values in x10 to x13.
pub fn push_call(words: &mut Vec<u32>, number: u32, arguments: [u32; 4]) -> Result<(), AllocError> {
    let [x10, x11, x12, x13] = arguments;
    words.extend_from_slice(&set_register(17, number))?;
    words.extend_from_slice(&set_register(10, x10))?;
    words.extend_from_slice(&set_register(11, x11))?;
    words.extend_from_slice(&set_register(12, x12))?;
    words.extend_from_slice(&set_register(13, x13))?;
    // ecall
    words.push(0x00000073)?;
    Ok(())
}
