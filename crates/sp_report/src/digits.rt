// Addresses and words as they are printed.
ghost use Rattle.std.specs.Prelude.{◌≡◌, ◌++◌, ◌<◌, OnOk};
ghost use Rattle.sp_report.specs.Digits.{address_text, eight_digits, hex_digit};

use std::alloc::AllocError;

/// A lower-case hexadecimal digit.
pub(crate) fn hex_digit(d: u32) -> u8
    requires { d < 16 }
    ensures { result ≡ hex_digit d }
{
    if d < 10 { 48 + d as u8 } else { 87 + d as u8 }
}

/// The eight digits of a number.
#[tactic(auto, unfolding(crate::specs::Digits::eight_digits))]
pub(crate) fn eight_digits(n: u32) -> [u8; 8]
    ensures { result ≡ eight_digits n }
{
    [
        hex_digit(n >> 28),
        hex_digit((n >> 24) % 16),
        hex_digit((n >> 20) % 16),
        hex_digit((n >> 16) % 16),
        hex_digit((n >> 12) % 16),
        hex_digit((n >> 8) % 16),
        hex_digit((n >> 4) % 16),
        hex_digit(n % 16),
    ]
}

/// Adds the eight digits of a number.
pub(crate) fn push_digits(text: &mut Vec<u8>, n: u32) -> Result<(), AllocError>
    ensures { OnOk result (text.new.items ≡ text.old.items ++ eight_digits n) }
{
    text.extend_from_slice(&eight_digits(n))?;
    Ok(())
}

/// Adds an address, as `0x` and eight digits.
pub fn push_address(text: &mut Vec<u8>, n: u32) -> Result<(), AllocError>
    ensures { OnOk result (text.new.items ≡ text.old.items ++ address_text n) }
{
    text.extend_from_slice(b"0x")?;
    push_digits(text, n)
}
