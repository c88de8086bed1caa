// Numbers as bytes, the lowest first.
ghost use Rattle.std.specs.Prelude.{[], ◌∷◌, ◌≡◌, ℕ, ◌+◌, ◌*◌, ◌/◌, ◌%◌, ◌^◌, ◌<◌, ◌⊎◌, length};
ghost use Rattle.guest_model.specs.Bytes.{number_of as number_of_bytes, low_bytes as low_bytes_of};

/// The number of 1, 2 or 4 bytes.
#[inline(always)]
pub(crate) fn number_of(bytes: &[u8]) -> u32
    requires { (length bytes.now ≡ 1) ⊎ ((length bytes.now ≡ 2) ⊎ (length bytes.now ≡ 4)) }
    ensures number { result ≡ number_of_bytes bytes.now }
    ensures fits { result < 2 ^ (8 * length bytes.now) }
{
    match bytes {
        [first] => *first as u32,
        [first, second] => *first as u32 + 256 * (*second as u32),
        [first, second, third, fourth] => {
            *first as u32
                + 256 * (*second as u32)
                + 65536 * (*third as u32)
                + 16_777_216 * (*fourth as u32)
        }
        _ => unreachable!(),
    }
}

/// The four bytes of a number.
#[inline(always)]
pub(crate) fn low_bytes(value: u32) -> [u8; 4]
    ensures { result ≡ low_bytes_of 4 value }
{
    let second = value / 256;
    let third = second / 256;
    let fourth = third / 256;
    [
        (value % 256) as u8,
        (second % 256) as u8,
        (third % 256) as u8,
        (fourth % 256) as u8,
    ]
}
