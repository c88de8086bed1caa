// The bits of a word, and numbers in two's complement.
ghost use Rattle.std.specs.Prelude.{◌≡◌, ◌-◌, ◌≤◌, ◌<◌, ◌^◌};
ghost use Rattle.rv_isa.specs.Word.{bits, signed};

// Bits `high` to `low` of a word.
pub(crate) fn bits(word: u32, high: u32, low: u32) -> u32
    requires order { low ≤ high }
    requires within { high - low < 31 }
    requires inside { high < 32 }
    ensures { result ≡ bits word high low }
{
    (word >> low) % (1 << (high - low + 1))
}

// The number that `width` bits stand for in two's complement.
pub(crate) fn sign_extend(value: u32, width: u32) -> i32
    requires some { 0 < width }
    requires narrow { width < 32 }
    requires fits { value < 2 ^ width }
    ensures { result ≡ signed width value }
{
    if value < 1 << (width - 1) {
        value as i32
    } else {
        -1 - (((1 << width) - 1 - value) as i32)
    }
}
