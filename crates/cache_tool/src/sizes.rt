// The sizes that a cache may have.
ghost use Rattle.std.specs.Prelude.{◌≡◌};
ghost use Rattle.cache_tool.specs.Sizes.{is_line, is_sets};

/// Whether a cache may have as many sets: a power of two up to 4,096.
pub fn is_sets(n: u32) -> bool
    ensures { result ≡ is_sets n }
{
    n.is_power_of_two() && n <= 4096
}

/// Whether its lines may have as many bytes: a power of two from 4 to 4,096.
pub fn is_line(n: u32) -> bool
    ensures { result ≡ is_line n }
{
    n.is_power_of_two() && n >= 4 && n <= 4096
}
