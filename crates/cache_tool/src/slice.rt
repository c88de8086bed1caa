// What is kept of a slice, and of all slices.
ghost use Rattle.std.specs.Prelude.{◌≡◌, ℕ, ◌+◌, ◌^◌, ◌<◌, ◌≤◌, length};
ghost use Rattle.std.specs.Int.{IsPowerOfTwo};
ghost use Rattle.cache_tool.specs.Cache.{Cache, access};
ghost use Rattle.cache_tool.specs.Slice.{HasSets, settled};

/// The line of the slice's first access to a set, and that of its last, which the set keeps.
#[derive(Clone, Copy)]
pub struct Touched {
    pub first: u32,
    pub last: u32,
}

/// The sets that a slice touched, and its hits and misses but for the first access to each set.
#[derive(Drop)]
pub struct CacheSlice {
    pub(crate) touched: Vec<Option<Touched>>,
    pub(crate) hits: u64,
    pub(crate) misses: u64,
    // A line has 2 to this many bytes.
    pub(crate) line_bits: u32,
    // The number of sets, less 1.
    pub(crate) set_mask: u32,
}

/// The line that each set keeps, and all hits and misses.
#[derive(Drop)]
pub struct CacheTotals {
    pub(crate) kept: Vec<Option<u32>>,
    pub(crate) hits: u64,
    pub(crate) misses: u64,
}

impl CacheSlice {
    /// Takes an access to a line.
    #[inline(never)]
    pub(crate) fn note(&mut self, line: u32)
        ensures bits { self.new.line_bits ≡ self.old.line_bits }
        ensures mask { self.new.set_mask ≡ self.old.set_mask }
        ensures sized { length self.new.touched.items ≡ length self.old.touched.items }
        ensures bounded { self.old.hits + self.old.misses < 2 ^ 63
            → self.new.hits + self.new.misses ≤ self.old.hits + self.old.misses + 1 }
        ensures exact { (sets : ℕ) → IsPowerOfTwo sets → self.old.set_mask + 1 ≡ sets
            → length self.old.touched.items ≡ sets → self.old.hits + self.old.misses < 2 ^ 63
            → (c : Cache) → HasSets sets c
            → settled self.new.touched.items self.new.hits self.new.misses c
            ≡ access sets (settled self.old.touched.items self.old.hits self.old.misses c) line }
    {
        let at = (line & self.set_mask) as usize;
        if at < self.touched.len() {
            match self.touched[at] {
                None => {
                    self.touched[at] = Some(Touched {
                        first: line,
                        last: line,
                    });
                }
                Some(touched) => {
                    if touched.last == line {
                        self.hits = self.hits.wrapping_add(1);
                    } else {
                        self.misses = self.misses.wrapping_add(1);
                        self.touched[at] = Some(Touched {
                            first: touched.first,
                            last: line,
                        });
                    }
                }
            }
        }
    }
}
