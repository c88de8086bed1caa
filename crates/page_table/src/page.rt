// The bytes of one page.
ghost use Rattle.std.specs.Prelude.{◌≡◌, ℕ, ◌+◌, ◌-◌, ◌≤◌, length, if◌then◌else◌, slice_index};
ghost use Rattle.frame_pool.specs.Bytes.{is_among};

use std::marker::Model;

/// The bytes in a page.
const PAGE_SIZE: usize = 4096;

/// A page that never changes. Contracts see its 4,096 bytes.
#[derive(Drop)]
pub struct PageBytes {
    bytes: [u8; PAGE_SIZE],
}

impl Model for PageBytes {
    ghost use Rattle.std.specs.Prelude.{ℕ, List};

    ghost Value = { List ℕ };

    ghost view = { λ p. p.bytes };
}

impl PageBytes {
    /// A page of zeros, but for these bytes from byte `at` on.
    pub fn with(at: usize, bytes: &[u8]) -> PageBytes
        requires { at + length bytes.now ≤ 4096 }
        ensures { (i : ℕ) → slice_index result i ≡ (if is_among at (length bytes.now) i then slice_index bytes.now (i - at) else 0) }
    {
        let mut page = [0; PAGE_SIZE];
        for i in 0..bytes.len() {
            page[at + i] = bytes[i];
        }
        PageBytes { bytes: page }
    }

    /// A page of these bytes.
    pub fn of(bytes: &[u8]) -> PageBytes
        requires { length bytes.now ≡ 4096 }
        ensures { result ≡ bytes.now }
    {
        let mut page = [0; PAGE_SIZE];
        page.copy_from_slice(bytes);
        PageBytes { bytes: page }
    }

    /// The bytes of the page.
    #[inline(always)]
    pub fn as_slice(&self) -> &[u8]
        ensures bytes { result.now ≡ self.now }
        ensures len { length result.now ≡ 4096 }
    {
        &self.bytes
    }
}
