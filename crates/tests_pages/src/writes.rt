// What the tests do to pages.
ghost use Rattle.std.specs.Prelude.{◌≡◌, ◌<◌, ◌^◌};

use cow_pages::Pages;

// Writes one byte, if there is a frame.
pub fn put(pages: &mut Pages, page: u32, at: u32, byte: u8) -> bool
    requires page { page < 2 ^ 20 }
    requires at { at < 4096 }
    ensures { pages.new.origin ≡ pages.old.origin }
{
    if pages.free() == 0 {
        return false;
    }
    pages.write(page, at, &[byte]);
    true
}
