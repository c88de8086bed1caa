// What the tests do to a space.
ghost use Rattle.std.specs.Prelude.{◌≡◌};

use guest_mem::Space;

// Puts a byte at an address, if it may be written there and a frame is free.
pub(crate) fn put(space: &mut Space, at: u32, byte: u8) -> bool
    ensures { space.new.origin ≡ space.old.origin }
{
    if space.free() == 0 || !space.writable(at, 1) {
        return false;
    }
    space.put(at, &[byte]);
    true
}
