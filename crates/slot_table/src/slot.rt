// What stands over a page.
use frame_pool::Frame;

/// What stands over a page that is shared.
#[derive(Drop)]
pub enum Slot {
    /// Nothing: the page is as it was.
    Unchanged,
    /// Nothing, but bytes were placed in the page.
    Placed,
    /// Zeros: the page was dropped. It may have been written before.
    Dropped { written: bool },
    /// A frame: the page was written.
    Framed(Frame),
}
