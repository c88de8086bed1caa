//! A direct-mapped cache as a tool. What a slice finds is exact for every cache that it may start from, and is reconciled with what
//! was kept before when slices are merged.
#![tactic(auto)]

mod direct;
mod reconcile;
mod sizes;
mod slice;
mod text;

pub use direct::DirectCache;
pub use sizes::{is_line, is_sets};
pub use slice::{CacheSlice, CacheTotals, Touched};
