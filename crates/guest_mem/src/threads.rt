// A space may be moved to another thread, and a frozen one lent to several.
use crate::frozen::FrozenSpace;
use crate::space::Space;

fn is_send<T: Send>() {}

fn is_sync<T: Sync>() {}

// A proof of this function is a proof that the types cross threads.
fn cross_threads() {
    is_send::<Space>();
    is_sync::<Space>();
    is_send::<FrozenSpace>();
    is_sync::<FrozenSpace>();
}
