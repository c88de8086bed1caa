// Pages may be moved to another thread, and lent to several.
use crate::pages::Pages;
use crate::shared::Shared;

fn is_send<T: Send>() {}

fn is_sync<T: Sync>() {}

// A proof of this function is a proof that the types cross threads.
fn cross_threads() {
    is_send::<Pages>();
    is_sync::<Pages>();
    is_send::<Shared>();
    is_sync::<Shared>();
}
