// The host in memory that the tests ask.
ghost use Rattle.std.specs.Prelude.{◌≡◌, ◌<◌, IfOk};

use sp_host::{FaultPlan, MemoryHost};
use std::alloc::{AllocError, Global};

// A host with the files `words`, twice, and `empty`, an input and two moments.
pub fn host_with(alloc: Global, plan: FaultPlan) -> Result<MemoryHost, AllocError>
    requires { 0 < plan.most }
{
    let files = vec![in alloc;
        (String::from_str(alloc, "words")?, b"hello".to_vec(alloc)?),
        (String::from_str(alloc, "empty")?, Vec::new(alloc)),
        (String::from_str(alloc, "words")?, b"other".to_vec(alloc)?),
    ]?;
    let input = b"input".to_vec(alloc)?;
    MemoryHost::new(alloc, files, input, [7, 9].to_vec(alloc)?, plan)
}

// What only a value that may go to another thread passes.
pub fn crosses<T: Send>(value: T) -> T
    ensures { result ≡ value }
{
    value
}
