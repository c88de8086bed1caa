// The call clock_gettime64.
ghost use Rattle.std.specs.Prelude.{◌≡◌, ◌≤◌, [], Some, vec_capacity};
ghost use Rattle.guest_model.specs.Call.{stored_at, time_bytes};
ghost use Rattle.guest_model.specs.Calls.{clock_row, storable};
ghost use Rattle.guest_mem.specs.Frames.{HasAllFrames};
ghost use Rattle.syscall_layer.specs.Serve.{IsServed};

use crate::fault::CallFault;
use crate::finish::{finish, finish_storing};
use crate::server::Served;
use call_record::Write;
use guest_model::platform::{EFAULT, EINVAL, SECOND, TIMESPEC_SIZE, failure};
use rv_machine::Guest;
use sp_host::Host;
use std::alloc::Global;

// The bytes of the timespec of a moment in nanoseconds. `bytes` has room for them, so that this
// takes no memory.
fn timespec(moment: u64, mut bytes: Vec<u8>) -> Vec<u8>
    requires none { bytes.items ≡ [] }
    requires room { 16 ≤ vec_capacity bytes }
    ensures { result.items ≡ time_bytes moment }
{
    bytes
        .extend_from_slice(&(moment / SECOND).to_le_bytes())
        .unwrap();
    bytes
        .extend_from_slice(&(moment % SECOND).to_le_bytes())
        .unwrap();
    bytes
}

// The writes of a record: these bytes, where there are any. `writes` has room for them, so that
// this takes no memory.
fn written(at: u32, bytes: Vec<u8>, mut writes: Vec<Write>) -> Vec<Write>
    requires none { writes.items ≡ [] }
    requires room { 1 ≤ vec_capacity writes }
    ensures { result.items ≡ stored_at at bytes.items }
{
    if bytes.is_empty() {
        return writes;
    }
    writes.push(Write { at, bytes }).unwrap();
    writes
}

/// The call clock_gettime64: one moment is stored. The clocks CLOCK_REALTIME and CLOCK_MONOTONIC, 0
/// and 1, tell the same.
///
/// # Errors
/// `NoMemory` where there is no memory for the record.
pub(crate) fn clock_call<H: Host>(
    alloc: Global,
    guest: &mut Guest,
    host: &mut H,
) -> Result<Served, CallFault>
    requires { HasAllFrames guest.old.frames (storable (clock_row guest.old.machine)) }
    ensures { IsServed (Some (clock_row guest.old.machine)) (H.told host.old) (H.told host.new)
        (H.faults host.old) (H.faults host.new) result guest.old guest.new }
{
    if guest.reg(10) > 1 {
        return Ok(finish(alloc, guest, failure(EINVAL)));
    }
    let at = guest.reg(11);
    if !guest.space().writable(at, TIMESPEC_SIZE) {
        return Ok(finish(alloc, guest, failure(EFAULT)));
    }
    let room = Vec::with_capacity(alloc, 1)?;
    let bytes = Vec::with_capacity(alloc, TIMESPEC_SIZE as usize)?;
    let time = timespec(host.now(), bytes);
    Ok(finish_storing(guest, 0, written(at, time, room)))
}
