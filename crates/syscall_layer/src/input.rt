// The calls that read.
ghost use Rattle.std.specs.Prelude.{◌≡◌, ◌≤◌, ◌==◌, true, [], ◌∷◌, Some, length, map, filter, not};
ghost use Rattle.std.specs.Prelude.{take, IfOk, MatchResult};
ghost use Rattle.std.specs.List.{list_all};
ghost use Rattle.sp_host.specs.Told.{WhereTold, input_taken};
ghost use Rattle.sp_host.specs.Faults.{CausedIn, Counts};
ghost use Rattle.sp_host.specs.Faults.Source.{Input};
ghost use Rattle.guest_model.specs.Call.{filled};
ghost use Rattle.guest_model.specs.Calls.{Takes, can_write, read_row, readv_row, storable};
ghost use Rattle.guest_model.specs.Range.{total_size};
ghost use Rattle.guest_mem.specs.Frames.{HasAllFrames};
ghost use Rattle.syscall_layer.specs.Input.{Fills, FillsRanges, FaultTakes, IsCutShort};
ghost use Rattle.syscall_layer.specs.Serve.{IsServed, range_of, source_of};

use crate::fault::CallFault;
use crate::finish::{finish, finish_storing};
use crate::ranges::{Range, are_writable, size_of, used_ranges};
use crate::server::Served;
use call_record::Write;
use guest_model::platform::{EBADF, EFAULT, EINVAL, MOST_RANGES, MOST_READ, failure};
use rv_machine::Guest;
use sp_host::{Failed, Host};
use std::alloc::{AllocError, Global};

// Fills a buffer from the front of the input, and answers how many bytes came: fewer than the
// buffer has only where the input has no more. A call of the host that moves less is not the end.
// After a failed call the input lacks what was taken before.
fn fill<H: Host>(host: &mut H, buffer: &mut [u8]) -> Result<usize, Failed>
    ensures size { length buffer.new ≡ length buffer.old }
    ensures bound { IfOk result (λ n. n ≤ length buffer.new) }
    ensures bytes { IfOk result (λ n. WhereTold (H.told host.old).input
        (λ left. Fills left n buffer.new)) }
    ensures told { MatchResult result
        (λ _. H.told host.new ≡ input_taken (length buffer.old) (H.told host.old))
        (λ _. IsCutShort (length buffer.old) (H.told host.old) (H.told host.new)) }
    ensures faults { Counts Input (H.faults host.old) (H.faults host.new) result }
{
    let mut count = 0;
    while count < buffer.len() {
        let more = host.read_input(&mut buffer[count..])?;
        if more == 0 {
            return Ok(count);
        }
        count += more;
    }
    Ok(count)
}

// What was taken from the input: how many bytes, and the writes that store them.
#[derive(Drop)]
struct Taken {
    count: u32,
    writes: Vec<Write>,
}

// Writes of zeros for the ranges that have bytes.
fn buffers(alloc: Global, ranges: &[Range]) -> Result<Vec<Write>, AllocError>
    ensures { IfOk result (λ v. map range_of v.items ≡ filter (λ p. not (p.size == 0)) ranges.now) }
{
    let mut writes = Vec::new(alloc);
    for range in ranges {
        if range.size > 0 {
            let bytes = vec![in alloc; 0u8; range.size as usize]?;
            writes.push(Write {
                at: range.at,
                bytes,
            })?;
        }
    }
    Ok(writes)
}

// Gives a write the first of these bytes, as many as it has room for, and answers how many.
fn deal_one(bytes: &[u8], write: &mut Write) -> usize
    ensures write { write.new
        ≡ record { at = write.old.at; bytes = take (length write.old.bytes) bytes.now } }
    ensures count { result ≡ length (take (length write.old.bytes) bytes.now) }
{
    let count = bytes.len().min(write.bytes.len());
    write.bytes.truncate(count);
    write.bytes.copy_from_slice(&bytes[..count]);
    count
}

// Gives these bytes to the writes in order. Writes that get none are dropped.
fn deal(bytes: &[u8], writes: &mut Vec<Write>)
    requires { list_all (λ s. not (length s.bytes == 0)) writes.old.items ≡ true }
    ensures { writes.new.items ≡ filled (map range_of writes.old.items) bytes.now }
{
    let mut done = 0;
    let mut used = 0;
    while used < writes.len() && done < bytes.len() {
        done += deal_one(&bytes[done..], &mut writes[used]);
        used += 1;
    }
    writes.truncate(used);
}

// Takes bytes from the front of the input for these ranges. All memory is taken before the input is
// asked.
//
// # Errors
// `InputFault` where the input could not be read: it then lacks what was taken before. `NoMemory`.
fn take_input<H: Host>(alloc: Global, host: &mut H, ranges: &[Range]) -> Result<Taken, CallFault>
    requires { total_size ranges.now ≤ MOST_READ }
    ensures fills { IfOk result
        (λ r. FillsRanges ranges.now (H.told host.old) r.count r.writes.items) }
    ensures told { MatchResult result
        (λ _. H.told host.new ≡ input_taken (total_size ranges.now) (H.told host.old))
        (λ e. FaultTakes e (total_size ranges.now) (H.told host.old) (H.told host.new)) }
    ensures faults { CausedIn source_of (H.faults host.old) (H.faults host.new) result }
{
    let mut writes = buffers(alloc, ranges)?;
    let mut bytes = vec![in alloc; 0u8; size_of(ranges)]?;
    let Ok(count) = fill(host, &mut bytes) else {
        return Err(CallFault::InputFault);
    };
    deal(&bytes[..count], &mut writes);
    Ok(Taken {
        count: count as u32,
        writes,
    })
}

// Takes bytes from the front of the input into ranges that may be written.
fn take_into<H: Host>(
    alloc: Global,
    guest: &mut Guest,
    host: &mut H,
    ranges: &[Range],
) -> Result<Served, CallFault>
    requires few { total_size ranges.now ≤ MOST_READ }
    requires writable { list_all (λ r. can_write guest.old.machine r.at r.size) ranges.now ≡ true }
    requires frames { HasAllFrames guest.old.frames ranges.now }
    ensures { IsServed (Some (Takes ranges.now)) (H.told host.old) (H.told host.new)
        (H.faults host.old) (H.faults host.new) result guest.old guest.new }
{
    let taken = take_input(alloc, host, ranges)?;
    Ok(finish_storing(guest, taken.count, taken.writes))
}

/// The call read: the first bytes of the input left go to a buffer.
///
/// # Errors
/// `InputFault` where the input could not be read; `NoMemory` where there is no memory for what is
/// read.
pub(crate) fn read_call<H: Host>(
    alloc: Global,
    guest: &mut Guest,
    host: &mut H,
) -> Result<Served, CallFault>
    requires { HasAllFrames guest.old.frames (storable (read_row guest.old.machine)) }
    ensures { IsServed (Some (read_row guest.old.machine)) (H.told host.old) (H.told host.new)
        (H.faults host.old) (H.faults host.new) result guest.old guest.new }
{
    if guest.reg(10) != 0 {
        return Ok(finish(alloc, guest, failure(EBADF)));
    }
    let at = guest.reg(11);
    let size = guest.reg(12).min(MOST_READ);
    if !guest.space().writable(at, size) {
        return Ok(finish(alloc, guest, failure(EFAULT)));
    }
    take_into(alloc, guest, host, &[Range { at, size }])
}

/// The call readv: the first bytes of the input left go to the ranges of an array, in order.
///
/// # Errors
/// `InputFault` where the input could not be read; `NoMemory` where there is no memory for what is
/// read.
pub(crate) fn readv_call<H: Host>(
    alloc: Global,
    guest: &mut Guest,
    host: &mut H,
) -> Result<Served, CallFault>
    requires { HasAllFrames guest.old.frames (storable (readv_row guest.old.machine)) }
    ensures { IsServed (Some (readv_row guest.old.machine)) (H.told host.old) (H.told host.new)
        (H.faults host.old) (H.faults host.new) result guest.old guest.new }
{
    if guest.reg(10) != 0 {
        return Ok(finish(alloc, guest, failure(EBADF)));
    }
    let array = guest.reg(11);
    let count = guest.reg(12);
    if count > MOST_RANGES {
        return Ok(finish(alloc, guest, failure(EINVAL)));
    }
    if !guest.space().readable(array, 8 * count) {
        return Ok(finish(alloc, guest, failure(EFAULT)));
    }
    let ranges = used_ranges(guest);
    if !are_writable(guest.space(), &ranges) {
        return Ok(finish(alloc, guest, failure(EFAULT)));
    }
    take_into(alloc, guest, host, &ranges)
}
