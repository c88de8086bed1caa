// The calls that write, and ioctl.
ghost use Rattle.std.specs.Prelude.{◌≡◌, ◌+◌, ◌^◌, ◌≤◌, true, false, Some, length, MatchResult};
ghost use Rattle.std.specs.Prelude.{MatchOption};
ghost use Rattle.std.specs.Prelude.{if◌then◌else◌};
ghost use Rattle.std.specs.List.{flat_map, list_all};
ghost use Rattle.sp_host.specs.Told.{sent, PartSent};
ghost use Rattle.sp_host.specs.Faults.{Counts};
ghost use Rattle.sp_host.specs.Faults.Source.{To};
ghost use Rattle.guest_model.specs.Areas.{is_range_permitted};
ghost use Rattle.guest_model.specs.Bytes.{bytes_at};
ghost use Rattle.guest_model.specs.Calls.{argument, array_of, can_read, can_read_array, is_open};
ghost use Rattle.guest_model.specs.Calls.{is_output};
ghost use Rattle.guest_model.specs.Calls.{range_bytes, write_row, writev_row};
ghost use Rattle.guest_model.specs.Errors.{failure};
ghost use Rattle.guest_model.specs.declared.Access.{Access};
ghost use Rattle.guest_model.specs.declared.platform.TheConstants as platform;
ghost use Rattle.syscall_layer.specs.Serve.{IsServed, port_number};

use crate::fault::CallFault;
use crate::finish::finish;
use crate::ranges::{are_readable, range_at, total_size};
use crate::server::Served;
use guest_mem::Space;
use guest_model::platform::{EBADF, EFAULT, EINVAL, ENOTTY, MOST_RANGES, MOST_SENT, failure};
use rv_machine::Guest;
use sp_host::{Failed, Host, Port, write_whole};
use std::alloc::Global;

// How many bytes are copied out of memory at once.
const CHUNK: usize = 4096;

/// Fills a buffer with the bytes of memory from `at` on.
pub(crate) fn copy(space: &Space, at: u32, buffer: &mut [u8])
    requires { at + length buffer.old ≤ 2 ^ 32 }
    ensures { buffer.new ≡ bytes_at space.now.space.bytes at (length buffer.old) }
{
    for (i, byte) in buffer.iter_mut().enumerate() {
        *byte = space.peek_byte(at + i as u32);
    }
}

// Writes the `len` bytes of memory from `at` on, or a part of them and then answers `Failed`. It
// takes no memory.
fn send<H: Host>(host: &mut H, space: &Space, port: Port, at: u32, len: u32) -> Result<(), Failed>
    requires readable { is_range_permitted Access.Read space.now.space.areas at len ≡ true }
    ensures told { let bytes = bytes_at space.now.space.bytes at len in
        MatchResult result (λ _. H.told host.new ≡ sent port bytes (H.told host.old))
        (λ _. PartSent port bytes (H.told host.old) (H.told host.new)) }
    ensures faults { Counts (To port) (H.faults host.old) (H.faults host.new) result }
{
    let mut buffer = [0u8; CHUNK];
    let mut done = 0;
    while done < len {
        let size = (len - done).min(CHUNK as u32);
        let chunk = &mut buffer[..size as usize];
        copy(space, at + done, chunk);
        write_whole(host, port, chunk)?;
        done += size;
    }
    Ok(())
}

// The port that a descriptor names, where it is that of an output.
fn port_of(descriptor: u32) -> Option<Port>
    ensures { MatchOption result (is_output descriptor ≡ false)
        (λ port. (is_output descriptor ≡ true) × (port_number port ≡ descriptor)) }
{
    match descriptor {
        1 => Some(Port::Out),
        2 => Some(Port::Err),
        _ => None,
    }
}

/// The call write: the bytes of a buffer go to a port.
///
/// # Errors
/// `OutputFault` where the port did not take them all.
pub(crate) fn write_call<H: Host>(
    alloc: Global,
    guest: &mut Guest,
    host: &mut H,
) -> Result<Served, CallFault>
    ensures { IsServed (Some (write_row guest.old.machine)) (H.told host.old) (H.told host.new)
        (H.faults host.old) (H.faults host.new) result guest.old guest.new }
{
    let Some(port) = port_of(guest.reg(10)) else {
        return Ok(finish(alloc, guest, failure(EBADF)));
    };
    let at = guest.reg(11);
    let len = guest.reg(12);
    if !guest.space().readable(at, len) {
        return Ok(finish(alloc, guest, failure(EFAULT)));
    }
    match send(host, guest.space(), port, at, len) {
        Ok(()) => Ok(finish(alloc, guest, len)),
        Err(_) => Err(CallFault::OutputFault { port }),
    }
}

// Writes the bytes of all ranges of the array that the call names, or a part of them and then
// answers `Failed`. It takes no memory.
fn send_array<H: Host>(host: &mut H, guest: &Guest, port: Port) -> Result<(), Failed>
    requires array { can_read_array guest.now.machine ≡ true }
    requires readable { list_all (λ r. can_read guest.now.machine r.at r.size)
        (array_of guest.now.machine) ≡ true }
    ensures told { let bytes = flat_map (range_bytes guest.now.machine) (array_of guest.now.machine) in
        MatchResult result (λ _. H.told host.new ≡ sent port bytes (H.told host.old))
        (λ _. PartSent port bytes (H.told host.old) (H.told host.new)) }
    ensures faults { Counts (To port) (H.faults host.old) (H.faults host.new) result }
{
    for k in 0..guest.reg(12) {
        let range = range_at(guest, k);
        send(host, guest.space(), port, range.at, range.size)?;
    }
    Ok(())
}

/// The call writev: the bytes of the ranges of an array go to a port, in order.
///
/// # Errors
/// `OutputFault` where the port did not take them all.
pub(crate) fn writev_call<H: Host>(
    alloc: Global,
    guest: &mut Guest,
    host: &mut H,
) -> Result<Served, CallFault>
    ensures { IsServed (Some (writev_row guest.old.machine)) (H.told host.old) (H.told host.new)
        (H.faults host.old) (H.faults host.new) result guest.old guest.new }
{
    let Some(port) = port_of(guest.reg(10)) else {
        return Ok(finish(alloc, guest, failure(EBADF)));
    };
    let array = guest.reg(11);
    let count = guest.reg(12);
    if count > MOST_RANGES {
        return Ok(finish(alloc, guest, failure(EINVAL)));
    }
    if !guest.space().readable(array, 8 * count) {
        return Ok(finish(alloc, guest, failure(EFAULT)));
    }
    let total = total_size(guest);
    if total > MOST_SENT as u64 {
        return Ok(finish(alloc, guest, failure(EINVAL)));
    }
    if !are_readable(guest) {
        return Ok(finish(alloc, guest, failure(EFAULT)));
    }
    match send_array(host, guest, port) {
        Ok(()) => Ok(finish(alloc, guest, total as u32)),
        Err(_) => Err(CallFault::OutputFault { port }),
    }
}

/// The result of ioctl: no descriptor is a terminal.
pub(crate) fn ioctl_answer(guest: &Guest) -> u32
    ensures { result ≡ if is_open (argument guest.now.machine 0) then failure platform.ENOTTY
        else failure platform.EBADF }
{
    if guest.reg(10) <= 2 {
        failure(ENOTTY)
    } else {
        failure(EBADF)
    }
}
