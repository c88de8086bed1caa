// The call at which a guest stands.
ghost use Rattle.std.specs.Prelude.{◌≡◌, Some};
ghost use Rattle.sp_host.specs.Faults.{CausedIn};
ghost use Rattle.guest_model.specs.Calls.{deed_of, row_of, storable};
ghost use Rattle.guest_model.specs.Effect.{Effect, effect_of};
ghost use Rattle.guest_model.specs.Written.{written_by};
ghost use Rattle.guest_mem.specs.Frames.{HasAllFrames};
ghost use Rattle.syscall_layer.specs.Serve.{AnswersCall, IsServed, LeavesPlayable, TellsDeed, source_of};

use crate::clock::clock_call;
use crate::fault::CallFault;
use crate::finish::finish;
use crate::input::{read_call, readv_call};
use crate::maps::{brk_call, mmap2_call, munmap_call};
use crate::output::{ioctl_answer, write_call, writev_call};
use call_record::Record;
use guest_model::SystemCall;
use guest_model::platform::PROCESS;
use rv_machine::Guest;
use sp_host::Host;
use std::alloc::Global;

/// How a call was served.
#[derive(Drop)]
pub enum Served {
    /// It went on, and left this record.
    Went(Record),
    /// It ended the run, with this status.
    Exit(u8),
}

/// Serves the call at which the guest stands.
///
/// # Errors
/// `Unsupported` exactly where no call has the number in x17; `InputFault` and `OutputFault`
/// exactly where a call of the host of that kind failed; `NoMemory` where there is no memory for
/// what is read. The guest is as before then.
pub fn serve<H: Host>(alloc: Global, guest: &mut Guest, host: &mut H) -> Result<Served, CallFault>
    requires call { effect_of guest.old.machine ≡ Effect.Call }
    requires frames { HasAllFrames guest.old.frames (written_by guest.old.machine) }

    // Whatever the host is: the record and the guest after it, and the cause of each fault.
    ensures answer { AnswersCall (deed_of guest.old.machine) result guest.old guest.new }
    ensures faults { CausedIn source_of (H.faults host.old) (H.faults host.new) result }

    // The record fits the guest as it stood at the call, and the guest is as a play by it leaves it.
    ensures playable { LeavesPlayable result guest.old.machine guest.new.machine }

    // Where the host tells: the answer is that of the call's row, and the outside changed by
    // exactly that call.
    ensures told { TellsDeed (deed_of guest.old.machine) (H.told host.old) result guest.old guest.new
        (H.told host.new) }
{
    let number = guest.reg(17);
    match SystemCall::numbered(number) {
        Some(call) => serve_row(alloc, guest, host, call),
        None => Err(CallFault::Unsupported { number }),
    }
}

// Serves a call of this row.
fn serve_row<H: Host>(
    alloc: Global,
    guest: &mut Guest,
    host: &mut H,
    call: SystemCall,
) -> Result<Served, CallFault>
    requires { HasAllFrames guest.old.frames (storable (row_of call guest.old.machine)) }
    ensures { IsServed (Some (row_of call guest.old.machine)) (H.told host.old) (H.told host.new)
        (H.faults host.old) (H.faults host.new) result guest.old guest.new }
{
    match call {
        SystemCall::Ioctl => {
            let answer = ioctl_answer(guest);
            Ok(finish(alloc, guest, answer))
        }
        SystemCall::Read => read_call(alloc, guest, host),
        SystemCall::Write => write_call(alloc, guest, host),
        SystemCall::Readv => readv_call(alloc, guest, host),
        SystemCall::Writev => writev_call(alloc, guest, host),
        SystemCall::Exit | SystemCall::ExitGroup => Ok(Served::Exit((guest.reg(10) % 256) as u8)),
        SystemCall::SetTidAddress | SystemCall::Getpid | SystemCall::Gettid => {
            Ok(finish(alloc, guest, PROCESS))
        }
        SystemCall::Brk => Ok(brk_call(alloc, guest)),
        SystemCall::Munmap => Ok(munmap_call(alloc, guest)),
        SystemCall::Mmap2 => Ok(mmap2_call(alloc, guest)),
        SystemCall::ClockGettime64 => clock_call(alloc, guest, host),
    }
}
