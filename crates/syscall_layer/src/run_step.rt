// A call as a step of a run.
ghost use Rattle.std.specs.Prelude.{◌≡◌, IfErr, List};
ghost use Rattle.sp_host.specs.Faults.{CausedIn};
ghost use Rattle.sp_host.specs.Told.{Told};
ghost use Rattle.guest_model.specs.Call.{Sent};
ghost use Rattle.guest_model.specs.Calls.{deed_of};
ghost use Rattle.guest_model.specs.Effect.{Effect, effect_of};
ghost use Rattle.guest_model.specs.Serial.{Position};
ghost use Rattle.guest_model.specs.Written.{written_by};
ghost use Rattle.guest_mem.specs.Frames.{HasAllFrames};
ghost use Rattle.syscall_layer.specs.Serve.{told_after};
ghost use Rattle.syscall_layer.specs.Step.{CallGives, IsOfGuest, LeavesGuest, fault_of, run_source_of};

use crate::fault::{CallFault, RunFault};
use crate::server::{Served, serve};
use rv_machine::Guest;
use sp_host::Host;
use std::alloc::Global;

// The fault of the run at the call at pc that was not served.
fn fault_of(fault: CallFault, pc: u32) -> RunFault
    ensures { result ≡ fault_of fault pc }
{
    match fault {
        CallFault::Unsupported { number } => RunFault::Unsupported { number, pc },
        CallFault::InputFault => RunFault::InputFault,
        CallFault::OutputFault { port } => RunFault::OutputFault { port },
        CallFault::NoMemory => RunFault::NoMemory,
    }
}

/// Serves the call at which the guest stands, as a step of its run.
///
/// # Errors
/// Those of [`serve`], as faults of the run. The guest is as before then.
pub fn serve_step<H: Host>(
    alloc: Global,
    guest: &mut Guest,
    host: &mut H,
) -> Result<Served, RunFault>
    requires call { effect_of guest.old.machine ≡ Effect.Call }
    requires frames { HasAllFrames guest.old.frames (written_by guest.old.machine) }
    ensures guest { LeavesGuest (deed_of guest.old.machine) result guest.old guest.new }
    ensures faults { CausedIn run_source_of (H.faults host.old) (H.faults host.new) result }
    ensures port { IfErr result IsOfGuest }
    ensures told { (t : Told) (p : Position) (before : List Sent) → p.machine ≡ guest.old.machine →
        H.told host.old ≡ told_after t p.world before →
        CallGives t p before result guest.new.machine (H.told host.new) }
{
    match serve(alloc, guest, host) {
        Ok(served) => Ok(served),
        Err(fault) => Err(fault_of(fault, guest.pc())),
    }
}
