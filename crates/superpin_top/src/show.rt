// A text that is shown, and the demonstration.
ghost use Rattle.std.specs.Prelude.{◌≡◌, [], IfErr, IfOk};
ghost use Rattle.superpin_top.specs.Causes.{HasCause};
ghost use Rattle.superpin_top.specs.Outcome.{DemoTells, ShowTells};
ghost use Rattle.superpin_top.specs.Top.{IsPastWords};

use crate::engine::Done;
use demo_run::demo_text;
use sp_host::{Host, Port, write_whole};
use sp_report::{Cuts, Lines, Refusal};
use std::alloc::Global;
use std::thread::Threads;

/// Writes a text to the standard output.
pub(crate) fn show<H: Host>(alloc: Global, text: &[u8], host: &mut H) -> Result<Done, Refusal>
    ensures told { ShowTells text.now (H.told host.old) result (H.told host.new) }
    ensures faults { HasCause (H.faults host.old) (H.faults host.new) result }
{
    match write_whole(host, Port::Out, text) {
        Ok(()) => Ok(Done {
            status: 0,
            cuts: Cuts::none(alloc),
            lines: Lines::none(alloc),
        }),
        Err(_) => Err(Refusal::OutputFault { port: Port::Out }),
    }
}

/// Writes the text of the demonstration of a number to the standard output. All of it is made before its first byte is written.
pub(crate) fn demo_asked<H: Host, R: Threads + Sync>(
    rt: &R,
    alloc: Global,
    n: u32,
    host: &mut H,
) -> Result<Done, Refusal>
    ensures told { DemoTells n (H.told host.old) result (H.told host.new) }
    ensures faults { HasCause (H.faults host.old) (H.faults host.new) result }
    ensures past { IfErr result IsPastWords }
    ensures uncut { IfOk result (λ done. done.cuts ≡ []) }
{
    match demo_text(rt, alloc, n) {
        Ok(text) => show(alloc, &text, host),
        Err(refusal) => Err(refusal),
    }
}
