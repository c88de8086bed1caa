// The turns of a master that is ready.
ghost use Rattle.std.specs.Prelude.{◌≡◌, IfErr, IfOk};
ghost use Rattle.sp_host.specs.Faults.{CausedIn};
ghost use Rattle.sp_host.specs.Told.{Told};
ghost use Rattle.guest_model.specs.Serial.{Position};
ghost use Rattle.syscall_layer.specs.Step.{IsOfGuest, run_source_of};
ghost use Rattle.master_run.specs.Answers.{PacerState};
ghost use Rattle.master_run.specs.Master.{HasRunTo, Ready};
ghost use Rattle.master_run.specs.Turn.{HandsOut, HandsOutOfRun};
ghost use Rattle.sliced_run.specs.Sliced.{shows};
ghost use Rattle.sliced_run.specs.Turns.{StaysReady, StopsWithin};

use master_run::{Master, Turn};
use sp_host::{Host, Pacer};
use syscall_layer::RunFault;

/// The next turn of a master that is ready: behind a job it is ready again.
///
/// # Errors
/// Those of [`Master::next_job`].
pub fn next_turn<H: Host, P: Pacer>(
    master: &mut Master,
    host: &mut H,
    pacer: &mut P,
) -> Result<Turn, RunFault>
    requires { master.old.standing ≡ Ready }
    ensures turn { IfOk result (λ turn. HandsOut master.old turn master.new) }
    ensures ready { IfOk result (λ turn. StaysReady turn master.new) }
    ensures limits { master.new.limits ≡ master.old.limits }
    ensures faults { CausedIn run_source_of (H.faults host.old) (H.faults host.new) result }
    ensures port { IfErr result IsOfGuest }
    ensures period { P.period_shown pacer.new ≡ P.period_shown pacer.old }
    ensures told { (t : Told) (p : Position) (first : PacerState)
        → HasRunTo t p first master.old (H.told host.old)
        (shows (P.period_shown pacer.old) (P.tally pacer.old) (P.answers pacer.old))
        → HandsOutOfRun t p first master.old result master.new (H.told host.new)
        (shows (P.period_shown pacer.new) (P.tally pacer.new) (P.answers pacer.new))
        × StopsWithin result master.new }
{
    master.next_job(host, pacer)
}
