// From an attempt at what words ask for to its answer.
ghost use Rattle.std.specs.Prelude.{◌≡◌, [], ℕ, IfOk, Option, Result};
ghost use Rattle.sp_host.specs.Faults.{Faults};
ghost use Rattle.sp_host.specs.Told.{Files, Told};
ghost use Rattle.master_run.specs.Answers.{PacerState};
ghost use Rattle.sp_words.specs.Asked.{Wanted};
ghost use Rattle.superpin_top.specs.Answered.{IsAnswered, IsAttempt};
ghost use Rattle.superpin_top.specs.Causes.{HasCause};
ghost use Rattle.superpin_top.specs.Due.{Task};
ghost use Rattle.superpin_top.specs.Outcome.{DemoOutcome, DemoTells, WritesLine};
ghost use Rattle.superpin_top.specs.Top.{cuts_in};

use crate::engine::Done;
use sp_host::{Host, Port, write_whole};
use sp_report::{Answer, Refusal, UsageKind, refusal_line};

/// Writes the line of a refusal to the port of reports, as far as it can be written.
pub fn refuse<H: Host>(host: &mut H, refusal: &Refusal)
    ensures { WritesLine refusal.now (H.told host.old) (H.told host.new) (H.faults host.old) (H.faults host.new) }
{
    let line = refusal_line(refusal);
    match write_whole(host, Port::Report, line.as_slice()) {
        Ok(()) => {}
        Err(_) => {}
    }
}

/// The answer of an attempt. The line of a refusal goes to the port of reports.
pub fn answer_attempt<H: Host>(host: &mut H, attempt: Result<Done, Refusal>) -> Answer
    // Whatever was asked for, and wherever the outside, the counts of the faults and the pacer stood before the attempt.
    ensures answered { (wanted : Result Wanted UsageKind) (task_at : Files → Option (Result Task Refusal))
        (t : Told) (before : Faults) (first now : PacerState)
        → IsAttempt wanted task_at t before first attempt (H.told host.old) (H.faults host.old) now
        → IsAnswered wanted task_at t before first result (H.told host.new) (H.faults host.new) now }
    ensures demo { (n : ℕ) (t : Told) (before : Faults) → DemoTells n t attempt (H.told host.old)
        → HasCause before (H.faults host.old) attempt
        → DemoOutcome n t before result (H.told host.new) (H.faults host.new) }
    ensures uncut { IfOk attempt (λ done. done.cuts ≡ []) → cuts_in result ≡ [] }
{
    match attempt {
        Ok(done) => Answer::Ended {
            status: done.status,
            cuts: done.cuts,
            lines: done.lines,
        },
        Err(refusal) => {
            refuse(host, &refusal);
            Answer::Refused(refusal)
        }
    }
}
