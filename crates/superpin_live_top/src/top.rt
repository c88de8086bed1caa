// From the words to the answer.
ghost use Rattle.std.specs.Prelude.{◌≡◌, ◌≢◌, [], Some, IfOk};
ghost use Rattle.sp_words.specs.Asked.{ToRun, live_words_wanted, run_of_asked};
ghost use Rattle.sliced_run.specs.Sliced.{shows};
ghost use Rattle.superpin_top.specs.Answered.{IsAttempt, IsTried};
ghost use Rattle.superpin_top.specs.Answered.{TellsFileFault, TellsInputFault, TellsOutputFault, TellsReportFault, NamesGuestPort};
ghost use Rattle.superpin_top.specs.Answered.{IsEarlyAt, OutcomeAt, IsDeliveredAt, TellsSlicesAt, IsCausedAt, AddsFrontAt, AddsErrorFrontAt};
ghost use Rattle.superpin_top.specs.Due.{by_wanted, texts};
ghost use Rattle.superpin_top.specs.Outcome.{IsEndedWhereNone};
ghost use Rattle.superpin_top.specs.Top.{IsOfWords, cuts_in};
ghost use Rattle.superpin_live_top.specs.Due.{live_task_of};

use crate::run::run_loaded;
use sp_host::{Gate, Host, Pacer};
use sp_report::{Answer, Refusal};
use sp_words::{Asked, By, RunAsked, read_live_words};
use std::alloc::Global;
use std::sync::Wait;
use std::thread::Threads;
use superpin_top::{Done, LoadedRun, answer_attempt, load_run, refusal_of_words};

// The run that is asked for, with its report.
fn run_asked<H: Host + Send, P: Pacer + Send, G: Gate + Sync, R: Threads + Wait + Sync>(
    rt: &R,
    alloc: Global,
    run: RunAsked,
    host: &mut H,
    pacer: &mut P,
    gate: &G,
) -> Result<Done, Refusal>
    requires { run.by ≡ By.Windows }
    ensures { IsTried (ToRun (run_of_asked run)) (H.told host.old) (H.faults host.old)
        (shows (P.period_shown pacer.old) (P.tally pacer.old) (P.answers pacer.old))
        result (H.told host.new) (H.faults host.new)
        (shows (P.period_shown pacer.new) (P.tally pacer.new) (P.answers pacer.new)) }
{
    let workers = run.workers;
    match load_run(alloc, run, host) {
        Ok(loaded) => {
            let LoadedRun {
                image,
                guest,
                how,
                tool,
            } = loaded;
            run_loaded(
                rt, alloc, host, pacer, gate, &image, guest, how, workers, tool,
            )
        }
        Err(refusal) => Err(refusal),
    }
}

// What the words ask for, done.
fn attempt<H: Host + Send, P: Pacer + Send, G: Gate + Sync, R: Threads + Wait + Sync>(
    rt: &R,
    alloc: Global,
    words: &[String],
    host: &mut H,
    pacer: &mut P,
    gate: &G,
) -> Result<Done, Refusal>
    ensures tried { IsAttempt (live_words_wanted (texts words.now)) (live_task_of (texts words.now))
        (H.told host.old) (H.faults host.old)
        (shows (P.period_shown pacer.old) (P.tally pacer.old) (P.answers pacer.old))
        result (H.told host.new) (H.faults host.new)
        (shows (P.period_shown pacer.new) (P.tally pacer.new) (P.answers pacer.new)) }
    ensures pacer { by_wanted (live_words_wanted (texts words.now)) ≢ Some By.Windows → pacer.new ≡ pacer.old }
    ensures uncut { by_wanted (live_words_wanted (texts words.now)) ≢ Some By.Windows
        → IfOk result (λ done. done.cuts ≡ []) }
{
    match read_live_words(alloc, words) {
        Ok(Asked::Run(run)) => run_asked(rt, alloc, run, host, pacer, gate),
        Ok(Asked::View { .. }) => unreachable!(),
        Ok(Asked::Demo { .. }) => unreachable!(),
        Err(fault) => Err(refusal_of_words(fault)),
    }
}

/// Does what the words ask for: `run [OPTIONS] FILE [ARGS]`. The run's bytes go to the host's standard output and standard
/// error, and its report to the port of reports. The run goes without the tool, and is cut where the pacer or a limit says so,
/// while so many workers as the words say run its slices again with the tool, each in a thread of its own; the gate is told of
/// each slice that a thread takes. The line of a refusal goes to the port of reports.
///
/// The answer is the due one, whatever the workers' threads do and when, but for the faults of the file, of the input, of the
/// outputs and of the report, which come where their count rose, and for want of memory. The call may wait for its threads.
pub fn superpin_live<H: Host + Send, P: Pacer + Send, G: Gate + Sync, R: Threads + Wait + Sync>(
    rt: &R,
    alloc: Global,
    words: &[String],
    host: &mut H,
    pacer: &mut P,
    gate: &G,
) -> Answer
    // The causes that show on every host.
    ensures words { IsOfWords (live_words_wanted (texts words.now)) result }
    ensures file_fault { TellsFileFault result (H.faults host.old) (H.faults host.new) }
    ensures input_fault { TellsInputFault result (H.faults host.old) (H.faults host.new) }
    ensures output_fault { TellsOutputFault result (H.faults host.old) (H.faults host.new) }
    ensures report_fault { TellsReportFault result (H.faults host.old) (H.faults host.new) }
    ensures ended { IsEndedWhereNone result (H.faults host.old) (H.faults host.new) }
    ensures other_port { NamesGuestPort result }
    ensures pacer { by_wanted (live_words_wanted (texts words.now)) ≢ Some By.Windows → pacer.new ≡ pacer.old }
    ensures uncut { by_wanted (live_words_wanted (texts words.now)) ≢ Some By.Windows → cuts_in result ≡ [] }

    // Where the files are told: the refusals that the words and the file alone decide.
    ensures early { IsEarlyAt (live_task_of (texts words.now)) (H.told host.old) (H.faults host.old)
        result (H.faults host.new) }

    // Where the host tells: what is answered, and what stands where then, for each answer.
    ensures outcome { OutcomeAt (live_task_of (texts words.now)) (H.told host.old) (H.faults host.old)
        (shows (P.period_shown pacer.old) (P.tally pacer.old) (P.answers pacer.old))
        result (H.told host.new) (H.faults host.new)
        (shows (P.period_shown pacer.new) (P.tally pacer.new) (P.answers pacer.new)) }

    // The headline: where no count rose, the answer is the due one with exactly the due bytes, or
    // want of memory. The cuts that it tells are those that the pacer's answers and the limits make
    // due, and its lines are those of the slices between them.
    ensures headline { IsDeliveredAt (live_task_of (texts words.now)) (H.told host.old) (H.faults host.old)
        result (H.told host.new) (H.faults host.new) }
    ensures sliced { TellsSlicesAt (live_task_of (texts words.now)) (H.told host.old)
        (shows (P.period_shown pacer.old) (P.tally pacer.old) (P.answers pacer.old)) result
        (shows (P.period_shown pacer.new) (P.tally pacer.new) (P.answers pacer.new)) }

    // The cause of every other answer, where no call of the run failed and memory was found.
    ensures causes { IsCausedAt (live_task_of (texts words.now)) (H.told host.old) (H.faults host.old)
        result (H.faults host.new) }

    // Whatever is answered, what was sent to an output is a beginning of what the run sends there.
    ensures front { AddsFrontAt (live_task_of (texts words.now)) (H.told host.old) result (H.told host.new) }
    ensures error_front { AddsErrorFrontAt (live_task_of (texts words.now)) (H.told host.old) result (H.told host.new) }
{
    let tried = attempt(rt, alloc, words, host, pacer, gate);
    answer_attempt(host, tried)
}
