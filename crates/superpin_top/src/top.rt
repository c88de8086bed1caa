// From the words to the answer.
ghost use Rattle.std.specs.Prelude.{◌≡◌, ◌≢◌, ℕ, [], Some, IfOk};
ghost use Rattle.sp_words.specs.Asked.{ToRun, run_of_asked, words_wanted};
ghost use Rattle.sliced_run.specs.Sliced.{shows};
ghost use Rattle.superpin_top.specs.Answered.{IsAttempt, IsTried};
ghost use Rattle.superpin_top.specs.Answered.{TellsFileFault, TellsInputFault, TellsOutputFault, TellsReportFault, NamesGuestPort};
ghost use Rattle.superpin_top.specs.Answered.{IsEarlyAt, OutcomeAt, IsDeliveredAt, TellsSlicesAt, IsCausedAt, AddsFrontAt, AddsErrorFrontAt};
ghost use Rattle.superpin_top.specs.Due.{by_wanted, demo_wanted, task_of, texts};
ghost use Rattle.superpin_top.specs.Outcome.{DemoOutcome, DemoTells, IsEndedWhereNone};
ghost use Rattle.superpin_top.specs.Top.{IsOfWords, cuts_in};

use crate::answer::answer_attempt;
use crate::engine::Done;
use crate::load::{LoadedRun, load_run};
use crate::run::run_loaded;
use crate::show::demo_asked;
use crate::view::view_asked;
use crate::words::refusal_of_words;
use sp_host::{Host, Pacer};
use sp_report::{Answer, Refusal};
use sp_words::{Asked, By, RunAsked, read_words};
use std::alloc::Global;
use std::thread::Threads;

// The run that is asked for, with its report.
fn run_asked<H: Host + Send, P: Pacer + Send, R: Threads + Sync>(
    rt: &R,
    alloc: Global,
    run: RunAsked,
    host: &mut H,
    pacer: &mut P,
) -> Result<Done, Refusal>
    ensures tried { IsTried (ToRun (run_of_asked run)) (H.told host.old) (H.faults host.old)
        (shows (P.period_shown pacer.old) (P.tally pacer.old) (P.answers pacer.old))
        result (H.told host.new) (H.faults host.new)
        (shows (P.period_shown pacer.new) (P.tally pacer.new) (P.answers pacer.new)) }
    ensures serial { run.by ≡ By.Serial → pacer.new ≡ pacer.old }
    ensures uncut { run.by ≡ By.Serial → IfOk result (λ done. done.cuts ≡ []) }
{
    match load_run(alloc, run, host) {
        Ok(loaded) => {
            let LoadedRun {
                image,
                guest,
                how,
                tool,
            } = loaded;
            run_loaded(rt, alloc, host, pacer, &image, guest, how, tool)
        }
        Err(refusal) => Err(refusal),
    }
}

// What the words ask for, done.
fn attempt<H: Host + Send, P: Pacer + Send, R: Threads + Sync>(
    rt: &R,
    alloc: Global,
    words: &[String],
    host: &mut H,
    pacer: &mut P,
) -> Result<Done, Refusal>
    ensures tried { IsAttempt (words_wanted (texts words.now)) (task_of (texts words.now))
        (H.told host.old) (H.faults host.old)
        (shows (P.period_shown pacer.old) (P.tally pacer.old) (P.answers pacer.old))
        result (H.told host.new) (H.faults host.new)
        (shows (P.period_shown pacer.new) (P.tally pacer.new) (P.answers pacer.new)) }
    ensures demo { (n : ℕ) → demo_wanted (words_wanted (texts words.now)) ≡ Some n
        → DemoTells n (H.told host.old) result (H.told host.new) }
    ensures serial { by_wanted (words_wanted (texts words.now)) ≢ Some By.Windows → pacer.new ≡ pacer.old }
    ensures uncut { by_wanted (words_wanted (texts words.now)) ≢ Some By.Windows
        → IfOk result (λ done. done.cuts ≡ []) }
{
    match read_words(alloc, words) {
        Ok(Asked::Run(run)) => run_asked(rt, alloc, run, host, pacer),
        Ok(Asked::View { file }) => view_asked(alloc, file.as_str(), host),
        Ok(Asked::Demo { n }) => demo_asked(rt, alloc, n, host),
        Err(fault) => Err(refusal_of_words(fault)),
    }
}

/// Does what the words ask for. `run [OPTIONS] FILE [ARGS]`: the run's bytes go to the host's standard output and standard
/// error, and its report to the port of reports; by windows, as is usual, the run goes without the tool, and is cut where the
/// pacer or a limit says so, while other threads run its slices again with the tool. `view FILE`: the text of the file's code
/// goes to the standard output. `demo N`: the program of this number is generated and run both ways, and what came of it goes to
/// the standard output. The line of a refusal goes to the port of reports.
///
/// The answer is the due one, but for the faults of the file, of the input, of the outputs and of
/// the report, which come where their count rose, and for want of memory.
pub fn superpin<H: Host + Send, P: Pacer + Send, R: Threads + Sync>(
    rt: &R,
    alloc: Global,
    words: &[String],
    host: &mut H,
    pacer: &mut P,
) -> Answer
    // The causes that show on every host.
    ensures words { IsOfWords (words_wanted (texts words.now)) result }
    ensures file_fault { TellsFileFault result (H.faults host.old) (H.faults host.new) }
    ensures input_fault { TellsInputFault result (H.faults host.old) (H.faults host.new) }
    ensures output_fault { TellsOutputFault result (H.faults host.old) (H.faults host.new) }
    ensures report_fault { TellsReportFault result (H.faults host.old) (H.faults host.new) }
    ensures ended { IsEndedWhereNone result (H.faults host.old) (H.faults host.new) }
    ensures other_port { NamesGuestPort result }
    ensures pacer { by_wanted (words_wanted (texts words.now)) ≢ Some By.Windows → pacer.new ≡ pacer.old }
    ensures uncut { by_wanted (words_wanted (texts words.now)) ≢ Some By.Windows → cuts_in result ≡ [] }

    // Where the files are told: the refusals that the words and the file alone decide.
    ensures early { IsEarlyAt (task_of (texts words.now)) (H.told host.old) (H.faults host.old)
        result (H.faults host.new) }

    // Where the host tells: what is answered, and what stands where then, for each answer.
    ensures outcome { OutcomeAt (task_of (texts words.now)) (H.told host.old) (H.faults host.old)
        (shows (P.period_shown pacer.old) (P.tally pacer.old) (P.answers pacer.old))
        result (H.told host.new) (H.faults host.new)
        (shows (P.period_shown pacer.new) (P.tally pacer.new) (P.answers pacer.new)) }

    // The headline: where no count rose, the answer is the due one with exactly the due bytes, or
    // want of memory. The cuts that it tells are those that the pacer's answers and the limits make
    // due, and its lines are those of the slices between them.
    ensures headline { IsDeliveredAt (task_of (texts words.now)) (H.told host.old) (H.faults host.old)
        result (H.told host.new) (H.faults host.new) }
    ensures sliced { TellsSlicesAt (task_of (texts words.now)) (H.told host.old)
        (shows (P.period_shown pacer.old) (P.tally pacer.old) (P.answers pacer.old)) result
        (shows (P.period_shown pacer.new) (P.tally pacer.new) (P.answers pacer.new)) }

    // The cause of every other answer, where no call of the run failed and memory was found.
    ensures causes { IsCausedAt (task_of (texts words.now)) (H.told host.old) (H.faults host.old)
        result (H.faults host.new) }

    // Whatever is answered, what was sent to an output is a beginning of what the run sends there.
    ensures front { AddsFrontAt (task_of (texts words.now)) (H.told host.old) result (H.told host.new) }
    ensures error_front { AddsErrorFrontAt (task_of (texts words.now)) (H.told host.old) result (H.told host.new) }

    // A demonstration: what it prints is what the definitions say of the program of its number, on every host.
    ensures demo { (n : ℕ) → demo_wanted (words_wanted (texts words.now)) ≡ Some n
        → DemoOutcome n (H.told host.old) (H.faults host.old) result (H.told host.new) (H.faults host.new) }
{
    let tried = attempt(rt, alloc, words, host, pacer);
    answer_attempt(host, tried)
}
