// What the program does between the system and the top call.
ghost use Rattle.std.specs.Prelude.{◌≡◌, ℕ, Some, IfOk, IfErr};
ghost use Rattle.sp_report.specs.Answer.{exit_code_of};
ghost use Rattle.sp_report.specs.declared.answer.Answer.{Answer};
ghost use Rattle.sliced_run.specs.Sliced.{shows};
ghost use Rattle.sp_words.specs.Asked.{words_wanted};
ghost use Rattle.superpin_top.specs.Answered.{ExitsAt, ExitsUnread};
ghost use Rattle.superpin_top.specs.Due.{demo_wanted, task_of, texts};
ghost use Rattle.superpin_top.specs.Outcome.{DemoOutcome};

use crate::answer::refuse;
use crate::top::superpin;
use sp_host::{Host, Pacer, StdHost, TimePacer};
use sp_report::{Answer, Refusal, UsageKind, exit_code};
use std::alloc::Global;
use std::env;
use std::io::ErrorKind;
use std::process::ExitCode;
use std::thread::Threads;

/// Answers the command words, or says why they could not be read, and gives the exit status: that
/// of the answer.
pub fn answer_words<H: Host + Send, P: Pacer + Send, R: Threads + Sync>(
    rt: &R,
    alloc: Global,
    words: Result<Vec<String>, Refusal>,
    host: &mut H,
    pacer: &mut P,
) -> u8
    ensures read { IfOk words (λ words. ExitsAt (task_of (texts words.items)) (H.told host.old) (H.faults host.old)
        (shows (P.period_shown pacer.old) (P.tally pacer.old) (P.answers pacer.old))
        result (H.told host.new) (H.faults host.new)
        (shows (P.period_shown pacer.new) (P.tally pacer.new) (P.answers pacer.new))) }
    ensures demo { IfOk words (λ words. (n : ℕ) → demo_wanted (words_wanted (texts words.items)) ≡ Some n →
        (answer : Answer) × (result ≡ exit_code_of answer) ×
        DemoOutcome n (H.told host.old) (H.faults host.old) answer (H.told host.new) (H.faults host.new)) }
    ensures unread { IfErr words (λ refusal. ExitsUnread refusal result (H.told host.old) (H.told host.new)
        (H.faults host.old) (H.faults host.new)) }
{
    match words {
        Ok(words) => {
            let answer = superpin(rt, alloc, &words, host, pacer);
            exit_code(&answer)
        }
        Err(refusal) => refuse_words(host, refusal),
    }
}

/// Says why words could not be read, and gives the exit status.
pub fn refuse_words<H: Host>(host: &mut H, refusal: Refusal) -> u8
    ensures { ExitsUnread refusal result (H.told host.old) (H.told host.new) (H.faults host.old) (H.faults host.new) }
{
    refuse(host, &refusal);
    exit_code(&Answer::Refused(refusal))
}

/// The command words without the program's own name. Words that are no UTF-8 text are in no form.
pub fn command_words(rt: &HostRuntime) -> Result<Vec<String>, Refusal> {
    let args = match env::args(rt) {
        Ok(args) => args,
        Err(e) if e.kind() == ErrorKind::OutOfMemory => return Err(Refusal::NoMemory),
        Err(_) => return Err(Refusal::Usage(UsageKind::Form)),
    };
    let mut words = Vec::new(rt.alloc());
    for word in args.skip(1) {
        if words.push(word).is_err() {
            return Err(Refusal::NoMemory);
        }
    }
    Ok(words)
}

/// The whole program over the system, whose threads are made by `threads`.
pub fn run_program<R: Threads + Sync>(rt: HostRuntime, threads: &R) -> ExitCode {
    let alloc = rt.alloc();
    let words = command_words(&rt);
    let mut pacer = TimePacer::new(rt);
    let mut host = StdHost::new(rt);
    ExitCode::from(answer_words(threads, alloc, words, &mut host, &mut pacer))
}
