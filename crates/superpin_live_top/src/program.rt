// What the program does between the system and the top call.
ghost use Rattle.std.specs.Prelude.{IfErr, IfOk};
ghost use Rattle.sliced_run.specs.Sliced.{shows};
ghost use Rattle.superpin_top.specs.Answered.{ExitsAt, ExitsUnread};
ghost use Rattle.superpin_top.specs.Due.{texts};
ghost use Rattle.superpin_live_top.specs.Due.{live_task_of};

use crate::top::superpin_live;
use sp_host::{FreeGate, Gate, Host, Pacer, StdHost, TimePacer};
use sp_report::{Refusal, exit_code};
use std::alloc::Global;
use std::process::ExitCode;
use std::sync::Wait;
use std::thread::Threads;
use superpin_top::{command_words, refuse_words};

/// Answers the command words, or says why they could not be read, and gives the exit status: that
/// of the answer.
pub fn answer_live_words<H: Host + Send, P: Pacer + Send, G: Gate + Sync, R: Threads + Wait + Sync>(
    rt: &R,
    alloc: Global,
    words: Result<Vec<String>, Refusal>,
    host: &mut H,
    pacer: &mut P,
    gate: &G,
) -> u8
    ensures read { IfOk words (λ words. ExitsAt (live_task_of (texts words.items)) (H.told host.old) (H.faults host.old)
        (shows (P.period_shown pacer.old) (P.tally pacer.old) (P.answers pacer.old))
        result (H.told host.new) (H.faults host.new)
        (shows (P.period_shown pacer.new) (P.tally pacer.new) (P.answers pacer.new))) }
    ensures unread { IfErr words (λ refusal. ExitsUnread refusal result (H.told host.old) (H.told host.new)
        (H.faults host.old) (H.faults host.new)) }
{
    match words {
        Ok(words) => {
            let answer = superpin_live(rt, alloc, &words, host, pacer, gate);
            exit_code(&answer)
        }
        Err(refusal) => refuse_words(host, refusal),
    }
}

/// The whole program over the system, whose threads are made by `threads`. It may wait for them.
pub fn run_live_program<R: Threads + Wait + Sync>(rt: HostRuntime, threads: &R) -> ExitCode {
    let alloc = rt.alloc();
    let words = command_words(&rt);
    let mut pacer = TimePacer::new(rt);
    let mut host = StdHost::new(rt);
    ExitCode::from(answer_live_words(threads, alloc, words, &mut host, &mut pacer, &FreeGate))
}
