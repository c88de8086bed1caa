// The jobs and the pieces of a live run. Each keeps in its type what it is of its run.
ghost use Rattle.std.specs.Prelude.{◌≡◌};

use boundary_verify::Job;
use insert_points::Plan;
use rv_machine::Guest;
use slice_ring::{LeadSeat, Numbered, Ring, WorkSeat};
use sp_host::Host;
use std::alloc::AllocError;
use std::marker::Model;
use std::snapshot::Snapshot;
use tool_law::{Piece, Tool};

/// The run that jobs and pieces are of, for contracts alone: they see the tool and its plan, the machine before its first step,
/// and what the host told then.
#[derive(Drop)]
pub struct LiveRun<T: Tool, H: Host> {
    tool: Snapshot<T>,
    plan: Snapshot<Plan>,
    guest: Snapshot<Guest>,
    host: Snapshot<H>,
}

impl<T: Tool, H: Host> Model for LiveRun<T, H> {
    ghost use Rattle.std.specs.Coded.{codes};
    ghost use Rattle.guest_model.specs.Machine.{machine_code};
    ghost use Rattle.live_run.specs.Live.{RunStart, told_code};

    ghost Value = { RunStart T };

    ghost coded = { Prim.hlevel (codes, machine_code, told_code) };

    ghost view = { λ r. record { tool = r.tool.value; plan = r.plan.value; machine = r.guest.value.machine; told = H.told r.host.value } };
}

impl<T: Tool, H: Host> LiveRun<T, H> {
    /// The run of this guest, which no step was made of, over this host.
    pub fn of(tool: &T, plan: &Plan, guest: &Guest, host: &H) -> LiveRun<T, H>
        ensures { result ≡ record { tool = tool.now; plan = plan.now; machine = guest.now.machine; told = H.told host.now } }
    {
        LiveRun {
            tool: Snapshot::of(tool),
            plan: Snapshot::of(plan),
            guest: Snapshot::of(guest),
            host: Snapshot::of(host),
        }
    }
}

// A job with the cuts between which it lies.
#[derive(Drop)]
pub(crate) struct CutJob {
    pub(crate) job: Job,
    pub(crate) first: u64,
    pub(crate) second: u64,
}

/// A job of a live run, with the cuts between which it lies: the cut at which it starts, 0 for the first job, and that at
/// which it ends, 0 for the last one. Contracts see its number, these cuts and the run.
#[derive(Drop)]
pub struct LiveJob<T: Tool, H: Host> {
    pub(crate) cut: CutJob,
    pub(crate) run: Snapshot<LiveRun<T, H>>,
}

impl<T: Tool, H: Host> Model for LiveJob<T, H> {
    ghost use Rattle.slice_ring.specs.Ticket.{Ticket};
    ghost use Rattle.std.specs.Coded.{codes};
    ghost use Rattle.guest_model.specs.Machine.{machine_code};
    ghost use Rattle.live_run.specs.Live.{IsJobOfRun, RunStart, told_code};

    ghost Value = { Ticket (RunStart T) };

    ghost coded = { Prim.hlevel (codes, machine_code, told_code) };

    ghost view = { λ j. record { number = j.cut.job.index; tag = (j.cut.first, j.cut.second); topic = j.run.value } };

    ghost invariant = { λ j. IsJobOfRun j.run.value.told j.run.value.machine j.cut.first j.cut.second j.cut.job };
}

/// What comes of a job of a live run: its piece, or want of memory, with the job's number and cuts. Contracts see these and
/// the run.
#[derive(Drop)]
pub struct LivePiece<T: Tool, H: Host> {
    pub(crate) number: u64,
    pub(crate) first: u64,
    pub(crate) second: u64,
    pub(crate) piece: Result<Piece<T>, AllocError>,
    pub(crate) run: Snapshot<LiveRun<T, H>>,
}

impl<T: Tool, H: Host> Model for LivePiece<T, H> {
    ghost use Rattle.std.specs.Prelude.{IfOk};
    ghost use Rattle.slice_ring.specs.Ticket.{Ticket};
    ghost use Rattle.std.specs.Coded.{codes};
    ghost use Rattle.guest_model.specs.Machine.{machine_code};
    ghost use Rattle.live_run.specs.Live.{IsPieceOfRun, RunStart, told_code};

    ghost Value = { Ticket (RunStart T) };

    ghost coded = { Prim.hlevel (codes, machine_code, told_code) };

    ghost view = { λ p. record { number = p.number; tag = (p.first, p.second); topic = p.run.value } };

    ghost invariant = { λ p. IfOk p.piece (IsPieceOfRun (T.is_local p.run.value.tool) p.run.value.plan
        p.run.value.told p.run.value.machine p.number (p.first, p.second)) };
}

impl<T: Tool, H: Host> Numbered for LiveJob<T, H> {
    type Topic = LiveRun<T, H>;

    ghost ticket = { λ job. job };

    fn number(&self) -> u64 {
        self.cut.job.index
    }

    fn tag(&self) -> (u64, u64) {
        (self.cut.first, self.cut.second)
    }
}

impl<T: Tool, H: Host> Numbered for LivePiece<T, H> {
    type Topic = LiveRun<T, H>;

    ghost ticket = { λ piece. piece };

    fn number(&self) -> u64 {
        self.number
    }

    fn tag(&self) -> (u64, u64) {
        (self.first, self.second)
    }
}

/// A ring of the jobs of a live run.
pub type LiveRing<T, H> = Ring<LiveJob<T, H>, LivePiece<T, H>>;

/// The seat of its lead.
pub type LiveLead<T, H> = LeadSeat<LiveJob<T, H>, LivePiece<T, H>>;

/// The seat of one of its workers.
pub type LiveSeat<T, H> = WorkSeat<LiveJob<T, H>, LivePiece<T, H>>;

// Takes only what can be moved between threads.
fn movable<T: Send>(_value: &T) {}

// A job can.
fn movable_job<T: Tool, H: Host>(job: &LiveJob<T, H>) {
    movable(job);
}

// A piece can.
fn movable_piece<T: Tool, H: Host>(piece: &LivePiece<T, H>) {
    movable(piece);
}

// So can what it holds.
fn movable_cut(cut: &CutJob) {
    movable(cut);
}
