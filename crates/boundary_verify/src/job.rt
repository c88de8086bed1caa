// Jobs and their boundaries.
ghost use Rattle.std.specs.Prelude.{◌≡◌, IsTrue, ◌↔◌};
ghost use Rattle.guest_model.specs.Play.{spot};
ghost use Rattle.guest_mem.specs.Memory.{all_bytes};
ghost use Rattle.boundary_verify.specs.Job.{IsNear, boundary_of};
ghost use Rattle.boundary_verify.specs.Path as paths;

use call_record::Record;
use rv_machine::{Guest, Snapshot};
use std::marker::Model;

/// Where a slice ends.
#[derive(Drop)]
pub enum Boundary {
    /// At this machine and record position.
    At { state: Snapshot, position: u64 },
    /// With the run.
    End,
}

impl Boundary {
    /// Whether a guest that was made from `base` is at the boundary, at this record position; never where the slice ends with
    /// the run. Only the pages are compared that the guest wrote, and those that the boundary names as changed.
    pub fn is_at(&self, base: &Snapshot, guest: &Guest, position: u64) -> bool
        requires made { guest.now.origin ≡ all_bytes base.now.machine.space }
        requires near { IsNear base.now self.now }
        ensures { IsTrue result ↔ (boundary_of self.now ≡ paths.At (spot guest.now.machine position)) }
    {
        match self {
            Boundary::At {
                state,
                position: end,
            } => position == *end && guest.same_as(base, state),
            Boundary::End => false,
        }
    }
}

/// A slice that is yet to run: its play meets its boundary after some number of steps, which only contracts know.
#[derive(Drop)]
pub struct Job {
    /// The number of the slice, from 0.
    pub index: u64,
    pub start: Snapshot,
    /// The record position at which it starts, at most 2^40.
    pub position: u64,
    /// What its calls did, in order.
    pub records: Vec<Record>,
    pub end: Boundary,
    /// How many pages it may write.
    pub peak: u32,
}

impl Model for Job {
    ghost use Rattle.std.specs.Coded.{codes};
    ghost use Rattle.boundary_verify.specs.Job.{JobFields, IsJob};
    ghost use Rattle.boundary_verify.specs.contracts.job.Boundary as boundary;
    ghost use Rattle.rv_machine.specs.Snapshot.{snapshot_code};

    ghost Value = { JobFields };

    ghost coded = { Prim.hlevel (codes, snapshot_code, boundary.the_row.coded) };

    ghost view = { λ j. record {
      index = j.index;
      start = j.start;
      position = j.position;
      records = j.records.items;
      end = j.end;
      peak = j.peak;
    } };

    ghost invariant = { λ j. IsJob (record {
      index = j.index;
      start = j.start;
      position = j.position;
      records = j.records.items;
      end = j.end;
      peak = j.peak;
    }) };
}

/// Whether a guest of the job, at this record position, is at the job's boundary. Only the pages are compared that the
/// guest wrote, and those that the boundary names as changed.
pub fn whole_equal(guest: &Guest, position: u64, job: &Job) -> bool
    requires { guest.now.origin ≡ all_bytes job.now.start.machine.space }
    ensures { IsTrue result ↔ (boundary_of job.now.end ≡ paths.At (spot guest.now.machine position)) }
{
    job.end.is_at(&job.start, guest, position)
}
