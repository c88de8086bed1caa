// A job as a slice.
ghost use Rattle.std.specs.Prelude.{IfOk};
ghost use Rattle.slice_runner.specs.Piece.{IsPieceOf};

use boundary_verify::Job;
use insert_points::Plan;
use slice_runner::{open_slice, run_slice};
use std::alloc::{AllocError, Global};
use tool_law::{Piece, Tool};

/// Runs a job with the tool whose plan this is, up to its boundary, and gives its piece.
pub fn run_job<T: Tool>(
    alloc: Global,
    plan: &Plan,
    tool: &T,
    job: Job,
) -> Result<Piece<T>, AllocError>
    ensures { IfOk result (IsPieceOf (T.is_local tool.now) plan.now job) }
{
    let slice = open_slice(alloc, plan, job, tool)?;
    run_slice(plan, tool, slice)
}
