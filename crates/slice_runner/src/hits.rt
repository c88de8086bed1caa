// The tests of a position against the boundary.
ghost use Rattle.std.specs.Prelude.{◌≡◌, IsTrue, ◌↔◌};
ghost use Rattle.guest_model.specs.Play.{spot};
ghost use Rattle.guest_model.specs.Tests.{IsQuickEqual, signature_of};
ghost use Rattle.guest_mem.specs.Memory.{all_bytes};
ghost use Rattle.boundary_verify.specs.Job.{boundary_of};
ghost use Rattle.boundary_verify.specs.Path as paths;
ghost use Rattle.slice_runner.specs.Piece.{counts_of};
ghost use Rattle.slice_runner.specs.Turn.{CountsBy, HasRoom, HasSignature, IsSignatureOf};

use boundary_verify::{Boundary, Job, whole_equal};
use rv_machine::Guest;
use slice_signature::Signature;
use tool_law::Hits;

/// The signature of the job's boundary, if it does not end with the run.
pub(crate) fn signature_of_end(job: &Job) -> Option<Signature>
    ensures { HasSignature job.now.end result }
{
    match &job.end {
        Boundary::At { state, position } => Some(Signature::of(state, *position)),
        Boundary::End => None,
    }
}

/// Counts the guest's position at each test that it passes, and answers whether it is the job's boundary.
#[inline(always)]
pub(crate) fn is_at_end(
    job: &Job,
    signature: &Option<Signature>,
    guest: &Guest,
    calls: u64,
    hits: &mut Hits,
) -> bool
    requires made { guest.now.origin ≡ all_bytes job.now.start.machine.space }
    requires signature { HasSignature job.now.end signature.now }
    requires room { HasRoom (counts_of hits.old) }
    ensures counts { CountsBy job.now.end (spot guest.now.machine calls)
        (counts_of hits.old) (counts_of hits.new) }
    ensures end { IsTrue result ↔ (boundary_of job.now.end ≡ paths.At (spot guest.now.machine calls)) }
{
    match signature {
        Some(signature) => count_at(job, signature, guest, calls, hits),
        None => false,
    }
}

// The same, where there is a signature.
#[inline(always)]
fn count_at(job: &Job, signature: &Signature, guest: &Guest, calls: u64, hits: &mut Hits) -> bool
    requires made { guest.now.origin ≡ all_bytes job.now.start.machine.space }
    requires signature { IsSignatureOf job.now.end signature.now }
    requires room { HasRoom (counts_of hits.old) }
    ensures counts { CountsBy job.now.end (spot guest.now.machine calls)
        (counts_of hits.old) (counts_of hits.new) }
    ensures end { IsTrue result ↔ (boundary_of job.now.end ≡ paths.At (spot guest.now.machine calls)) }
{
    signature.quick(guest, calls) && count_further(job, signature, guest, calls, hits)
}

// The same of a position that passes the quick test.
#[inline(never)]
fn count_further(
    job: &Job,
    signature: &Signature,
    guest: &Guest,
    calls: u64,
    hits: &mut Hits,
) -> bool
    requires made { guest.now.origin ≡ all_bytes job.now.start.machine.space }
    requires signature { IsSignatureOf job.now.end signature.now }
    requires room { HasRoom (counts_of hits.old) }
    requires quick { IsQuickEqual signature.now (signature_of (spot guest.now.machine calls)) }
    ensures counts { CountsBy job.now.end (spot guest.now.machine calls)
        (counts_of hits.old) (counts_of hits.new) }
    ensures end { IsTrue result ↔ (boundary_of job.now.end ≡ paths.At (spot guest.now.machine calls)) }
{
    hits.quick += 1;
    if !signature.registers(guest) {
        return false;
    }
    hits.registers += 1;
    if !signature.stack(guest) {
        return false;
    }
    hits.stack += 1;
    if !whole_equal(guest, calls, job) {
        return false;
    }
    hits.whole += 1;
    true
}
