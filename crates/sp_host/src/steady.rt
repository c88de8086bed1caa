// A host that never fails.
ghost use Rattle.std.specs.Prelude.{◌≡◌, ◌≤◌, vec_len, Some, None};

use crate::memory::Tape;
use crate::{Failed, Host, Port};

/// A host that never fails. It has no file; each name reads as an empty one. Its input and its
/// moments, in nanoseconds since 1970, are told, and what is written to it is neither kept nor
/// told.
#[derive(Drop)]
pub struct SteadyHost {
    input: Tape,
    moments: Vec<u64>,
    moments_at: usize,
    ghost moments_within: { moments_at ≤ vec_len moments },
}

impl SteadyHost {
    ghost use Rattle.sp_host.specs.Steady.{steady_told, no_files};

    /// A host with this input and these moments.
    pub fn new(input: Vec<u8>, moments: Vec<u64>) -> SteadyHost
        ensures { steady_told result ≡ record {
          files = Some no_files;
          input = Some input.items;
          moments = Some moments.items;
          out = None;
          err = None;
          report = None;
        } }
    {
        SteadyHost {
            input: Tape::new(input),
            moments,
            moments_at: 0,
        }
    }
}

impl Host for SteadyHost {
    ghost use Rattle.sp_host.specs.Steady.{steady_told};
    ghost use Rattle.sp_host.specs.Faults.{no_faults};

    ghost told = { steady_told };

    ghost faults = { λ _. no_faults };

    ghost reach = { λ _. 0 };

    ghost drawn = { λ _. 0 };

    fn read_file(&mut self, _name: &str, _at: u64, _buf: &mut [u8]) -> Result<usize, Failed> {
        Ok(0)
    }

    fn has_file(&mut self, _name: &str) -> Result<bool, Failed> {
        Ok(false)
    }

    fn read_input(&mut self, buf: &mut [u8]) -> Result<usize, Failed> {
        Ok(self.input.take(usize::MAX, buf))
    }

    fn write(&mut self, _port: Port, bytes: &[u8]) -> Result<usize, Failed> {
        Ok(bytes.len())
    }

    fn now(&mut self) -> u64 {
        if self.moments_at < self.moments.len() {
            let moment = self.moments[self.moments_at];
            self.moments_at += 1;
            return moment;
        }
        0
    }
}
