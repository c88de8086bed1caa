// The outside as a trait. What a host tells of it is optional; how often calls failed is not.
ghost use Rattle.std.specs.Prelude.{◌≡◌, ℕ, ◌<◌, ◌≤◌, ◌+◌, max, length, take, drop, slice_index};
ghost use Rattle.std.specs.Prelude.{IfOk, MatchResult};
ghost use Rattle.sp_host.specs.Told.{Told, WhereTold, file_of, has_file, Gives};
ghost use Rattle.sp_host.specs.Told.{sent, input_taken, moment_taken, drawn_by};
ghost use Rattle.sp_host.specs.Faults.{Faults, Counts};
ghost use Rattle.sp_host.specs.Faults.Source.{File, Input, To};
ghost use Rattle.sp_host.specs.Count.{one_more};

/// Where bytes are written to.
#[derive(Clone, Copy, Debug, PartialEq, Eq)]
pub enum Port {
    /// What the program itself writes to its standard output.
    Out,
    /// What the program itself writes to its standard error.
    Err,
    /// The report on the program.
    Report,
}

/// A call of the outside failed. It took and wrote nothing.
#[derive(Clone, Copy, Debug, PartialEq, Eq)]
pub struct Failed;

impl Failed {
    // A failure that was counted. The count stands still at `u64::MAX`.
    pub(crate) fn counted(faults: &mut u64) -> Failed
        ensures { faults.new ≡ one_more faults.old }
    {
        *faults = faults.saturating_add(1);
        Failed
    }
}

/// The files, the input, the clock and the ports that a program reaches.
///
/// A host counts the calls that fail, one count for each kind of call: files, input, and each port.
/// A call fails exactly where its count rises, by one, and then it took and wrote nothing. A count
/// stands still at `u64::MAX`.
pub trait Host {
    /// What is told of the outside.
    ghost told: { Self → Told };

    /// How often each kind of call has failed.
    ghost faults: { Self → Faults };

    /// How far files were asked for: no call asked for a byte of a file at or past this place. It
    /// is a bound from above, so a host that keeps no such number shows 0.
    ghost reach: { Self → ℕ };

    /// How much was drawn from files: one for each byte that a read gave, and one for each read that
    /// gave none. It is a bound from above, as the reach is.
    ghost drawn: { Self → ℕ };

    /// Reads the bytes of a file from byte `at` on into the front of `buf`, and answers how many.
    /// 0 is the end of the file.
    fn read_file(&mut self, name: &str, at: u64, buf: &mut [u8]) -> Result<usize, Failed>
        requires { 0 < length buf.old }
        ensures bound { IfOk result (λ n. n ≤ length buf.new) }
        ensures bytes { IfOk result (λ n. WhereTold (told self.old).files (λ files.
            Gives (drop at (file_of files name.now)) n buf.new)) }
        ensures told { told self.new ≡ told self.old }
        ensures faults { Counts File (faults self.old) (faults self.new) result }
        ensures reach { reach self.new ≤ max (reach self.old) (at + length buf.old) }
        ensures drawn { drawn self.new ≤ drawn self.old + drawn_by result };

    /// Tells whether there is a file of this name that can be read.
    fn has_file(&mut self, name: &str) -> Result<bool, Failed>
        ensures value { IfOk result (λ found. WhereTold (told self.old).files (λ files.
            found ≡ has_file files name.now)) }
        ensures told { told self.new ≡ told self.old }
        ensures faults { Counts File (faults self.old) (faults self.new) result }
        ensures reach { reach self.new ≤ reach self.old }
        ensures drawn { drawn self.new ≤ drawn self.old };

    /// Takes bytes from the front of the input into the front of `buf`, and answers how many.
    /// 0 is the end of the input.
    fn read_input(&mut self, buf: &mut [u8]) -> Result<usize, Failed>
        requires { 0 < length buf.old }
        ensures bound { IfOk result (λ n. n ≤ length buf.new) }
        ensures bytes { IfOk result (λ n. WhereTold (told self.old).input (λ left.
            Gives left n buf.new)) }
        ensures told { MatchResult result (λ n. told self.new ≡ input_taken n (told self.old))
            (λ _. told self.new ≡ told self.old) }
        ensures faults { Counts Input (faults self.old) (faults self.new) result }
        ensures reach { reach self.new ≤ reach self.old }
        ensures drawn { drawn self.new ≤ drawn self.old };

    /// Writes the first bytes of a piece, at least one, and answers how many.
    fn write(&mut self, port: Port, bytes: &[u8]) -> Result<usize, Failed>
        requires { 0 < length bytes.now }
        ensures some { IfOk result (λ n. 0 < n) }
        ensures bound { IfOk result (λ n. n ≤ length bytes.now) }
        ensures told { MatchResult result
            (λ n. told self.new ≡ sent port (take n bytes.now) (told self.old))
            (λ _. told self.new ≡ told self.old) }
        ensures faults { Counts (To port) (faults self.old) (faults self.new) result }
        ensures reach { reach self.new ≤ reach self.old }
        ensures drawn { drawn self.new ≤ drawn self.old };

    /// Takes the first moment that is left, in nanoseconds since 1970, or answers 0 where none is
    /// left.
    fn now(&mut self) -> u64
        ensures value { WhereTold (told self.old).moments (λ left. result ≡ slice_index left 0) }
        ensures told { told self.new ≡ moment_taken (told self.old) }
        ensures faults { faults self.new ≡ faults self.old }
        ensures reach { reach self.new ≤ reach self.old }
        ensures drawn { drawn self.new ≤ drawn self.old };
}
