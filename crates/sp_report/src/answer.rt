// What a run answers.
ghost use Rattle.std.specs.Prelude.{◌≡◌, []};
ghost use Rattle.sp_report.specs.Answer.{exit_code_of};

use elf_load::ElfFault;
use ordered_merge::SliceLine;
use sp_host::Port;
use std::alloc::Global;
use std::marker::Model;

/// An option or a number of the command words, in the order in which their values are tested.
#[derive(Clone, Copy, Debug, PartialEq, Eq)]
pub enum OptionName {
    By,
    Tool,
    Budget,
    Limit,
    Poll,
    Msec,
    Records,
    Frames,
    Workers,
    /// The number of `demo`.
    N,
}

/// Why words are no command.
#[derive(Clone, Copy, Debug, PartialEq, Eq)]
pub enum UsageKind {
    /// There is no word.
    NoCommand,
    /// The first word names no command.
    UnknownCommand,
    /// The words after it are not in the command's form.
    Form,
    /// The words are in form, and this value is the first that is not in its range.
    BadValue { option: OptionName },
}

/// Why nothing was reported, in the order of the refusals' numbers.
#[derive(Clone, Copy, PartialEq, Eq)]
pub enum Refusal {
    /// The words are no command.
    Usage(UsageKind),
    /// The file could not be read.
    FileFault,
    /// The file has more than 33,554,432 bytes.
    FileTooLarge,
    /// The file is no executable that is accepted.
    Elf(ElfFault),
    /// The strings of the program, with a zero byte each, have more than 65,536 bytes: `bytes`, or
    /// `u64::MAX` where it is more.
    ArgsTooLong { bytes: u64 },
    /// The call at `pc` has a number that no call has.
    UnsupportedCall { number: u32, pc: u32 },
    /// The run had not ended after `n` steps.
    BudgetSpent { n: u64 },
    /// The input could not be read.
    InputFault,
    /// A port did not take the run's bytes.
    OutputFault { port: Port },
    /// The report could not be written.
    ReportFault,
    /// There was no memory.
    NoMemory,
}

/// The positions at which a run was cut into slices, in order.
#[derive(Drop)]
pub struct Cuts(Vec<u64>);

impl Model for Cuts {
    ghost use Rattle.std.specs.Prelude.{ℕ, List};

    ghost Value = { List ℕ };

    ghost view = { λ c. c.0.items };
}

impl Cuts {
    /// These positions. It takes no memory.
    pub fn new(positions: Vec<u64>) -> Cuts
        ensures { result ≡ positions.items }
    {
        Cuts(positions)
    }

    /// No cut: the run was serial. It takes no memory.
    pub fn none(alloc: Global) -> Cuts
        ensures { result ≡ [] }
    {
        Cuts(Vec::new(alloc))
    }

    /// The positions.
    pub fn positions(&self) -> &[u64]
        ensures { result.now ≡ self.now }
    {
        &self.0
    }
}

/// What is told of each slice of a run, in their order.
#[derive(Drop)]
pub struct Lines(Vec<SliceLine>);

impl Model for Lines {
    ghost use Rattle.std.specs.Prelude.{List};
    ghost use Rattle.ordered_merge.specs.declared.merger.SliceLine.{SliceLine};

    ghost Value = { List SliceLine };

    ghost view = { λ l. l.0.items };
}

impl Lines {
    /// These lines. It takes no memory.
    pub fn new(lines: Vec<SliceLine>) -> Lines
        ensures { result ≡ lines.items }
    {
        Lines(lines)
    }

    /// No line: the command ran no program for a report. It takes no memory.
    pub fn none(alloc: Global) -> Lines
        ensures { result ≡ [] }
    {
        Lines(Vec::new(alloc))
    }

    /// The lines.
    pub fn lines(&self) -> &[SliceLine]
        ensures { result.now ≡ self.now }
    {
        &self.0
    }

    /// The lines, as their own list. It takes no memory.
    pub fn into_vec(self) -> Vec<SliceLine>
        ensures { result.items ≡ self }
    {
        self.0
    }
}

/// What a command answers.
#[derive(Drop)]
pub enum Answer {
    /// The run ended, with the status of its exit or 128 plus the number of its signal, the positions at which it was cut and
    /// a line for each slice.
    Ended {
        status: u8,
        cuts: Cuts,
        lines: Lines,
    },
    /// There is no report.
    Refused(Refusal),
}

/// The exit status of the program: the status of the run, or 125.
pub fn exit_code(answer: &Answer) -> u8
    ensures { result ≡ exit_code_of answer.now }
{
    match answer {
        Answer::Ended { status, .. } => *status,
        Answer::Refused(_) => 125,
    }
}
