// What words ask for, and why they are not read.
ghost use Rattle.std.specs.Prelude.{◌≡◌, ◌≤◌, List, ℕ, map, string_bytes, true};
ghost use Rattle.sp_words.specs.Sizes.{has_sizes};

use master_run::Limits;
use sp_report::UsageKind;
use std::alloc::AllocError;
use std::marker::Model;
use thiserror::Error;

/// How a program is run with its tool.
#[derive(Clone, Copy, PartialEq, Eq)]
pub enum By {
    /// As one run.
    Serial,
    /// By windows of slices.
    Windows,
}

/// The tool of a run.
#[derive(Clone, Copy, PartialEq, Eq)]
pub enum ToolName {
    /// How many instructions there were.
    Icount,
    /// How many blocks, and how many instructions in them.
    Bcount,
    /// How many instructions of each name.
    Mix,
    /// How often each block began.
    Blocks,
    /// Each call, with its depth.
    Calls,
    /// A direct-mapped cache of `sets` sets, a power of two from 1 to 4,096, whose lines have `line` bytes, a power of two from
    /// 4 to 4,096.
    Cache { sets: u32, line: u32 },
}

/// Why words were not read.
#[derive(Clone, Copy, Debug, PartialEq, Eq, Error)]
pub enum WordFault {
    /// They are no command.
    #[error("the words are no command")]
    Usage(UsageKind),
    #[error("no memory")]
    NoMemory,
}

impl From<AllocError> for WordFault {
    ghost use Rattle.sp_words.specs.declared.asked.WordFault.TheVariants.{NoMemory};

    ghost from_gives = { λ _ w. w ≡ NoMemory };

    fn from(_: AllocError) -> WordFault {
        WordFault::NoMemory
    }
}

/// The name of a file, as its word writes it.
#[derive(Drop)]
pub struct FileName(String);

impl Model for FileName {
    ghost Value = { List ℕ };

    ghost view = { λ n. string_bytes n.0 };
}

impl FileName {
    /// This name. It takes no memory.
    pub fn new(name: String) -> FileName
        ensures { result ≡ string_bytes name }
    {
        FileName(name)
    }

    /// The name.
    pub fn as_str(&self) -> &str
        ensures { result.now ≡ self.now }
    {
        self.0.as_str()
    }

    /// The name, as its own text. It takes no memory.
    pub fn into_string(self) -> String
        ensures { string_bytes result ≡ self }
    {
        self.0
    }
}

/// The arguments of a program, as their words write them.
#[derive(Drop)]
pub struct Arguments(Vec<String>);

impl Model for Arguments {
    ghost Value = { List (List ℕ) };

    ghost view = { λ a. map string_bytes a.0.items };
}

impl Arguments {
    /// These arguments. It takes no memory.
    pub fn new(words: Vec<String>) -> Arguments
        ensures { result ≡ map string_bytes words.items }
    {
        Arguments(words)
    }

    /// The arguments.
    pub fn words(&self) -> &[String]
        ensures { map string_bytes result.now ≡ self.now }
    {
        &self.0
    }

    /// The arguments, as their own list. It takes no memory.
    pub fn into_vec(self) -> Vec<String>
        ensures { map string_bytes result.items ≡ self }
    {
        self.0
    }
}

/// What `run` asks for.
#[derive(Drop)]
pub struct RunAsked {
    pub by: By,
    pub tool: ToolName,
    pub limits: Limits,
    /// A cut is due after so many milliseconds, from 1 to 60,000.
    pub msec: u32,
    /// How many workers run slices, from 1 to 16.
    pub workers: u32,
    /// Whether the lines of the slices are reported.
    pub slices: bool,
    pub file: FileName,
    pub args: Arguments,
    pub ghost sizes: { has_sizes tool ≡ true },
    pub ghost msec_range: { (1 ≤ msec) × (msec ≤ 60000) },
    pub ghost workers_range: { (1 ≤ workers) × (workers ≤ 16) },
}

/// What words ask for.
#[derive(Drop)]
pub enum Asked {
    /// A program's run with a tool.
    Run(RunAsked),
    /// The text of a file's code.
    View { file: FileName },
    /// The generated program of this number, run both ways.
    Demo { n: u32 },
}
