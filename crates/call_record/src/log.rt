// The records of a run, in order.
ghost use Rattle.std.specs.Prelude.{◌≡◌, ◌+◌, ◌^◌, ◌<◌, [], ◌∷◌, ◌++◌, length, OnOk, OnErr};
ghost use Rattle.std.specs.List.{sum_by};
ghost use Rattle.call_record.specs.Record.{stored_size, size_of_records};

use crate::record::{Record, Write};
use std::alloc::{AllocError, Global};
use std::marker::Model;
use std::mem;

/// The records of the calls of a run. Contracts see it as their list.
#[derive(Drop)]
pub struct RecordLog {
    alloc: Global,
    records: Vec<Record>,
    bytes: u64,
}

impl Model for RecordLog {
    ghost use Rattle.std.specs.Prelude.{◌≡◌, List};
    ghost use Rattle.call_record.specs.Record.{CallRecord, size_of_records};

    ghost Value = { List CallRecord };

    ghost view = { λ l. l.records.items };

    ghost invariant = { λ l. l.bytes ≡ size_of_records l.records.items };
}

// How many bytes these writes have.
fn size_of(writes: &[Write]) -> u64
    requires { sum_by (λ s. length s.bytes) writes.now < 2 ^ 64 }
    ensures { result ≡ sum_by (λ s. length s.bytes) writes.now }
{
    let mut size = 0;
    for write in writes {
        size += write.bytes.len() as u64;
    }
    size
}

impl RecordLog {
    /// A log with no record. It takes no memory.
    pub fn new(alloc: Global) -> RecordLog
        ensures { result ≡ [] }
    {
        RecordLog {
            alloc,
            records: Vec::new(alloc),
            bytes: 0,
        }
    }

    /// How many records there are.
    pub fn len(&self) -> u64
        ensures { result ≡ length self.now }
    {
        self.records.len() as u64
    }

    /// How many bytes all the writes of the records have.
    pub fn bytes(&self) -> u64
        ensures { result ≡ size_of_records self.now }
    {
        self.bytes
    }

    /// Adds a record behind the others. Without memory for it the log stays as it was.
    pub fn push(&mut self, entry: Record) -> Result<(), AllocError>
        requires { size_of_records self.old + stored_size entry < 2 ^ 64 }
        ensures added { OnOk result (self.new ≡ self.old ++ entry ∷ []) }
        ensures same { OnErr result (self.new ≡ self.old) }
    {
        let size = size_of(&entry.writes);
        self.records.push(entry)?;
        self.bytes += size;
        Ok(())
    }

    /// Takes the records out, so that the log has none. It takes no memory.
    pub fn cut(&mut self) -> Vec<Record>
        ensures records { result.items ≡ self.old }
        ensures empty { self.new ≡ [] }
    {
        self.bytes = 0;
        mem::replace(&mut self.records, Vec::new(self.alloc))
    }
}

// Takes only what can be moved between threads.
fn movable<T: Send>(_value: &T) {}

// A log can, and so can its records.
fn movable_log(log: &RecordLog) {
    movable(log);
}
