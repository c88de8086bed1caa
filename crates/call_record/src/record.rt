// What a call left behind.
use std::marker::Model;

/// Bytes that a call stored in memory.
#[derive(Drop)]
pub struct Write {
    /// The address of the first byte.
    pub at: u32,
    pub bytes: Vec<u8>,
}

impl Model for Write {
    ghost use Rattle.call_record.specs.Record.{Stored};

    ghost Value = { Stored };

    ghost view = { λ w. record { at = w.at; bytes = w.bytes.items } };
}

/// The record of a call that went on.
#[derive(Drop)]
pub struct Record {
    /// The number of the call.
    pub number: u32,
    /// What the guest got in x10.
    pub result: u32,
    /// What was stored in memory, in order.
    pub writes: Vec<Write>,
}

impl Model for Record {
    ghost use Rattle.call_record.specs.Record.{CallRecord};

    ghost Value = { CallRecord };

    ghost view = { λ r. record { number = r.number; answer = r.result; stored = r.writes.items } };
}
