// A host in memory, with a plan of the calls that fail.
ghost use Rattle.std.specs.Prelude.{◌≡◌, ◌<◌, ◌≤◌, ◌+◌, ◌-◌, ◌^◌, ◌++◌, ◌↔◌, ◌⊎◌, [], length};
ghost use Rattle.std.specs.Prelude.{take, drop, min, max, slice_index, vec_len, vec_capacity};
ghost use Rattle.std.specs.Prelude.{IfOk, IsErr, MatchResult, Contains};
ghost use Rattle.sp_host.specs.Told.{Gives};
ghost use Rattle.sp_host.specs.Count.{one_more};
ghost use Rattle.sp_host.specs.Plan.{count_moved};

use crate::{Failed, Host, Port};
use std::alloc::{AllocError, Global};

/// Which calls fail, and how many bytes a call moves and a port holds.
///
/// Each of the five lists holds the numbers of the calls of one kind that fail. The first call of a
/// kind has number 1.
#[derive(Drop)]
pub struct FaultPlan {
    /// Calls of [`Host::read_file`] and [`Host::has_file`].
    pub file: Vec<u64>,
    /// Calls of [`Host::read_input`].
    pub input: Vec<u64>,
    /// Calls of [`Host::write`] to [`Port::Out`].
    pub out: Vec<u64>,
    /// Calls of [`Host::write`] to [`Port::Err`].
    pub err: Vec<u64>,
    /// Calls of [`Host::write`] to [`Port::Report`].
    pub report: Vec<u64>,
    /// The most bytes that a call moves, at least 1.
    pub most: usize,
    /// The bytes that each port can hold.
    pub room: usize,
}

impl FaultPlan {
    /// A plan by which no call fails but a write to a full port. The lists can be filled then.
    pub fn new(alloc: Global, most: usize, room: usize) -> FaultPlan
        ensures file { result.file.items ≡ [] }
        ensures input { result.input.items ≡ [] }
        ensures out { result.out.items ≡ [] }
        ensures err { result.err.items ≡ [] }
        ensures report { result.report.items ≡ [] }
        ensures most { result.most ≡ most }
        ensures room { result.room ≡ room }
    {
        FaultPlan {
            file: Vec::new(alloc),
            input: Vec::new(alloc),
            out: Vec::new(alloc),
            err: Vec::new(alloc),
            report: Vec::new(alloc),
            most,
            room,
        }
    }
}

// The calls of one kind: which fail, how many there were, and how many failed.
#[derive(Drop)]
pub struct Meter {
    plan: Vec<u64>,
    calls: u64,
    faults: u64,
}

impl Meter {
    fn new(plan: Vec<u64>) -> Self
        ensures faults { result.faults ≡ 0 }
        ensures calls { result.calls ≡ 0 }
        ensures plan { result.plan ≡ plan }
    {
        Meter {
            plan,
            calls: 0,
            faults: 0,
        }
    }

    fn fault(&mut self) -> Failed
        ensures rises { self.new.faults ≡ one_more self.old.faults }
        ensures calls { self.new.calls ≡ self.old.calls }
        ensures plan { self.new.plan ≡ self.old.plan }
    {
        Failed::counted(&mut self.faults)
    }

    // Counts a call. It fails exactly where its number is in the plan.
    fn call(&mut self) -> Result<(), Failed>
        ensures planned { IsErr result ↔ Contains self.old.plan.items (one_more self.old.calls) }
        ensures faults { MatchResult result (λ _. self.new.faults ≡ self.old.faults)
            (λ _. self.new.faults ≡ one_more self.old.faults) }
        ensures calls { self.new.calls ≡ one_more self.old.calls }
        ensures plan { self.new.plan ≡ self.old.plan }
    {
        self.calls = self.calls.saturating_add(1);
        if self.plan.contains(&self.calls) {
            return Err(self.fault());
        }
        Ok(())
    }
}

// Bytes that are taken from the front.
#[derive(Drop)]
pub struct Tape {
    items: Vec<u8>,
    at: usize,
    ghost within: { at ≤ vec_len items },
}

// What a port holds.
#[derive(Drop)]
pub struct Sink {
    bytes: Vec<u8>,
    meter: Meter,
}

impl Tape {
    ghost use Rattle.sp_host.specs.Memory.{tape_left};

    pub(crate) fn new(items: Vec<u8>) -> Tape
        ensures { tape_left result ≡ items.items }
    {
        Tape { items, at: 0 }
    }

    // Takes bytes from the front, at most `most` of them.
    pub(crate) fn take(&mut self, most: usize, buf: &mut [u8]) -> usize
        requires room { 0 < length buf.old }
        requires most { 0 < most }
        ensures bound { result ≤ length buf.new }
        ensures gives { Gives (tape_left self.old) result buf.new }
        ensures count { result ≡ count_moved most (length buf.old) (length (tape_left self.old)) }
        ensures left { tape_left self.new ≡ drop result (tape_left self.old) }
    {
        let count = copy_front(&self.items[self.at..], most, buf);
        self.at += count;
        count
    }
}

impl Sink {
    fn new(alloc: Global, room: usize, plan: Vec<u64>) -> Result<Sink, AllocError>
        ensures room { IfOk result (λ s. room ≤ vec_capacity s.bytes) }
        ensures bytes { IfOk result (λ s. s.bytes.items ≡ []) }
        ensures faults { IfOk result (λ s. s.meter.faults ≡ 0) }
        ensures calls { IfOk result (λ s. s.meter.calls ≡ 0) }
        ensures plan { IfOk result (λ s. s.meter.plan ≡ plan) }
        ensures memory { IsErr result → 0 < room }
    {
        Ok(Sink {
            bytes: Vec::with_capacity(alloc, room)?,
            meter: Meter::new(plan),
        })
    }

    // Takes at most `most` bytes of a piece, and holds at most `room` bytes. It fails where the
    // plan says so, and where it is full.
    fn write(&mut self, piece: &[u8], most: usize, room: usize) -> Result<usize, Failed>
        requires some { 0 < length piece.now }
        requires most { 0 < most }
        requires room { room ≤ vec_capacity self.old.bytes }
        ensures room { room ≤ vec_capacity self.new.bytes }
        ensures failed { IsErr result ↔
            (Contains self.old.meter.plan.items (one_more self.old.meter.calls)
            ⊎ (room ≤ length self.old.bytes.items)) }
        ensures some { IfOk result (λ n. 0 < n) }
        ensures count { IfOk result (λ n.
            n ≡ count_moved most (length piece.now) (room - length self.old.bytes.items)) }
        ensures bytes { MatchResult result
            (λ n. self.new.bytes.items ≡ self.old.bytes.items ++ take n piece.now)
            (λ _. self.new.bytes.items ≡ self.old.bytes.items) }
        ensures faults { MatchResult result (λ _. self.new.meter.faults ≡ self.old.meter.faults)
            (λ _. self.new.meter.faults ≡ one_more self.old.meter.faults) }
        ensures calls { self.new.meter.calls ≡ one_more self.old.meter.calls }
        ensures plan { self.new.meter.plan ≡ self.old.meter.plan }
    {
        self.meter.call()?;
        if self.bytes.len() >= room {
            return Err(self.meter.fault());
        }
        let count = most.min(piece.len()).min(room - self.bytes.len());
        self.bytes.extend_from_slice(&piece[..count]).unwrap();
        Ok(count)
    }
}

// The bytes from place `at` on, none where that is past the end.
fn bytes_from(bytes: &[u8], at: usize) -> &[u8]
    ensures { result.now ≡ drop at bytes.now }
{
    if at < bytes.len() { &bytes[at..] } else { &[] }
}

// Puts the front of these bytes into a buffer, at most `most` of them.
fn copy_front(from: &[u8], most: usize, buf: &mut [u8]) -> usize
    requires room { 0 < length buf.old }
    requires most { 0 < most }
    ensures bound { result ≤ length buf.new }
    ensures gives { Gives from.now result buf.new }
    ensures count { result ≡ count_moved most (length buf.old) (length from.now) }
{
    let count = most.min(buf.len()).min(from.len());
    buf[..count].copy_from_slice(&from[..count]);
    count
}

/// A host in memory. It tells everything, and answers as its plan says.
#[derive(Drop)]
pub struct MemoryHost {
    files: Vec<(String, Vec<u8>)>,
    file_meter: Meter,
    input: Tape,
    input_meter: Meter,
    moments: Vec<u64>,
    moments_at: usize,
    out: Sink,
    err: Sink,
    report: Sink,
    most: usize,
    room: usize,
    reach: u64,
    drawn: u64,
    ghost some: { 0 < most },
    ghost moments_within: { moments_at ≤ vec_len moments },
    ghost out_room: { room ≤ vec_capacity out.bytes },
    ghost err_room: { room ≤ vec_capacity err.bytes },
    ghost report_room: { room ≤ vec_capacity report.bytes },
}

impl MemoryHost {
    ghost use Rattle.std.specs.Prelude.{Some};
    ghost use Rattle.sp_host.specs.Memory.{files_of, file_named, is_named};
    ghost use Rattle.sp_host.specs.Memory.{memory_told, memory_faults, memory_reach, memory_drawn, memory_of};
    ghost use Rattle.sp_host.specs.Told.{file_of, written_to};
    ghost use Rattle.sp_host.specs.Faults.{no_faults};

    /// A host with these files, this input, these moments and this plan. Of several files with one
    /// name the first counts, and a name that no file has reads as an empty file.
    pub fn new(
        alloc: Global,
        files: Vec<(String, Vec<u8>)>,
        input: Vec<u8>,
        moments: Vec<u64>,
        faults: FaultPlan,
    ) -> Result<MemoryHost, AllocError>
        requires { 0 < faults.most }
        ensures told { IfOk result (λ h. memory_told h ≡ record {
          files = Some (files_of files.items);
          input = Some input.items;
          moments = Some moments.items;
          out = Some [];
          err = Some [];
          report = Some [];
        }) }
        ensures faults { IfOk result (λ h. memory_faults h ≡ no_faults) }
        ensures reach { IfOk result (λ h. memory_reach h ≡ 0) }
        ensures drawn { IfOk result (λ h. memory_drawn h ≡ 0) }
        ensures plan { IfOk result (λ h. memory_of h ≡ record {
          file = record { planned = faults.file.items; made = 0 };
          input = record { planned = faults.input.items; made = 0 };
          out = record { planned = faults.out.items; made = 0 };
          err = record { planned = faults.err.items; made = 0 };
          report = record { planned = faults.report.items; made = 0 };
          most = faults.most;
          room = faults.room;
        }) }
        ensures memory { IsErr result → 0 < faults.room }
    {
        let FaultPlan {
            file,
            input: input_plan,
            out,
            err,
            report,
            most,
            room,
        } = faults;
        Ok(MemoryHost {
            files,
            file_meter: Meter::new(file),
            input: Tape::new(input),
            input_meter: Meter::new(input_plan),
            moments,
            moments_at: 0,
            out: Sink::new(alloc, room, out)?,
            err: Sink::new(alloc, room, err)?,
            report: Sink::new(alloc, room, report)?,
            most,
            room,
            reach: 0,
            drawn: 0,
        })
    }

    // The bytes of the first file of this name.
    fn file(&self, name: &str) -> &[u8]
        ensures { result.now ≡ file_named self.now.files.items name.now }
    {
        for file in &self.files {
            if file.0.as_str() == name {
                return &file.1;
            }
        }
        &[]
    }

    // Whether a file has this name.
    fn is_there(&self, name: &str) -> bool
        ensures { result ≡ is_named self.now.files.items name.now }
    {
        for file in &self.files {
            if file.0.as_str() == name {
                return true;
            }
        }
        false
    }

    // The bytes of a file from byte `at` on.
    fn file_from(&self, name: &str, at: u64) -> &[u8]
        ensures { result.now ≡ drop at (file_of (files_of self.now.files.items) name.now) }
    {
        bytes_from(self.file(name), at as usize)
    }

    /// The bytes that a port holds.
    pub fn written(&self, port: Port) -> &[u8]
        ensures { written_to port (memory_told self.now) ≡ Some result.now }
    {
        match port {
            Port::Out => &self.out.bytes,
            Port::Err => &self.err.bytes,
            Port::Report => &self.report.bytes,
        }
    }
}

impl Host for MemoryHost {
    ghost use Rattle.sp_host.specs.Told.{WhereTold, file_of, has_file, written_to};
    ghost use Rattle.sp_host.specs.Told.{sent, input_taken, moment_taken, drawn_by};
    ghost use Rattle.sp_host.specs.Faults.{Counts};
    ghost use Rattle.sp_host.specs.Faults.Source.{File, Input, To};
    ghost use Rattle.sp_host.specs.Plan.{IsPlanned, IsFull, call_made};
    ghost use Rattle.sp_host.specs.Memory.{memory_told, memory_faults, memory_reach, memory_drawn, memory_of};

    ghost told = { memory_told };

    ghost faults = { memory_faults };

    ghost reach = { memory_reach };

    ghost drawn = { memory_drawn };

    fn read_file(&mut self, name: &str, at: u64, buf: &mut [u8]) -> Result<usize, Failed>
        requires { 0 < length buf.old }
        ensures bound { IfOk result (λ n. n ≤ length buf.new) }
        ensures bytes { IfOk result (λ n. WhereTold (memory_told self.old).files (λ files.
            Gives (drop at (file_of files name.now)) n buf.new)) }
        ensures told { memory_told self.new ≡ memory_told self.old }
        ensures faults { Counts File (memory_faults self.old) (memory_faults self.new) result }
        ensures reach { memory_reach self.new ≤ max (memory_reach self.old) (at + length buf.old) }
        ensures drawn { memory_drawn self.new ≤ memory_drawn self.old + drawn_by result }

        // which calls fail, and how many bytes they move, as the plan says
        ensures failed { IsErr result ↔ IsPlanned File (memory_of self.old) }
        ensures count { IfOk result (λ n. WhereTold (memory_told self.old).files (λ files.
            n ≡ count_moved (memory_of self.old).most (length buf.old)
            (length (drop at (file_of files name.now))))) }
        ensures calls { memory_of self.new ≡ call_made File (memory_of self.old) }

        // it keeps how far it was asked and how much was drawn, up to 2^64 - 1
        ensures reached { memory_reach self.new
            ≡ max (memory_reach self.old) (min (at + length buf.old) (2 ^ 64 - 1)) }
        ensures counted { memory_drawn self.new
            ≡ max (memory_drawn self.old) (min (memory_drawn self.old + drawn_by result) (2 ^ 64 - 1)) }
    {
        self.reach = self.reach.max(at.saturating_add(buf.len() as u64));
        self.file_meter.call()?;
        let most = self.most;
        let count = copy_front(self.file_from(name, at), most, buf);
        self.drawn = self.drawn.saturating_add(count.max(1) as u64);
        Ok(count)
    }

    fn has_file(&mut self, name: &str) -> Result<bool, Failed>
        ensures value { IfOk result (λ found. WhereTold (memory_told self.old).files (λ files.
            found ≡ has_file files name.now)) }
        ensures told { memory_told self.new ≡ memory_told self.old }
        ensures faults { Counts File (memory_faults self.old) (memory_faults self.new) result }
        ensures reach { memory_reach self.new ≤ memory_reach self.old }
        ensures drawn { memory_drawn self.new ≤ memory_drawn self.old }

        // as the plan says
        ensures failed { IsErr result ↔ IsPlanned File (memory_of self.old) }
        ensures calls { memory_of self.new ≡ call_made File (memory_of self.old) }
    {
        self.file_meter.call()?;
        Ok(self.is_there(name))
    }

    fn read_input(&mut self, buf: &mut [u8]) -> Result<usize, Failed>
        requires { 0 < length buf.old }
        ensures bound { IfOk result (λ n. n ≤ length buf.new) }
        ensures bytes { IfOk result (λ n. WhereTold (memory_told self.old).input (λ left.
            Gives left n buf.new)) }
        ensures told { MatchResult result
            (λ n. memory_told self.new ≡ input_taken n (memory_told self.old))
            (λ _. memory_told self.new ≡ memory_told self.old) }
        ensures faults { Counts Input (memory_faults self.old) (memory_faults self.new) result }
        ensures reach { memory_reach self.new ≤ memory_reach self.old }
        ensures drawn { memory_drawn self.new ≤ memory_drawn self.old }

        // as the plan says
        ensures failed { IsErr result ↔ IsPlanned Input (memory_of self.old) }
        ensures count { IfOk result (λ n. WhereTold (memory_told self.old).input (λ left.
            n ≡ count_moved (memory_of self.old).most (length buf.old) (length left))) }
        ensures calls { memory_of self.new ≡ call_made Input (memory_of self.old) }
    {
        self.input_meter.call()?;
        Ok(self.input.take(self.most, buf))
    }

    fn write(&mut self, port: Port, bytes: &[u8]) -> Result<usize, Failed>
        requires { 0 < length bytes.now }
        ensures some { IfOk result (λ n. 0 < n) }
        ensures bound { IfOk result (λ n. n ≤ length bytes.now) }
        ensures told { MatchResult result
            (λ n. memory_told self.new ≡ sent port (take n bytes.now) (memory_told self.old))
            (λ _. memory_told self.new ≡ memory_told self.old) }
        ensures faults { Counts (To port) (memory_faults self.old) (memory_faults self.new) result }
        ensures reach { memory_reach self.new ≤ memory_reach self.old }
        ensures drawn { memory_drawn self.new ≤ memory_drawn self.old }

        // as the plan says
        ensures failed { IsErr result ↔ (IsPlanned (To port) (memory_of self.old)
            ⊎ IsFull port (memory_of self.old) (memory_told self.old)) }
        ensures count { IfOk result (λ n.
            WhereTold (written_to port (memory_told self.old)) (λ held.
            n ≡ count_moved (memory_of self.old).most (length bytes.now)
            ((memory_of self.old).room - length held))) }
        ensures calls { memory_of self.new ≡ call_made (To port) (memory_of self.old) }
    {
        match port {
            Port::Out => self.out.write(bytes, self.most, self.room),
            Port::Err => self.err.write(bytes, self.most, self.room),
            Port::Report => self.report.write(bytes, self.most, self.room),
        }
    }

    fn now(&mut self) -> u64
        ensures value { WhereTold (memory_told self.old).moments (λ left.
            result ≡ slice_index left 0) }
        ensures told { memory_told self.new ≡ moment_taken (memory_told self.old) }
        ensures faults { memory_faults self.new ≡ memory_faults self.old }
        ensures reach { memory_reach self.new ≤ memory_reach self.old }
        ensures drawn { memory_drawn self.new ≤ memory_drawn self.old }
        ensures calls { memory_of self.new ≡ memory_of self.old }
    {
        if self.moments_at < self.moments.len() {
            let moment = self.moments[self.moments_at];
            self.moments_at += 1;
            return moment;
        }
        0
    }
}
