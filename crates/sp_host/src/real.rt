// The files, the standard streams and the clock of the system.
ghost use Rattle.std.specs.Prelude.{◌≡◌, ◌<◌, ◌≤◌, length, IfOk};
ghost use Rattle.sp_host.specs.Faults.{Faulted, no_faults};
ghost use Rattle.sp_host.specs.Faults.Source.{To};

use crate::{Failed, Host, Port};
use std::fs::{File, Metadata};
use std::io::{ErrorKind, Read, Seek, SeekFrom};
use std::time::{Clock, SystemTime, UNIX_EPOCH};
use std::{fs, io};

// The longest name, in bytes, that is kept of an open file.
const NAME: usize = 255;

// A file that is open, its name, and the place in it up to which it was read.
#[derive(Drop)]
struct OpenFile {
    name: [u8; NAME],
    // None where the name is too long to be kept
    name_len: Option<usize>,
    file: File,
    at: u64,
}

/// The system. It counts the calls that fail, and tells nothing.
///
/// A file stays open between two reads where the second goes on with the name of the first, until a
/// read meets its end or fails; one that was found by its name stays open, too. Only a regular file
/// is found, and only where the user may read it. A read that goes on where the last one ended does not seek, so a
/// pipe can be read from its start to its end. A call that a signal interrupts is made again, and
/// is no fault.
///
/// [`Port::Out`] is the standard output, and the other two ports are the standard error. The clock
/// answers nanoseconds since 1970, and 0 where it cannot be read or its time does not fit.
#[derive(Drop)]
pub struct StdHost {
    rt: HostRuntime,
    open: Option<OpenFile>,
    file_faults: u64,
    input_faults: u64,
    out_faults: u64,
    err_faults: u64,
    report_faults: u64,
}

impl StdHost {
    ghost use Rattle.sp_host.specs.Real.{real_faults};

    pub fn new(rt: HostRuntime) -> StdHost
        ensures { real_faults result ≡ no_faults }
    {
        StdHost {
            rt,
            open: None,
            file_faults: 0,
            input_faults: 0,
            out_faults: 0,
            err_faults: 0,
            report_faults: 0,
        }
    }

    // Counts a write that failed.
    fn write_failed(&mut self, port: Port) -> Failed
        ensures { Faulted (To port) (real_faults self.old) (real_faults self.new) }
    {
        match port {
            Port::Out => Failed::counted(&mut self.out_faults),
            Port::Err => Failed::counted(&mut self.err_faults),
            Port::Report => Failed::counted(&mut self.report_faults),
        }
    }

    // Reads a file from byte `at` on, in the open file where it has this name. It stays open until
    // its end.
    fn read_open(&mut self, name: &str, at: u64, buf: &mut [u8]) -> io::Result<usize>
        ensures bound { IfOk result (λ n. n ≤ length buf.new) }
        ensures faults { real_faults self.new ≡ real_faults self.old }
    {
        let mut file = match self.open.take() {
            Some(open) if open.is_named(name) => open,
            _ => OpenFile::open(&self.rt, name)?,
        };
        let count = file.read_at(at, buf)?;
        if count > 0 {
            self.open = Some(file);
        }
        Ok(count)
    }

    // Whether there is a regular file of this name; it is opened, and stays so. What is no regular file is not opened:
    // a pipe would wait until something writes to it, and gives its bytes only once.
    fn find(&mut self, name: &str) -> io::Result<bool>
        ensures { real_faults self.new ≡ real_faults self.old }
    {
        if !metadata(&self.rt, name)?.is_file() {
            return Ok(false);
        }
        self.open = Some(OpenFile::open(&self.rt, name)?);
        Ok(true)
    }
}

impl OpenFile {
    fn open(rt: &HostRuntime, name: &str) -> io::Result<OpenFile> {
        let mut open = OpenFile {
            name: [0; NAME],
            name_len: None,
            file: open(rt, name)?,
            at: 0,
        };
        if name.len() <= NAME {
            open.name[..name.len()].copy_from_slice(name.as_bytes());
            open.name_len = Some(name.len());
        }
        Ok(open)
    }

    fn is_named(&self, name: &str) -> bool {
        self.name_len == Some(name.len()) && self.name.starts_with(name.as_bytes())
    }

    // Reads from byte `at` on. Where the last read did not end there, it seeks.
    fn read_at(&mut self, at: u64, buf: &mut [u8]) -> io::Result<usize>
        ensures { IfOk result (λ n. n ≤ length buf.new) }
    {
        if at != self.at {
            self.file.seek(SeekFrom::Start(at))?;
        }
        let count = read(&mut self.file, buf)?;
        self.at = at.saturating_add(count as u64);
        Ok(count)
    }
}

// Whether a signal interrupted the call.
fn is_interrupted<T>(call: &io::Result<T>) -> bool {
    match call {
        Ok(_) => false,
        Err(e) => e.kind() == ErrorKind::Interrupted,
    }
}

// Opens a file to read it, again where a signal interrupts that.
fn open(rt: &HostRuntime, name: &str) -> io::Result<File> {
    for _ in 0..u64::MAX {
        let opened = fs::open(rt, name);
        if !is_interrupted(&opened) {
            return opened;
        }
    }
    Err(ErrorKind::Interrupted.into())
}

// What the system says of a file, again where a signal interrupts that.
fn metadata(rt: &HostRuntime, name: &str) -> io::Result<Metadata> {
    for _ in 0..u64::MAX {
        let known = fs::metadata(rt, name);
        if !is_interrupted(&known) {
            return known;
        }
    }
    Err(ErrorKind::Interrupted.into())
}

// Whether the reason is that no file of the name is there to be read: there is none, the path leads through something that
// is no folder, or the user may not read it.
fn is_absence(reason: &io::Error) -> bool {
    match reason.kind() {
        ErrorKind::NotFound | ErrorKind::NotADirectory | ErrorKind::PermissionDenied => true,
        _ => false,
    }
}

// Reads once, again where a signal interrupts that.
fn read<R: Read>(reader: &mut R, buf: &mut [u8]) -> io::Result<usize>
    ensures { IfOk result (λ n. n ≤ length buf.new) }
{
    for _ in 0..u64::MAX {
        let taken = reader.read(buf);
        if !is_interrupted(&taken) {
            return taken;
        }
    }
    Err(ErrorKind::Interrupted.into())
}

// Writes once, again where a signal interrupts that.
fn write<P: Print>(stream: &P, bytes: &[u8]) -> io::Result<usize>
    ensures { IfOk result (λ n. n ≤ length bytes.now) }
{
    for _ in 0..u64::MAX {
        let taken = stream.write_some(bytes);
        if !is_interrupted(&taken) {
            return taken;
        }
    }
    Err(ErrorKind::Interrupted.into())
}

// The time of the system's clock in nanoseconds, where it can be read and fits.
fn nanos_since_1970(rt: &impl Clock) -> Option<u64> {
    let time = SystemTime::now(rt).ok()?;
    let passed = time.duration_since(UNIX_EPOCH).ok()?;
    u64::try_from(passed.as_nanos()).ok()
}

impl Host for StdHost {
    ghost use Rattle.sp_host.specs.Real.{nothing_told, real_faults};

    ghost told = { λ _. nothing_told };

    ghost faults = { real_faults };

    ghost reach = { λ _. 0 };

    ghost drawn = { λ _. 0 };

    fn read_file(&mut self, name: &str, at: u64, buf: &mut [u8]) -> Result<usize, Failed> {
        match self.read_open(name, at, buf) {
            Ok(n) => Ok(n),
            Err(_) => Err(Failed::counted(&mut self.file_faults)),
        }
    }

    fn has_file(&mut self, name: &str) -> Result<bool, Failed> {
        match self.find(name) {
            Ok(found) => Ok(found),
            Err(reason) => {
                if is_absence(&reason) {
                    return Ok(false);
                }
                Err(Failed::counted(&mut self.file_faults))
            }
        }
    }

    fn read_input(&mut self, buf: &mut [u8]) -> Result<usize, Failed> {
        match read(&mut self.rt.stdin().lock(), buf) {
            Ok(n) => Ok(n),
            Err(_) => Err(Failed::counted(&mut self.input_faults)),
        }
    }

    // A stream that takes nothing failed too.
    fn write(&mut self, port: Port, bytes: &[u8]) -> Result<usize, Failed> {
        let taken = match port {
            Port::Out => write(&self.rt.stdout(), bytes),
            Port::Err | Port::Report => write(&self.rt.stderr(), bytes),
        };
        match taken {
            Ok(n) if n > 0 => Ok(n),
            _ => Err(self.write_failed(port)),
        }
    }

    fn now(&mut self) -> u64 {
        nanos_since_1970(&self.rt).unwrap_or(0)
    }
}
