// Whole pieces and whole files.
ghost use Rattle.std.specs.Prelude.{◌≡◌, ℕ, ◌<◌, ◌≤◌, ◌+◌, ◌^◌, max, length, vec_len, false};
ghost use Rattle.std.specs.Prelude.{MatchResult, IfOk, IfErr, IsTrue};
ghost use Rattle.sp_host.specs.Told.{sent, PartSent, WhereTold, file_of};
ghost use Rattle.sp_host.specs.Faults.{Counts, CausedIn};
ghost use Rattle.sp_host.specs.Faults.Source.{To};
ghost use Rattle.sp_host.specs.Whole.{most_file, fault_source, FaultFits, IsFront, drawn_whole};
ghost use Rattle.sp_host.specs.declared.whole.ReadFault.TheVariants.{FileFault, NoMemory};

use crate::{Failed, Host, Port};
use std::alloc::{AllocError, Global};

/// The most bytes that a file may have for [`read_whole`].
pub const MAX_FILE: usize = 33_554_432;

const PIECE: usize = 8192;

/// Why a file wasn't read whole.
#[derive(Clone, Copy, Debug, PartialEq, Eq)]
pub enum ReadFault {
    /// A read failed, and the host counted it.
    FileFault,
    /// The file has more bytes than it may.
    FileTooLarge,
    /// There is no memory for the bytes of the file.
    NoMemory,
}

impl From<Failed> for ReadFault {
    ghost from_gives = { λ _ e. e ≡ FileFault };

    fn from(_: Failed) -> Self {
        ReadFault::FileFault
    }
}

impl From<AllocError> for ReadFault {
    ghost from_gives = { λ _ e. e ≡ NoMemory };

    fn from(_: AllocError) -> Self {
        ReadFault::NoMemory
    }
}

/// Writes all the bytes, or a part of them and then answers `Failed`. It takes no memory.
#[tactic(auto, using(crate::proofs::Told::sent_none, crate::proofs::Told::sent_next))]
pub fn write_whole<H: Host>(host: &mut H, port: Port, bytes: &[u8]) -> Result<(), Failed>
    ensures told { MatchResult result (λ _. H.told host.new ≡ sent port bytes.now (H.told host.old))
        (λ _. PartSent port bytes.now (H.told host.old) (H.told host.new)) }
    ensures faults { Counts (To port) (H.faults host.old) (H.faults host.new) result }
    ensures reach { H.reach host.new ≤ H.reach host.old }
{
    let mut at = 0;
    while at < bytes.len() {
        at += host.write(port, &bytes[at..])?;
    }
    Ok(())
}

/// All the bytes of a file that has at most [`MAX_FILE`] of them. It asks for one byte more at
/// most, for no byte again that a read gave, and not again once a read gave none.
pub fn read_whole<H: Host>(alloc: Global, host: &mut H, name: &str) -> Result<Vec<u8>, ReadFault>
    ensures size { IfOk result (λ v. vec_len v ≤ most_file) }
    ensures bytes { WhereTold (H.told host.old).files (λ files.
        MatchResult result (λ v. v.items ≡ file_of files name.now)
        (λ e. FaultFits e most_file (length (file_of files name.now)))) }
    ensures told { H.told host.new ≡ H.told host.old }
    ensures faults { CausedIn fault_source (H.faults host.old) (H.faults host.new) result }
    ensures reach { H.reach host.new ≤ max (H.reach host.old) (most_file + 1) }
    ensures drawn { H.drawn host.new ≤ H.drawn host.old + drawn_whole most_file result }
{
    read_within(alloc, host, name, MAX_FILE)
}

/// All the bytes of a file that has at most `most` of them.
///
/// It reads until a read gives no byte, or until it has read byte `most + 1`, and then answers
/// `FileTooLarge`.
pub fn read_within<H: Host>(
    alloc: Global,
    host: &mut H,
    name: &str,
    most: usize,
) -> Result<Vec<u8>, ReadFault>
    requires { most < 2 ^ 63 }
    ensures size { IfOk result (λ v. vec_len v ≤ most) }
    ensures bytes { WhereTold (H.told host.old).files (λ files.
        MatchResult result (λ v. v.items ≡ file_of files name.now)
        (λ e. FaultFits e most (length (file_of files name.now)))) }
    ensures told { H.told host.new ≡ H.told host.old }
    ensures faults { CausedIn fault_source (H.faults host.old) (H.faults host.new) result }
    ensures reach { H.reach host.new ≤ max (H.reach host.old) (most + 1) }
    ensures drawn { H.drawn host.new ≤ H.drawn host.old + drawn_whole most result }
{
    let mut bytes = Vec::new(alloc);
    let mut buf = [0u8; PIECE];
    'pieces: while bytes.len() <= most {
        let room = (most + 1 - bytes.len()).min(PIECE);
        if !read_piece(host, name, &mut buf[..room], &mut bytes)? {
            return Ok(bytes);
        }
    }
    Err(ReadFault::FileTooLarge)
}

// Reads a piece of a file into a buffer and from there behind the bytes so far, and answers whether
// there was one.
fn read_piece<H: Host>(
    host: &mut H,
    name: &str,
    buf: &mut [u8],
    bytes: &mut Vec<u8>,
) -> Result<bool, ReadFault>
    requires { 0 < length buf.old }
    ensures size { vec_len bytes.new ≤ vec_len bytes.old + length buf.old }
    ensures longer { IfOk result (λ more. IsTrue more → vec_len bytes.old < vec_len bytes.new) }
    ensures none { IfOk result (λ more. more ≡ false → vec_len bytes.new ≡ vec_len bytes.old) }
    ensures bytes { WhereTold (H.told host.old).files (λ files. IfOk result (λ more.
        IsFront bytes.old.items (file_of files name.now)
        → IsFront bytes.new.items (file_of files name.now))) }
    ensures end { WhereTold (H.told host.old).files (λ files. IfOk result (λ more.
        IsFront bytes.old.items (file_of files name.now) → more ≡ false
        → bytes.new.items ≡ file_of files name.now)) }
    ensures fits { WhereTold (H.told host.old).files (λ files. IfErr result (λ e.
        (most : ℕ) → FaultFits e most (length (file_of files name.now)))) }
    ensures told { H.told host.new ≡ H.told host.old }
    ensures faults { CausedIn fault_source (H.faults host.old) (H.faults host.new) result }
    ensures reach { H.reach host.new ≤ max (H.reach host.old) (vec_len bytes.old + length buf.old) }
    ensures drawn { MatchResult result
        (λ more. (IsTrue more → H.drawn host.new + vec_len bytes.old ≤ H.drawn host.old + vec_len bytes.new)
        × (more ≡ false → H.drawn host.new ≤ H.drawn host.old + 1))
        (λ _. H.drawn host.new ≤ H.drawn host.old + length buf.old) }
{
    let count = host.read_file(name, bytes.len() as u64, buf)?;
    bytes.extend_from_slice(&buf[..count])?;
    Ok(count > 0)
}
