// The file that is asked for.
ghost use Rattle.std.specs.Prelude.{◌≡◌, ◌≤◌, None, IfErr, IfOk, length};
ghost use Rattle.sp_host.specs.Told.{WhereTold, file_of};
ghost use Rattle.sp_host.specs.Whole.{most_file};
ghost use Rattle.superpin_top.specs.Causes.{HasCause, cause_of, refusal_of_read};
ghost use Rattle.superpin_top.specs.Top.{ImageGives, IsPastWords, ReadGives};

use elf_load::{ElfFault, Image, load};
use sp_host::{Host, ReadFault, read_whole};
use sp_report::Refusal;
use std::alloc::Global;

// The refusal of a fault of the file.
fn refusal_of_read(fault: ReadFault) -> Refusal
    ensures { result ≡ refusal_of_read fault }
{
    match fault {
        ReadFault::FileFault => Refusal::FileFault,
        ReadFault::FileTooLarge => Refusal::FileTooLarge,
        ReadFault::NoMemory => Refusal::NoMemory,
    }
}

/// The bytes of a file, if they are few enough.
pub(crate) fn read_program<H: Host>(
    alloc: Global,
    host: &mut H,
    name: &str,
) -> Result<Vec<u8>, Refusal>
    ensures told { H.told host.new ≡ H.told host.old }
    ensures size { IfOk result (λ bytes. length bytes.items ≤ most_file) }
    ensures bytes { WhereTold (H.told host.old).files
        (λ files. ReadGives (file_of files name.now) result) }
    ensures faults { HasCause (H.faults host.old) (H.faults host.new) result }
    ensures past { IfErr result IsPastWords }
{
    match read_whole(alloc, host, name) {
        Ok(file) => Ok(file),
        Err(fault) => Err(refusal_of_read(fault)),
    }
}

/// The image of a file.
pub(crate) fn load_image(alloc: Global, file: &[u8]) -> Result<Image, Refusal>
    ensures image { ImageGives file.now result }
    ensures cause { IfErr result (λ e. cause_of e ≡ None) }
    ensures past { IfErr result IsPastWords }
{
    match load(alloc, file) {
        Ok(image) => Ok(image),
        Err(ElfFault::NoMemory) => Err(Refusal::NoMemory),
        Err(fault) => Err(Refusal::Elf(fault)),
    }
}
