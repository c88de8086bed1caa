// The text of a file's code.
ghost use Rattle.std.specs.Prelude.{◌≡◌, ◌≤◌, [], IfErr, IfOk, None, length};
ghost use Rattle.sp_report.specs.View.{view_text};
ghost use Rattle.sp_host.specs.Told.{WhereTold, file_of};
ghost use Rattle.sp_host.specs.Whole.{most_file};
ghost use Rattle.master_run.specs.Answers.{PacerState};
ghost use Rattle.superpin_top.specs.Causes.{HasCause, cause_of};
ghost use Rattle.superpin_top.specs.Due.{view_task};
ghost use Rattle.superpin_top.specs.Outcome.{AttemptGives, IsDecided, WhereAllTold};
ghost use Rattle.superpin_top.specs.Top.{IsPastWords, TextGives};

use crate::engine::Done;
use crate::file::{load_image, read_program};
use crate::show::show;
use elf_load::Image;
use ins_views::Views;
use sp_host::Host;
use sp_report::{Refusal, view_text};
use std::alloc::{AllocError, Global};

// The text of an image's code.
fn image_text(alloc: Global, image: &Image) -> Result<Vec<u8>, AllocError>
    ensures { IfOk result (λ text. text.items ≡ view_text image.now) }
{
    let views = Views::new(alloc, image)?;
    view_text(alloc, image, &views)
}

// The text of the code of a file, which is not too large.
fn file_text(alloc: Global, file: &[u8]) -> Result<Vec<u8>, Refusal>
    requires { length file.now ≤ most_file }
    ensures text { TextGives (view_task file.now) result }
    ensures cause { IfErr result (λ e. cause_of e ≡ None) }
    ensures past { IfErr result IsPastWords }
{
    let image = match load_image(alloc, file) {
        Ok(image) => image,
        Err(refusal) => return Err(refusal),
    };
    match image_text(alloc, &image) {
        Ok(text) => Ok(text),
        Err(_) => Err(Refusal::NoMemory),
    }
}

// The text of the code of the file of this name.
fn text_asked<H: Host>(alloc: Global, name: &str, host: &mut H) -> Result<Vec<u8>, Refusal>
    ensures told { H.told host.new ≡ H.told host.old }
    ensures text { WhereTold (H.told host.old).files
        (λ files. TextGives (view_task (file_of files name.now)) result) }
    ensures faults { HasCause (H.faults host.old) (H.faults host.new) result }
    ensures past { IfErr result IsPastWords }
{
    let file = match read_program(alloc, host, name) {
        Ok(file) => file,
        Err(refusal) => return Err(refusal),
    };
    file_text(alloc, &file)
}

/// Writes the text of the code of the file of this name to the standard output. All of it is made
/// before its first byte is written.
pub(crate) fn view_asked<H: Host>(alloc: Global, name: &str, host: &mut H) -> Result<Done, Refusal>
    ensures early { WhereTold (H.told host.old).files
        (λ files. IsDecided (view_task (file_of files name.now)) result) }
    ensures told { (pacer : PacerState) → WhereAllTold (H.told host.old) (λ files w. AttemptGives (H.told host.old)
        (view_task (file_of files name.now)) w pacer result (H.told host.new) pacer) }
    ensures faults { HasCause (H.faults host.old) (H.faults host.new) result }
    ensures past { IfErr result IsPastWords }
    ensures uncut { IfOk result (λ done. done.cuts ≡ []) }
{
    let text = match text_asked(alloc, name, host) {
        Ok(text) => text,
        Err(refusal) => return Err(refusal),
    };
    show(alloc, &text, host)
}
