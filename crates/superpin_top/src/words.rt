// From what words ask for to what the parts are given.
ghost use Rattle.std.specs.Prelude.{◌≡◌, ◌∷◌, [], List, ℕ, IfOk, map, string_bytes};
ghost use Rattle.superpin_top.specs.Causes.{refusal_of_words};

use sp_report::Refusal;
use sp_words::{Arguments, FileName, WordFault};
use std::alloc::{AllocError, Global};

/// The refusal of a fault of the words.
pub fn refusal_of_words(fault: WordFault) -> Refusal
    ensures { result ≡ refusal_of_words fault }
{
    match fault {
        WordFault::Usage(kind) => Refusal::Usage(kind),
        WordFault::NoMemory => Refusal::NoMemory,
    }
}

/// The strings that a program gets: the name of its file, and its arguments.
pub(crate) fn strings_of(
    alloc: Global,
    file: FileName,
    args: Arguments,
) -> Result<Vec<String>, AllocError>
    ensures { IfOk result (λ strings. map string_bytes strings.items ≡ file ∷ args) }
{
    let mut strings = Vec::new(alloc);
    strings.push(file.into_string())?;
    for word in args.into_vec() {
        strings.push(word)?;
    }
    Ok(strings)
}
