// The words behind a command, split into options and positionals.
ghost use Rattle.std.specs.Prelude.{◌≡◌, ◌≤◌, IfOk, false, length, map, string_bytes};
ghost use Rattle.std.specs.List.{list_any};
ghost use Rattle.std.specs.Str.{bytes_eq};
ghost use Rattle.sp_words.specs.Split.{behind_separator, has_repeat, is_given_twice, names_of, option_count, option_words, positionals};

use crate::word::{is_option, is_separator, name_of, takes_next};
use std::alloc::{AllocError, Global};

// How many words are options and their values.
fn option_count(words: &[String]) -> usize
    ensures value { result ≡ option_count false (map string_bytes words.now) }
    ensures within { result ≤ length words.now }
{
    let mut is_value = false;
    for (at, word) in words.iter().enumerate() {
        let word = word.as_str();
        if is_value {
            is_value = false;
        } else if is_option(word) {
            is_value = takes_next(word);
        } else {
            return at;
        }
    }
    words.len()
}

// The words behind a first `--`, or all where there is none.
fn behind_separator(words: &[String]) -> &[String]
    ensures { map string_bytes result.now ≡ behind_separator (map string_bytes words.now) }
{
    match words {
        [word, rest @ ..] if is_separator(word.as_str()) => rest,
        _ => words,
    }
}

/// The options with their values, and the positionals.
pub(crate) fn split_words(words: &[String]) -> (&[String], &[String])
    ensures options { map string_bytes result.0.now ≡ option_words (map string_bytes words.now) }
    ensures positionals { map string_bytes result.1.now ≡ positionals (map string_bytes words.now) }
{
    let (options, rest) = words.split_at(option_count(words));
    (options, behind_separator(rest))
}

// The names of the options.
fn option_names(alloc: Global, words: &[String]) -> Result<Vec<&str>, AllocError>
    ensures { IfOk result (λ names. map (λ n. n.now) names.items
        ≡ names_of false (map string_bytes words.now)) }
{
    let mut names = Vec::new(alloc);
    let mut is_value = false;
    for word in words {
        let word = word.as_str();
        if is_value {
            is_value = false;
        } else {
            names.push(name_of(word))?;
            is_value = takes_next(word);
        }
    }
    Ok(names)
}

// Whether a name is among others.
fn is_among(name: &str, others: &[&str]) -> bool
    ensures { result ≡ list_any (bytes_eq name.now) (map (λ n. n.now) others.now) }
{
    for other in others {
        if name == *other {
            return true;
        }
    }
    false
}

// Whether a name stands twice.
fn has_repeat(names: &[&str]) -> bool
    ensures { result ≡ has_repeat (map (λ n. n.now) names.now) }
{
    for (at, name) in names.iter().enumerate() {
        if is_among(name, &names[at + 1..]) {
            return true;
        }
    }
    false
}

/// Whether an option is given twice. It fails for want of memory alone.
pub(crate) fn is_given_twice(alloc: Global, words: &[String]) -> Result<bool, AllocError>
    ensures { IfOk result (λ b. b ≡ is_given_twice (map string_bytes words.now)) }
{
    let names = option_names(alloc, words)?;
    Ok(has_repeat(names.as_slice()))
}
