// What the value of an option means.
ghost use Rattle.std.specs.Prelude.{◌≡◌, ◌≤◌, IfSome, option_map, true};
ghost use Rattle.std.specs.List.{list_all};
ghost use Rattle.clap.specs.Lexer.{is_digit};
ghost use Rattle.sp_words.specs.Sizes.{has_sizes};
ghost use Rattle.sp_words.specs.Value.{by_named, cache_named, cache_sized, cache_with, cut_at_colon, has_needless_zero, is_decimal, number_in, tool_named};

use crate::asked::{By, ToolName};
use cache_tool::{is_line, is_sets};

// Whether each byte is a decimal digit.
fn are_digits(bytes: &[u8]) -> bool
    ensures { result ≡ list_all is_digit bytes.now }
{
    for byte in bytes {
        if *byte < b'0' || *byte > b'9' {
            return false;
        }
    }
    true
}

// Whether the first of several digits is 0.
fn has_needless_zero(bytes: &[u8]) -> bool
    ensures { result ≡ has_needless_zero bytes.now }
{
    bytes.len() > 1 && bytes[0] == b'0'
}

// Whether the text is a number, as it is written.
fn is_decimal(text: &str) -> bool
    ensures { result ≡ is_decimal text.now }
{
    let bytes = text.as_bytes();
    !bytes.is_empty() && are_digits(bytes) && !has_needless_zero(bytes)
}

/// The number that the text writes, if it lies from `least` to `most`.
pub(crate) fn number_in(text: &str, least: u64, most: u64) -> Option<u64>
    ensures value { result ≡ number_in least most text.now }
    ensures least { IfSome result (λ n. least ≤ n) }
    ensures most { IfSome result (λ n. n ≤ most) }
{
    if !is_decimal(text) {
        return None;
    }
    match text.parse::<u64>() {
        Ok(number) => {
            if least <= number && number <= most {
                Some(number)
            } else {
                None
            }
        }
        Err(_) => None,
    }
}

/// How a run is to be done.
pub(crate) fn by_named(text: &str) -> Option<By>
    ensures { result ≡ by_named text.now }
{
    if text == "serial" {
        Some(By::Serial)
    } else if text == "windows" {
        Some(By::Windows)
    } else {
        None
    }
}

// What stands before the first colon, and behind it.
fn cut_at_colon(text: &str) -> (&str, Option<&str>)
    ensures { (result.0.now, option_map (λ s. s.now) result.1) ≡ cut_at_colon text.now }
{
    match text.split_once(':') {
        Some((front, back)) => (front, Some(back)),
        None => (text, None),
    }
}

// A cache of these sizes, if one may have them.
fn cache_with(sets: Option<u64>, line: Option<u64>) -> Option<ToolName>
    requires sets { IfSome sets (λ n. n ≤ 4096) }
    requires line { IfSome line (λ n. n ≤ 4096) }
    ensures value { result ≡ cache_with sets line }
    ensures sizes { IfSome result (λ tool. has_sizes tool ≡ true) }
{
    match (sets, line) {
        (Some(sets), Some(line)) => {
            let (sets, line) = (sets as u32, line as u32);
            if is_sets(sets) && is_line(line) {
                Some(ToolName::Cache { sets, line })
            } else {
                None
            }
        }
        _ => None,
    }
}

// The cache of `S:B`.
fn cache_sized(text: &str) -> Option<ToolName>
    ensures value { result ≡ cache_sized (cut_at_colon text.now) }
    ensures sizes { IfSome result (λ tool. has_sizes tool ≡ true) }
{
    let (sets, line) = cut_at_colon(text);
    match line {
        Some(line) => cache_with(number_in(sets, 1, 4096), number_in(line, 4, 4096)),
        None => None,
    }
}

// The cache of `cache:S:B`.
fn cache_named(text: &str) -> Option<ToolName>
    ensures value { result ≡ cache_named (cut_at_colon text.now) }
    ensures sizes { IfSome result (λ tool. has_sizes tool ≡ true) }
{
    let (name, sizes) = cut_at_colon(text);
    match sizes {
        Some(sizes) if name == "cache" => cache_sized(sizes),
        _ => None,
    }
}

/// The tool that the text names.
pub(crate) fn tool_named(text: &str) -> Option<ToolName>
    ensures value { result ≡ tool_named text.now }
    ensures sizes { IfSome result (λ tool. has_sizes tool ≡ true) }
{
    match text {
        "icount" => Some(ToolName::Icount),
        "bcount" => Some(ToolName::Bcount),
        "mix" => Some(ToolName::Mix),
        "blocks" => Some(ToolName::Blocks),
        "calls" => Some(ToolName::Calls),
        "cache" => Some(ToolName::Cache { sets: 64, line: 32 }),
        _ => cache_named(text),
    }
}
