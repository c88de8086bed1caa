// What a word looks like.
ghost use Rattle.std.specs.Prelude.{◌≡◌};
ghost use Rattle.clap.specs.Lexer.{is_long_word};
ghost use Rattle.sp_words.specs.Split.{is_option, is_separator, name_of, takes_next};

/// Whether the word is `--`.
pub(crate) fn is_separator(word: &str) -> bool
    ensures { result ≡ is_separator word.now }
{
    word == "--"
}

/// Whether it is an option word.
pub(crate) fn is_option(word: &str) -> bool
    ensures { result ≡ is_option word.now }
{
    word.starts_with('-') && !is_separator(word)
}

// Whether it begins with `--`, and more follows.
fn is_long(word: &str) -> bool
    ensures { result ≡ is_long_word word.now }
{
    word.starts_with("--") && word != "--"
}

/// Whether the word behind this option is its value.
pub(crate) fn takes_next(word: &str) -> bool
    ensures { result ≡ takes_next word.now }
{
    is_long(word) && word != "--slices" && !word.as_bytes().contains(&b'=')
}

/// The name of an option word: it ends before `=`.
pub(crate) fn name_of(word: &str) -> &str
    ensures { result.now ≡ name_of word.now }
{
    match word.split_once('=') {
        Some((name, _)) => name,
        None => word,
    }
}
