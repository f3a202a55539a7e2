//! Options, which no command has.

ghost use Rattle.std.specs.Prelude.{◌≡◌, map, string_bytes};
ghost use Rattle.std.specs.List.{list_any};
ghost use Rattle.xet_arguments.specs.Arguments.{is_option};

/// Whether a word begins with `-`.
pub fn has_option(words: &[String]) -> bool
    ensures { result ≡ list_any is_option (map string_bytes words.now) }
{
    words.iter().any(|word| is_option(word.as_str()))
}

fn is_option(word: &str) -> bool
    ensures { result ≡ is_option word.now }
{
    matches!(word.as_bytes(), [b'-', ..])
}
