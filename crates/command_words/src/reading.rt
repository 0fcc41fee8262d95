// What `clap` doesn't refuse by itself.
ghost use Rattle.std.specs.Prelude.{◌≡◌};
ghost use Rattle.command_words.specs.Reading.{has_short, is_short, texts};

// A hyphen, alone or before something else than a hyphen. `clap` takes a lone one for a positional.
fn begins_short(word: &str) -> bool
    ensures { result ≡ is_short word.now }
{
    match word.as_bytes() {
        [b'-', b'-', ..] => false,
        [b'-', ..] => true,
        _ => false,
    }
}

/// Such a word stands before the first `--`.
pub fn any_short(words: &[String]) -> bool
    ensures { result ≡ has_short (texts words.now) }
{
    for word in words {
        if word.as_str() == "--" {
            return false;
        }
        if begins_short(word) {
            return true;
        }
    }
    false
}
