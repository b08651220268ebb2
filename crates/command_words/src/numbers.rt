// Numbers in words.
ghost use Rattle.std.specs.Prelude.{◌≡◌};
ghost use Rattle.std.specs.List.{list_all};
ghost use Rattle.std.specs.Char.{is_ascii_digit};
ghost use Rattle.std.specs.Str.{chars};
ghost use Rattle.command_words.specs.Words.{number as number_of};

fn all_digits(text: &str) -> bool
    ensures { result ≡ list_all is_ascii_digit text.now }
{
    text.bytes().all(|byte| byte.is_ascii_digit())
}

/// The number of at most `most` that one to ten digits write. Zeros may lead, and a sign is none.
pub(crate) fn number(text: &str, most: u64) -> Option<u64>
    ensures { result ≡ number_of most (chars text.now) }
{
    if text.len() > 10 || !all_digits(text) {
        return None;
    }
    let number = text.parse::<u64>().ok()?;
    if number > most { None } else { Some(number) }
}
