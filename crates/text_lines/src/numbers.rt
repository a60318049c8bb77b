//! Numbers as a text spells them.
ghost use Rattle.std.specs.Prelude.{◌≡◌};
ghost use Rattle.text_lines.specs.Numbers.{number_of};

/// The number that a word spells: 1 to 10 decimal digits, leading zeros allowed, of at most
/// 4,294,967,295. `None` for every other word.
pub fn number(word: &[u8]) -> Option<u32>
    ensures { result ≡ number_of word.now }
{
    if word.is_empty() || word.len() > 10 {
        return None;
    }
    let mut value: u64 = 0;
    for byte in word {
        if !byte.is_ascii_digit() {
            return None;
        }
        value = value * 10 + u64::from(*byte - b'0');
    }
    u32::try_from(value).ok()
}
