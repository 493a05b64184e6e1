//! The words of a line.
ghost use Rattle.std.specs.Prelude.{◌≡◌, ◌≤◌, ◌==◌, length, MatchOption, [], ◌∷◌};
ghost use Rattle.std.specs.List.{prefix_len};
ghost use Rattle.vax_lines.specs.Words.{is_trimmed, is_word_byte, words};

/// How many spaces stand in front.
fn space_len(text: &[u8]) -> usize
    ensures count { result ≡ prefix_len (λ c. c == 32) text.now }
    ensures within { result ≤ length text.now }
{
    for (i, byte) in text.iter().enumerate() {
        if *byte != b' ' {
            return i;
        }
    }
    text.len()
}

/// How many bytes of a word stand in front.
fn word_len(text: &[u8]) -> usize
    ensures count { result ≡ prefix_len is_word_byte text.now }
    ensures within { result ≤ length text.now }
{
    for (i, byte) in text.iter().enumerate() {
        if *byte == b' ' {
            return i;
        }
    }
    text.len()
}

/// The first word, and what stands behind it.
pub fn next_word<'a>(text: &'a [u8]) -> Option<(&'a [u8], &'a [u8])>
    ensures { MatchOption result (words text.entry.now ≡ [])
        (λ r. words text.entry.now ≡ r.0.now ∷ words r.1.now) }
{
    let text = text.split_at(space_len(text)).1;
    if text.is_empty() {
        return None;
    }
    let (word, rest) = text.split_at(word_len(text));
    Some((word, rest))
}

/// It begins and ends with a byte that is no space.
pub fn is_trimmed(line: &[u8]) -> bool
    ensures { result ≡ is_trimmed line.now }
{
    line.first() != Some(&b' ') && line.last() != Some(&b' ')
}
