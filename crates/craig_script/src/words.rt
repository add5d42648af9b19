//! The words of a line, one after the other.

ghost use Rattle.std.specs.Prelude.{◌≡◌, ◌<◌, ◌≤◌, [], ◌∷◌, length, not, IfNone, IfSome};
ghost use Rattle.std.specs.List.{position, position_or_len};
ghost use Rattle.craig_script.specs.Words.{is_separator, words};

/// The first word, and what is behind it.
pub fn next_word(line: &[u8]) -> Option<(&[u8], &[u8])>
    ensures none { IfNone result (words line.now ≡ []) }
    ensures some { IfSome result (λ cut. words line.now ≡ cut.0.now ∷ words cut.1.now) }
    ensures shorter { IfSome result (λ cut. length cut.1.now < length line.now) }
{
    let start = word_start(line)?;
    let (_, from) = line.split_at(start);
    Some(from.split_at(word_end(from)))
}

/// Where the first word begins.
fn word_start(line: &[u8]) -> Option<usize>
    ensures { result ≡ position (λ byte. not (is_separator byte)) line.now }
{
    line.iter().position(|byte| !separates(*byte))
}

/// Where the first separator stands, or else the end.
fn word_end(line: &[u8]) -> usize
    ensures place { result ≡ position_or_len is_separator line.now }
    ensures within { result ≤ length line.now }
{
    separator_position(line).unwrap_or(line.len())
}

/// Where the first separator stands.
fn separator_position(line: &[u8]) -> Option<usize>
    ensures { result ≡ position is_separator line.now }
{
    line.iter().position(|byte| separates(*byte))
}

/// Whether the byte separates words.
fn separates(byte: u8) -> bool
    ensures { result ≡ is_separator byte }
{
    matches!(byte, b' ' | b'\t' | b'\r')
}
