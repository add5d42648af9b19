//! Bytes cut at the first separator.
ghost use Rattle.std.specs.Prelude.{◌≡◌, ◌≤◌, length, option_copied};
ghost use Rattle.std.specs.List.{before_first, position, position_or_len};
ghost use Rattle.craig_aiger_read.specs.Cuts.{behind_first, is_byte};

/// What stands before the first such byte, and what stands behind it, if there is one.
pub(crate) fn cut_at(bytes: &[u8], separator: u8) -> (&[u8], Option<&[u8]>)
    ensures front { result.0.now ≡ before_first (is_byte separator) bytes.now }
    ensures behind { option_copied result.1 ≡ behind_first separator bytes.now }
{
    let (front, rest) = bytes.split_at(separator_place(bytes, separator));
    match rest.split_first() {
        Some((_, behind)) => (front, Some(behind)),
        None => (front, None),
    }
}

/// Where the first such byte stands, or else the end.
fn separator_place(bytes: &[u8], separator: u8) -> usize
    ensures place { result ≡ position_or_len (is_byte separator) bytes.now }
    ensures within { result ≤ length bytes.now }
{
    first_place(bytes, separator).unwrap_or(bytes.len())
}

/// Where the first such byte stands.
fn first_place(bytes: &[u8], separator: u8) -> Option<usize>
    ensures { result ≡ position (is_byte separator) bytes.now }
{
    bytes.iter().position(|byte| *byte == separator)
}
