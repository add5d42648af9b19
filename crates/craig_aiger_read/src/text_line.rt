//! The lines of a text, one after the other.
ghost use Rattle.std.specs.Prelude.{◌≡◌, [], IfNone, IfOk, IfErr, IfSome};
ghost use Rattle.craig_aiger_read.specs.ReadLines.{IsFirstLine};

use crate::AigerError;
use crate::cut::cut_at;

/// The first line, without its newline, and what is behind it.
#[tactic(none)]
pub(crate) fn next_line(text: &[u8]) -> Option<(&[u8], &[u8])>
    ensures none { IfNone result (text.now ≡ []) }
    ensures some { IfSome result (λ cut. IsFirstLine text.now cut.0.now cut.1.now) }
{
    if text.is_empty() {
        return None;
    }
    let (line, behind) = cut_at(text, b'\n');
    Some((line, behind.unwrap_or(b"")))
}

/// The first line and what is behind it, where the header counts one more. The text has so many bytes.
pub(crate) fn take_line(end: u64, text: &[u8]) -> Result<(&[u8], &[u8]), AigerError>
    ensures ok { IfOk result (λ cut. IsFirstLine text.now cut.0.now cut.1.now) }
    ensures err { IfErr result (λ e. (e ≡ AigerError.Truncated end) × (text.now ≡ [])) }
{
    match next_line(text) {
        Some(cut) => Ok(cut),
        None => Err(AigerError::Truncated { place: end }),
    }
}
