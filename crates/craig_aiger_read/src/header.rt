//! The header of a text.
ghost use Rattle.std.specs.Prelude.{◌≡◌, ◌<◌, ◌≤◌, ℕ, ◌==◌, All, length, slice_index};
ghost use Rattle.std.specs.List.{list_all};
ghost use Rattle.std.specs.Str.{bytes_eq};
ghost use Rattle.craig_spec.specs.AigerBinary.{begins_binary, binary_header_in, binary_header_of};
ghost use Rattle.craig_spec.specs.AigerReading.{counts_checked, header_in, header_of, numbers_in};
ghost use Rattle.craig_aiger_read.specs.ReadFaults.{IsReadAs};
ghost use Rattle.craig_aiger_read.specs.ReadViews.{as_counts};

use crate::AigerError;
use crate::counts::Counts;
use crate::line_numbers::numbers_of;

/// The header that the first line is.
#[tactic(auto, unfolding(craig_spec::specs::AigerReading::header_in))]
pub(crate) fn header_of(line: &[u8]) -> Result<Counts, AigerError>
    ensures { IsReadAs as_counts result (header_in (record { offset = 0; bytes = line.now })) }
{
    let (letters, rest) = line.split_at(line.len().min(4));
    if !are_letters(letters, b"aag ") {
        return Err(AigerError::Header { place: 0 });
    }
    let Some(numbers) = numbers_of(rest) else {
        return Err(AigerError::Header { place: 0 });
    };
    counts_of(numbers.as_slice())
}

/// Whether the bytes begin as a binary text.
pub(crate) fn is_binary(bytes: &[u8]) -> bool
    ensures { result ≡ begins_binary bytes.now }
{
    let (letters, _) = bytes.split_at(bytes.len().min(4));
    are_letters(letters, b"aig ")
}

/// The header of a binary text that the first line is.
#[tactic(auto, unfolding(craig_spec::specs::AigerBinary::binary_header_in))]
pub(crate) fn binary_header_of(line: &[u8]) -> Result<Counts, AigerError>
    ensures { IsReadAs as_counts result (binary_header_in (record { offset = 0; bytes = line.now })) }
{
    let (letters, rest) = line.split_at(line.len().min(4));
    if !are_letters(letters, b"aig ") {
        return Err(AigerError::Header { place: 0 });
    }
    let Some(numbers) = numbers_of(rest) else {
        return Err(AigerError::Header { place: 0 });
    };
    exact_counts_of(numbers.as_slice())
}

/// The header with these numbers, where no variable is left over.
fn exact_counts_of(numbers: &[u64]) -> Result<Counts, AigerError>
    requires small { All (λ n. n < 1000000000000000000) numbers.now }
    ensures { IsReadAs as_counts result (binary_header_of 0 (Some numbers.now)) }
{
    if numbers.len() < 5 {
        return Err(AigerError::Header { place: 0 });
    }
    if numbers[0] != numbers[1] + numbers[2] + numbers[4] {
        return Err(AigerError::Count { place: 0 });
    }
    counts_of(numbers)
}

/// Whether the letters are these.
fn are_letters(letters: &[u8], word: &[u8]) -> bool
    ensures { result ≡ bytes_eq letters.now word.now }
{
    letters == word
}

/// The header with these numbers.
fn counts_of(numbers: &[u64]) -> Result<Counts, AigerError>
    requires small { All (λ n. n < 1000000000000000000) numbers.now }
    ensures { IsReadAs as_counts result (header_of 0 (Some numbers.now)) }
{
    if numbers.len() < 5 {
        return Err(AigerError::Header { place: 0 });
    }
    let greatest = numbers[0];
    let inputs = numbers[1];
    let latches = numbers[2];
    let gates = numbers[4];
    if inputs + latches + gates > greatest {
        return Err(AigerError::Count { place: 0 });
    }
    let (_, others) = numbers.split_at(numbers.len().min(6));
    if !are_zero(others) {
        return Err(AigerError::Unsupported { place: 0 });
    }
    Ok(Counts {
        greatest,
        inputs,
        latches,
        outputs: numbers[3],
        gates,
        bads: numbers.get(5).copied().unwrap_or(0),
    })
}

/// Whether each number is 0.
fn are_zero(numbers: &[u64]) -> bool
    ensures { result ≡ list_all (λ n. n == 0) numbers.now }
{
    numbers.iter().all(|number| *number == 0)
}
