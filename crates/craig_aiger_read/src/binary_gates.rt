//! The gates of a binary text.
ghost use Rattle.std.specs.Prelude.{◌≡◌, ◌+◌, ◌*◌, ◌≤◌, [], length, map, IfOk};
ghost use Rattle.craig_spec.specs.AigerBinary.{binary_gate_in, binary_gates, delta_in};
ghost use Rattle.craig_aiger_read.specs.ReadBinary.{gates_counted};
ghost use Rattle.craig_aiger_read.specs.ReadFaults.{IsReadAs};
ghost use Rattle.craig_aiger_read.specs.ReadViews.{as_operands};

use crate::counts::Counts;
use crate::seven_bits::{NumberFault, first_number};
use crate::{AigerError, Gate};
use std::alloc::Global;

/// Reads the gates, and gives them with the bytes behind them. The text has so many bytes.
pub(crate) fn read_binary_gates<'a>(
    alloc: Global,
    counts: &Counts,
    end: u64,
    text: &'a [u8],
) -> Result<(Vec<Gate>, &'a [u8]), AigerError>
    requires { length text.now ≤ end }
    ensures read { IsReadAs (λ x. (map as_operands x.0.items, x.1.now)) result (gates_counted end counts.now text.now) }
    ensures shorter { IfOk result (λ x. length x.1.now ≤ length text.now) }
{
    let mut gates = Vec::new(alloc);
    let mut rest = text;
    let mut own = 2 * (1 + counts.inputs + counts.latches);
    for _ in 0..counts.gates {
        let (gate, behind) = gate_of(end, own, rest)?;
        gates.push(gate)?;
        own += 2;
        rest = behind;
    }
    Ok((gates, rest))
}

/// The gate of a literal at the front of the bytes, and what is behind it.
fn gate_of(end: u64, own: u64, text: &[u8]) -> Result<(Gate, &[u8]), AigerError>
    requires { length text.now ≤ end }
    ensures read { IsReadAs (λ x. (as_operands x.0, x.1.now)) result (binary_gate_in end own text.now) }
    ensures shorter { IfOk result (λ x. length x.1.now ≤ length text.now) }
{
    let (first, behind) = delta_of(end, 1, own, text)?;
    let left = own - first;
    let (second, rest) = delta_of(end, 0, left, behind)?;
    let right = left - second;
    Ok((Gate { left, right }, rest))
}

/// The difference of two literals at the front of the bytes, which lies between two numbers, and what is behind it.
fn delta_of(end: u64, least: u64, most: u64, text: &[u8]) -> Result<(u64, &[u8]), AigerError>
    requires { length text.now ≤ end }
    ensures read { IsReadAs (λ x. (x.0, x.1.now)) result (delta_in end least most text.now) }
    ensures within { IfOk result (λ x. x.0 ≤ most) }
    ensures shorter { IfOk result (λ x. length x.1.now ≤ length text.now) }
{
    let place = end - text.len() as u64;
    match first_number(text) {
        Ok((delta, rest)) => {
            if delta < least || most < delta {
                return Err(AigerError::Delta { place });
            }
            Ok((delta, rest))
        }
        Err(NumberFault::Ends) => Err(AigerError::Truncated { place: end }),
        Err(NumberFault::TooLong) => Err(AigerError::Delta { place }),
    }
}
