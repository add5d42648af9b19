//! How deep gates lie.
//!
//! Gates wait on a stack for their operands, so that nothing here is recursive. Each gate of the stack has the next
//! one as an operand, so a stack that is higher than there are gates goes in a circle.
ghost use Rattle.std.specs.Prelude.{◌≡◌, ℕ, ◌+◌, ◌-◌, ◌/◌, ◌<◌, [], ◌∷◌, length, map, replicate, slice_index_or, slice_get, is_none, false, true, Some, None, IfOk, OnOk, if◌then◌else◌};
ghost use Rattle.craig_spec.specs.AigerReading.{gate_depth};
ghost use Rattle.craig_aiger_read.specs.ReadDepths.{AreDepths, IsReadiness, AreWithin, StayKnown, depths_of, known_depth};
ghost use Rattle.craig_aiger_read.specs.ReadFaults.{IsReadAs};
ghost use Rattle.craig_aiger_read.specs.ReadViews.{as_gate, as_operands};

use crate::gate_line::GateLine;
use crate::{AigerError, Gate};
use std::alloc::{AllocError, Global};

/// What is known of a gate: its depth, or an operand that is a gate whose depth isn't known.
enum Readiness {
    Depth(u64),
    Waits(usize),
}

/// The depths of the gates, which have the variables from the first one on, if each has one. Their lines stand
/// beside them.
pub(crate) fn gate_depths(
    alloc: Global,
    first: u64,
    gates: &[Gate],
    lines: &[GateLine],
) -> Result<Vec<Option<u64>>, AigerError>
    requires beside { length gates.now ≡ length lines.now }
    requires within { AreWithin first gates.now }
    ensures { IsReadAs (λ v. v.items) result (depths_of first (map as_operands gates.now) (map as_gate lines.now)) }
{
    let mut depths = no_depths(alloc, gates.len())?;
    for (gate, line) in lines.iter().enumerate() {
        if !settle(alloc, first, gates, &mut depths, gate)? {
            return Err(AigerError::Cycle { place: line.offset });
        }
    }
    Ok(depths)
}

/// So many depths that aren't known.
fn no_depths(alloc: Global, count: usize) -> Result<Vec<Option<u64>>, AllocError>
    ensures { IfOk result (λ v. v.items ≡ replicate count None) }
{
    let mut depths = Vec::new(alloc);
    for _ in 0..count {
        depths.push(None)?;
    }
    Ok(depths)
}

/// Finds the depth of a gate and those of the gates below it, and answers whether it has one.
fn settle(
    alloc: Global,
    first: u64,
    gates: &[Gate],
    depths: &mut [Option<u64>],
    root: usize,
) -> Result<bool, AllocError>
    requires within { AreWithin first gates.now }
    requires depths { AreDepths first (map as_operands gates.now) depths.old }
    requires root { root < length gates.now }
    ensures depths { OnOk result (AreDepths first (map as_operands gates.now) depths.new) }
    ensures stay { OnOk result (StayKnown depths.old depths.new) }
    ensures known { IfOk result (λ settled. settled ≡ true → (d : ℕ) × (slice_index_or depths.new root None ≡ Some d)) }
    ensures circle { IfOk result (λ settled. settled ≡ false → gate_depth first (map as_operands gates.now) root ≡ None) }
{
    let mut stack = first_of_stack(alloc, depths, root)?;
    while let Some(gate) = top_of(stack.as_slice()) {
        match readiness_of(first, &gates[gate], depths) {
            Readiness::Depth(depth) => {
                depths[gate] = Some(depth);
                stack.truncate(stack.len() - 1);
            }
            Readiness::Waits(operand) => {
                if stack.len() >= gates.len() {
                    return Ok(false);
                }
                stack.push(operand)?;
            }
        }
    }
    Ok(true)
}

/// The stack with the gate, if its depth isn't known.
fn first_of_stack(
    alloc: Global,
    depths: &[Option<u64>],
    root: usize,
) -> Result<Vec<usize>, AllocError>
    requires { root < length depths.now }
    ensures { IfOk result (λ stack. stack.items ≡ (if is_none (slice_index_or depths.now root None) then root ∷ [] else [])) }
{
    let mut stack = Vec::new(alloc);
    if depths[root].is_none() {
        stack.push(root)?;
    }
    Ok(stack)
}

/// What is known of a gate.
fn readiness_of(first: u64, gate: &Gate, depths: &[Option<u64>]) -> Readiness
    requires left { gate.now.left / 2 < first + length depths.now }
    requires right { gate.now.right / 2 < first + length depths.now }
    requires small { (j d : ℕ) → slice_index_or depths.now j None ≡ Some d → d < length depths.now }
    ensures { IsReadiness first depths.now gate.now.left gate.now.right result }
{
    let Some(left) = depth_of(first, depths, gate.left) else {
        return Readiness::Waits((gate.left / 2 - first) as usize);
    };
    let Some(right) = depth_of(first, depths, gate.right) else {
        return Readiness::Waits((gate.right / 2 - first) as usize);
    };
    Readiness::Depth(left.max(right) + 1)
}

/// The depth of the literal's variable, where it is known: 0 for one that is no gate.
fn depth_of(first: u64, depths: &[Option<u64>], literal: u64) -> Option<u64>
    requires { literal / 2 < first + length depths.now }
    ensures { result ≡ known_depth first depths.now literal }
{
    if literal / 2 < first {
        Some(0)
    } else {
        depths[(literal / 2 - first) as usize]
    }
}

/// The last of the stack.
fn top_of(stack: &[usize]) -> Option<usize>
    ensures { result ≡ slice_get stack.now (length stack.now - 1) }
{
    stack.last().copied()
}
