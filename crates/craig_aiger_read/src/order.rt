//! The order of gates by depth.
ghost use Rattle.std.specs.Prelude.{◌≡◌, ℕ, ◌<◌, All, filter, length, map, IfOk, OnOk, IsPermutation};
ghost use Rattle.std.specs.List.{range_with_len};
ghost use Rattle.std.specs.List.Sorted.{IsNonDecreasingBy};
ghost use Rattle.craig_aiger_read.specs.ReadOrder.{AreDeep, order_by};
ghost use Rattle.craig_aiger_read.specs.Ranks.{has_depth, ranks};

use std::alloc::{AllocError, Global};

/// A gate and its depth.
#[derive(Clone, Copy, Drop)]
struct Ranked {
    depth: u64,
    gate: usize,
}

/// The places of the depths by rising depth, and those of one depth in their order.
pub(crate) fn by_depth(alloc: Global, depths: &[Option<u64>]) -> Result<Vec<usize>, AllocError>
    requires { AreDeep depths.now }
    ensures order { IfOk result (λ v. v.items ≡ order_by depths.now) }
    ensures long { IfOk result (λ v. length v.items ≡ length depths.now) }
    ensures inside { IfOk result (λ v. All (λ j. j < length depths.now) v.items) }
{
    let mut ranked = rank(alloc, depths)?;
    sort_by_depth(&mut ranked)?;
    gates_of(alloc, ranked.as_slice())
}

/// The gates with their depths, in their order.
fn rank(alloc: Global, depths: &[Option<u64>]) -> Result<Vec<Ranked>, AllocError>
    ensures { IfOk result (λ v. v.items ≡ map (ranks depths.now) (range_with_len 0 (length depths.now))) }
{
    let mut ranked = Vec::new(alloc);
    for (gate, depth) in depths.iter().enumerate() {
        ranked.push(Ranked {
            depth: depth.unwrap_or(0),
            gate,
        })?;
    }
    Ok(ranked)
}

/// Sorts by depth, and leaves those of one depth in their order.
fn sort_by_depth(ranked: &mut Vec<Ranked>) -> Result<(), AllocError>
    ensures sorted { OnOk result (IsNonDecreasingBy (λ r. r.depth) ranked.new.items) }
    ensures stable { OnOk result ((n : ℕ) → filter (has_depth n) ranked.new.items ≡ filter (has_depth n) ranked.old.items) }
    ensures permutation { OnOk result (IsPermutation ranked.old.items ranked.new.items) }
{
    ranked.sort_by_key(|ranked| ranked.depth)?;
    Ok(())
}

/// The gates without their depths.
#[tactic(none)]
fn gates_of(alloc: Global, ranked: &[Ranked]) -> Result<Vec<usize>, AllocError>
    ensures { IfOk result (λ v. v.items ≡ map (λ r. r.gate) ranked.now) }
{
    let mut gates = Vec::new(alloc);
    for ranked in ranked {
        gates.push(ranked.gate)?;
    }
    Ok(gates)
}
