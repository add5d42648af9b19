//! The script variables of the needed inputs.
ghost use Rattle.std.specs.Prelude.{◌≡◌, ◌+◌, ◌^◌, ◌<◌, ◌≤◌, ◌↔◌, ℕ, Some, All, Contains, length, map, slice_get, slice_index, vec_len, IfOk};
ghost use Rattle.std.specs.List.{filter_map};
ghost use Rattle.std.specs.Option.{option_map};
ghost use Rattle.std.specs.List.Sorted.{IsStrictlyIncreasing};
ghost use Rattle.craig_aiger.specs.Layouts.{AreNamed, input_names, node_variable};

use craig_aig::Node;
use craig_base::{Names, Var};
use std::alloc::{AllocError, Global};

/// The variable of a node, if there is one and it is an input.
pub(crate) fn node_input(node: &Option<Node>) -> Option<Var>
    ensures { node_variable node.now ≡ option_map (λ v. v.0) result }
{
    match node {
        Some(Node::Input(var)) => Some(*var),
        _ => None,
    }
}

/// The names of the inputs in the table, in its order.
fn names_in(alloc: Global, table: &[Option<Node>], names: &Names) -> Result<Vec<u32>, AllocError>
    requires { AreNamed names.now table.now }
    ensures names { IfOk result (λ v. v.items ≡ input_names names.now table.now) }
    ensures variables { IfOk result (λ v. All (λ x. (1 ≤ x) × (x ≤ 2147483647)) v.items) }
    ensures bound { IfOk result (λ v. vec_len v ≤ length table.now) }
{
    let mut inputs = Vec::new(alloc);
    for node in table {
        if let Some(var) = node_input(node) {
            let name = names.name(var);
            inputs.push(name)?;
        }
    }
    Ok(inputs)
}

/// The names of the inputs in the table, by rising number. No two inputs have one name.
pub(crate) fn input_names(
    alloc: Global,
    table: &[Option<Node>],
    names: &Names,
) -> Result<Vec<u32>, AllocError>
    requires { AreNamed names.now table.now }
    ensures rising { IfOk result (λ v. IsStrictlyIncreasing v.items) }
    ensures variables { IfOk result (λ v. All (λ x. (1 ≤ x) × (x ≤ 2147483647)) v.items) }
    ensures names { IfOk result (λ v. (x : ℕ) → Contains v.items x ↔ Contains (input_names names.now table.now) x) }
    ensures bound { IfOk result (λ v. vec_len v ≤ length table.now) }
{
    let mut inputs = names_in(alloc, table, names)?;
    inputs.sort_unstable();
    inputs.dedup();
    Ok(inputs)
}

/// The number of the input that has the name, counted from 1.
#[tactic(none)]
pub(crate) fn input_number(inputs: &[u32], name: u32) -> u64
    requires rising { IsStrictlyIncreasing inputs.now }
    requires there { Contains inputs.now name }
    requires bound { length inputs.now < 2 ^ 41 }
    ensures number { (i : ℕ) × (result ≡ 1 + i) × (slice_get inputs.now i ≡ Some name) }
    ensures bound { result < 2 ^ 42 }
{
    match inputs.binary_search(&name) {
        Ok(place) => 1 + place as u64,
        Err(_) => 0,
    }
}
