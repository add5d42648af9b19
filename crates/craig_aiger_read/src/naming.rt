//! Latches and roots with their names.
ghost use Rattle.std.specs.Prelude.{◌≡◌, ◌+◌, ◌/◌, ◌<◌, All, length, map, IfOk};
ghost use Rattle.craig_aiger_read.specs.ReadFiles.{file_latch, file_root, latches_with, roots_with};
ghost use Rattle.craig_aiger_read.specs.ReadOrder.{AreSmall, moved_by};

use crate::latch_line::LatchLine;
use crate::moving::moved;
use crate::root_line::RootLine;
use crate::{Latch, Latches, Name, Root, Roots};
use std::alloc::{AllocError, Global};

/// The latches with new variables and their names.
pub(crate) fn named_latches(
    alloc: Global,
    first: u64,
    variables: &[u64],
    lines: &[LatchLine],
    nexts: &[u64],
    names: Vec<Option<Name>>,
) -> Result<Latches, AllocError>
    requires within { All (λ l. l / 2 < first + length variables.now) nexts.now }
    requires small { AreSmall variables.now }
    requires lines { length lines.now ≡ length names.items }
    requires nexts { length nexts.now ≡ length names.items }
    ensures { IfOk result (λ l. map file_latch l ≡ latches_with (moved_by first variables.now) lines.now nexts.now names.items) }
{
    let mut latches = Vec::new(alloc);
    for (place, name) in names.into_iter().enumerate() {
        let next = moved(first, variables, nexts[place]);
        let reset = lines[place].reset;
        latches.push(Latch { next, reset, name })?;
    }
    Ok(Latches::from_vec(latches))
}

/// The literals with new variables and their names.
pub(crate) fn named_roots(
    alloc: Global,
    first: u64,
    variables: &[u64],
    literals: &[u64],
    names: Vec<Option<Name>>,
) -> Result<Roots, AllocError>
    requires within { All (λ l. l / 2 < first + length variables.now) literals.now }
    requires small { AreSmall variables.now }
    requires long { length literals.now ≡ length names.items }
    ensures { IfOk result (λ r. map file_root r ≡ roots_with (moved_by first variables.now) literals.now names.items) }
{
    let mut roots = Vec::new(alloc);
    for (place, name) in names.into_iter().enumerate() {
        let literal = moved(first, variables, literals[place]);
        roots.push(Root { literal, name })?;
    }
    Ok(Roots::from_vec(roots))
}

/// The latches as their lines have them, with their names.
pub(crate) fn latches_with_names(
    alloc: Global,
    lines: &[LatchLine],
    names: Vec<Option<Name>>,
) -> Result<Latches, AllocError>
    requires { length lines.now ≡ length names.items }
    ensures { IfOk result (λ l. map file_latch l ≡ latches_with (λ n. n) lines.now (map (λ l. l.next) lines.now) names.items) }
{
    let mut latches = Vec::new(alloc);
    for (place, name) in names.into_iter().enumerate() {
        let next = lines[place].next;
        let reset = lines[place].reset;
        latches.push(Latch { next, reset, name })?;
    }
    Ok(Latches::from_vec(latches))
}

/// The literals as their lines have them, with their names.
pub(crate) fn roots_with_names(
    alloc: Global,
    lines: &[RootLine],
    names: Vec<Option<Name>>,
) -> Result<Roots, AllocError>
    requires { length lines.now ≡ length names.items }
    ensures { IfOk result (λ r. map file_root r ≡ roots_with (λ n. n) (map (λ r. r.literal) lines.now) names.items) }
{
    let mut roots = Vec::new(alloc);
    for (place, name) in names.into_iter().enumerate() {
        let literal = lines[place].literal;
        roots.push(Root { literal, name })?;
    }
    Ok(Roots::from_vec(roots))
}
