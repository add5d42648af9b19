//! Interpolants of a refutation that a chain store keeps.
ghost use Rattle.std.specs.Prelude.{◌≡◌, ◌<◌, ◌≤◌, [], All, Some, length, IfOk};
ghost use Rattle.craig_spec.specs.Chain.{IsUnforgotten, clause_told};
ghost use Rattle.craig_aig.specs.Growth.{ArenaGrows};
ghost use Rattle.craig_spec.specs.Cut.{all_cuts};
ghost use Rattle.craig_itp.specs.Interpolants.{AreInterpolants, IsInterpolant, IsOutput, NeededAreNoted};
ghost use Rattle.craig_itp.specs.Walk.{EndInRoot};

use crate::Edges;
use crate::walk::edge_of_root;
use craig_aig::{Aig, Edge};
use craig_base::ClauseId;
use craig_label::Sides;
use craig_proof::{ChainStore, Needed};
use craig_system::System;
use std::alloc::{AllocError, Global};

/// The interpolant of one cut: the edge that the rules of the system give to the root, over the kept chains that it
/// needs. The root was told as the empty clause and isn't forgotten, and the sides have noted each variable of the
/// originals that it needs in their parts. No clause here uses that the root is empty: it is asked for because the edge
/// separates the two sides only then, as [`laws::cuts_of_a_refutation`](crate::laws::cuts_of_a_refutation) says.
///
/// Each input of the edge's cone occurs on both sides of the cut. Older edges of the arena keep their functions, after
/// an error too; gates may then be left that nothing names. Only want of memory is an error.
pub fn interpolate<S: System>(
    alloc: Global,
    store: &ChainStore,
    root: ClauseId,
    sides: &Sides,
    cut: u16,
    system: &S,
    aig: &mut Aig,
) -> Result<Edge, AllocError>
    requires root { IsUnforgotten store.now.told.steps root.0 }
    requires empty { clause_told store.now.told.steps root.0 ≡ Some [] }
    requires cut { cut ≤ sides.now.parts }
    requires noted { NeededAreNoted sides.now store.now.told.steps root.0 }
    ensures interpolant { IfOk result (IsInterpolant sides.now cut (S.marks system.now) store.now.told.steps root.0 aig.new) }
    ensures grows { ArenaGrows aig.old aig.new }
{
    crate::laws::needed_parts_tell_all();
    store.each_clause_follows();
    // What holds of each arena is known from here on.
    let _ = aig.len();
    let needed = store.needed(root)?;
    edge_of_root(alloc, &needed, root, sides, cut, system, aig)
}

/// The output at a cut, from the steps that the root needs: the constant true at cut 0, the constant false at the cut behind
/// all parts, and the interpolant elsewhere.
fn output<S: System>(
    alloc: Global,
    needed: &Needed<'_>,
    root: ClauseId,
    sides: &Sides,
    cut: u16,
    system: &S,
    aig: &mut Aig,
) -> Result<Edge, AllocError>
    requires cut { cut ≤ sides.now.parts }
    requires ends { EndInRoot sides.now needed.now root.0 }
    ensures output { IfOk result (IsOutput sides.now cut (S.marks system.now) needed.now root.0 aig.new) }
    ensures grows { ArenaGrows aig.old aig.new }
{
    // What holds of each arena is known from here on.
    let _ = aig.len();
    let parts = sides.parts();
    if cut == 0 {
        return Ok(Aig::constant(true));
    }
    if cut == parts {
        return Ok(Aig::constant(false));
    }
    edge_of_root(alloc, needed, root, sides, cut, system, aig)
}

/// The outputs of the cuts as [`chosen`] gives them, from the steps that the root needs, as
/// [`ChainStore::needed`](craig_proof::ChainStore::needed) finds them: more than one system may share these.
pub fn outputs<S: System>(
    alloc: Global,
    needed: &Needed<'_>,
    root: ClauseId,
    sides: &Sides,
    cuts: &[u16],
    system: &S,
    aig: &mut Aig,
) -> Result<Edges, AllocError>
    requires cuts { All (λ cut. cut ≤ sides.now.parts) cuts.now }
    requires ends { EndInRoot sides.now needed.now root.0 }
    ensures interpolants { IfOk result (AreInterpolants sides.now (S.marks system.now) needed.now root.0 aig.new cuts.now) }
    ensures grows { ArenaGrows aig.old aig.new }
{
    // What holds of each arena is known from here on.
    let _ = aig.len();
    let mut edges = Edges::new(alloc);
    for cut in cuts {
        let edge = output(alloc, needed, root, sides, *cut, system, aig)?;
        edges.push(edge)?;
    }
    Ok(edges)
}

/// The outputs of the chosen cuts, in order and all from the chains of one root, with the conditions of [`interpolate`]
/// at each cut: the constant true at cut 0, the constant false at the cut behind all parts, and the interpolants
/// elsewhere.
///
/// The steps that the root needs are found once. Each cut then takes one walk over their chains, with an edge a step.
pub fn chosen<S: System>(
    alloc: Global,
    store: &ChainStore,
    root: ClauseId,
    sides: &Sides,
    cuts: &[u16],
    system: &S,
    aig: &mut Aig,
) -> Result<Edges, AllocError>
    requires root { IsUnforgotten store.now.told.steps root.0 }
    requires empty { clause_told store.now.told.steps root.0 ≡ Some [] }
    requires cuts { All (λ cut. cut ≤ sides.now.parts) cuts.now }
    requires noted { NeededAreNoted sides.now store.now.told.steps root.0 }
    ensures interpolants { IfOk result (AreInterpolants sides.now (S.marks system.now) store.now.told.steps root.0 aig.new cuts.now) }
    ensures grows { ArenaGrows aig.old aig.new }
{
    crate::laws::needed_parts_tell_all();
    store.each_clause_follows();
    // What holds of each arena is known from here on.
    let _ = aig.len();
    let needed = store.needed(root)?;
    outputs(alloc, &needed, root, sides, cuts, system, aig)
}

/// The numbers of all cuts, from 0 to that of the parts.
pub fn cuts_up_to(alloc: Global, parts: u16) -> Result<Vec<u16>, AllocError>
    ensures { IfOk result (λ cuts. cuts.items ≡ all_cuts parts) }
{
    let mut cuts = Vec::new(alloc);
    for cut in 0..=parts {
        cuts.push(cut)?;
    }
    Ok(cuts)
}

/// The outputs of all cuts, as [`chosen`] gives them.
pub fn sequence<S: System>(
    alloc: Global,
    store: &ChainStore,
    root: ClauseId,
    sides: &Sides,
    system: &S,
    aig: &mut Aig,
) -> Result<Edges, AllocError>
    requires root { IsUnforgotten store.now.told.steps root.0 }
    requires empty { clause_told store.now.told.steps root.0 ≡ Some [] }
    requires noted { NeededAreNoted sides.now store.now.told.steps root.0 }
    ensures interpolants { IfOk result (AreInterpolants sides.now (S.marks system.now) store.now.told.steps root.0 aig.new (all_cuts sides.now.parts)) }
    ensures grows { ArenaGrows aig.old aig.new }
{
    // What holds of each arena is known from here on.
    let _ = aig.len();
    let cuts = cuts_up_to(alloc, sides.parts())?;
    chosen(alloc, store, root, sides, cuts.as_slice(), system, aig)
}
