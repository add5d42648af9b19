//! The reply to a `solve` where there is no model, from the refutation that the chain store keeps: the interpolants of
//! the written cuts by the written systems, as the text of one circuit.

ghost use Rattle.std.specs.Prelude.{◌≡◌, ◌<◌, ◌≤◌, ◌++◌, ℕ, List, [], Some, length, map, All, IfOk, OnOk};
ghost use Rattle.craig_spec.specs.Chain.{IsUnforgotten, clause_told};
ghost use Rattle.craig_spec.specs.Circuit.{IsCircuit, IsStrict};
ghost use Rattle.craig_spec.specs.Cut.{AreChosenCuts};
ghost use Rattle.craig_spec.specs.Needed.{IsNeededPart};
ghost use Rattle.craig_aig.specs.Growth.{ArenaGrows};
ghost use Rattle.craig_label.specs.Sides.{side_at};
ghost use Rattle.craig_label.specs.declared.side.Side.{Side};
ghost use Rattle.craig_aiger.specs.Layouts.{circuit_of};
ghost use Rattle.craig_itp.specs.Interpolants.{AreInterpolants, NeededAreNoted};
ghost use Rattle.craig_system.specs.Marking.{labels_in};
ghost use Rattle.craig_spec.specs.Appended.{AppendsOnly};
ghost use Rattle.craig_top.specs.Appended.{AppendsText};
ghost use Rattle.craig_top.specs.CutLayout.{edge_outputs};
ghost use Rattle.craig_top.specs.Material.{IsMaterial, view_of};
ghost use Rattle.craig_top.specs.Stored.{labels};
ghost use Rattle.craig_top.specs.RestsOn.{RestsOn};
ghost use Rattle.craig_top.specs.Sides.{with_assumed};
ghost use Rattle.craig_top.specs.StoredReplies.{IsRootReply};
ghost use Rattle.craig_top.specs.WrittenOutputs.{AreOutputsOf, AreWrittenOutputs, HasMarks, IsWrittenLayout};
ghost use Rattle.craig_top.specs.WrittenSystems.{alone, by_strength};

use crate::assumptions::named_literals;
use crate::choices::written_cuts;
use crate::material::Material;
use crate::reply::{append_interpolants, append_unsatisfiable};
use craig_aig::{Aig, Edge};
use craig_aiger::{Family, Layout, OutName};
use craig_base::{ClauseId, Names};
use craig_itp::{Edges, outputs};
use craig_label::Mark;
use craig_proof::Needed;
use craig_script::SystemWord;
use craig_system::{DualPudlak, Inverse, Marked, McMillan, Pudlak, System};
use std::alloc::{AllocError, Global};

/// Appends the reply to a solve, whose refutation by the clauses and the failed assumptions the store keeps under the root.
pub fn append_refutation(
    material: &Material,
    root: ClauseId,
    out: &mut Vec<u8>,
) -> Result<(), AllocError>
    requires material { IsMaterial (view_of material.now) }
    requires root { IsUnforgotten material.now.store.now.told.steps root.0 }
    requires empty { clause_told material.now.store.now.told.steps root.0 ≡ Some [] }
    requires rests { RestsOn (with_assumed material.now.clauses.now material.now.failed.now) material.now.store.now.told root.0 }
    ensures reply { OnOk result (AppendsText out.old.items out.new.items (IsRootReply (view_of material.now) root.0)) }
    ensures appends { AppendsOnly out.old.items out.new.items }
{
    craig_aig::laws::bits_are_an_assignment();
    craig_itp::laws::outputs_of_a_refutation();
    craig_itp::laws::marks_by_strength();
    craig_proof::laws::needed_part_stands();
    craig_itp::laws::partial_values_of_the_needed_part();
    craig_proof::laws::steps_are_found();
    craig_proof::laws::told_clauses_follow();
    let circuit = cut_circuit(material, root)?;
    let failed = named_literals(material.alloc, material.names, material.failed)?;
    append_unsatisfiable(out, &failed)?;
    append_interpolants(
        material.alloc,
        material.choices.format,
        material.top,
        &circuit,
        out,
    )
}

/// The circuit of the interpolants of the written cuts by the written systems, an output for each.
fn cut_circuit(material: &Material, root: ClauseId) -> Result<Layout, AllocError>
    requires root { IsUnforgotten material.now.store.now.told.steps root.0 }
    requires noted { NeededAreNoted material.now.sides.now material.now.store.now.told.steps root.0 }
    requires chosen { AreChosenCuts material.now.sides.now.parts (view_of material.now).settings.cuts }
    requires named { (cut x : ℕ) → side_at material.now.sides.now cut x ≡ Side.Shared → x < length material.now.names.now }
    ensures cuts { IfOk result (IsWrittenLayout (view_of material.now) root.0) }
    ensures strict { IfOk result (λ l. IsStrict (circuit_of l)) }
    ensures circuit { IfOk result (λ l. IsCircuit (circuit_of l)) }
{
    craig_aig::laws::nodes_by_operands();
    let mut aig = Aig::new(material.alloc);
    let cuts = written_cuts(
        material.alloc,
        material.sides.parts(),
        &material.choices.cuts,
    )?;
    let outputs = systems_outputs(material, root, &cuts, &mut aig)?;
    // What holds of each arena is known from here on.
    let _ = aig.len();
    Layout::new(material.alloc, &aig, material.names, &outputs)
}

/// The outputs of the systems that are written, one system after the other. The steps that the root needs are found once.
fn systems_outputs(
    material: &Material,
    root: ClauseId,
    cuts: &[u16],
    aig: &mut Aig,
) -> Result<Vec<(OutName, Edge)>, AllocError>
    requires root { IsUnforgotten material.now.store.now.told.steps root.0 }
    requires noted { NeededAreNoted material.now.sides.now material.now.store.now.told.steps root.0 }
    requires cuts { All (λ cut. cut ≤ material.now.sides.now.parts) cuts.now }
    ensures outputs { IfOk result (λ outputs. AreWrittenOutputs (view_of material.now) root.0 aig.new cuts.now outputs.items) }
{
    let needed = material.store.needed(root)?;
    match material.choices.system {
        SystemWord::McMillan => lone_outputs(material, &needed, root, cuts, &McMillan, aig),
        SystemWord::Pudlak => lone_outputs(material, &needed, root, cuts, &Pudlak, aig),
        SystemWord::Inverse => lone_outputs(material, &needed, root, cuts, &Inverse, aig),
        SystemWord::Dual => lone_outputs(material, &needed, root, cuts, &DualPudlak, aig),
        SystemWord::Marks => {
            let marked = dense_marks(material.alloc, material.names, &material.choices.marks)?;
            lone_outputs(material, &needed, root, cuts, &marked, aig)
        }
        SystemWord::All => three_outputs(material, &needed, root, cuts, aig),
    }
}

/// The outputs of one system, which have no family.
fn lone_outputs<S: System>(
    material: &Material,
    needed: &Needed<'_>,
    root: ClauseId,
    cuts: &[u16],
    system: &S,
    aig: &mut Aig,
) -> Result<Vec<(OutName, Edge)>, AllocError>
    requires root { IsUnforgotten material.now.store.now.told.steps root.0 }
    requires needed { IsNeededPart material.now.store.now.told.steps root.0 needed.now }
    requires noted { NeededAreNoted material.now.sides.now material.now.store.now.told.steps root.0 }
    requires cuts { All (λ cut. cut ≤ material.now.sides.now.parts) cuts.now }
    ensures { IfOk result (λ outputs. AreOutputsOf (view_of material.now) root.0 aig.new cuts.now (alone (S.marks system.now)) outputs.items) }
{
    let mut outputs = Vec::new(material.alloc);
    let edges = system_edges(material, needed, root, cuts, system, aig)?;
    push_named(cuts, edges.as_slice(), None, &mut outputs)?;
    Ok(outputs)
}

/// The outputs of McMillan's, Pudlák's and the inverse system, each with its family.
fn three_outputs(
    material: &Material,
    needed: &Needed<'_>,
    root: ClauseId,
    cuts: &[u16],
    aig: &mut Aig,
) -> Result<Vec<(OutName, Edge)>, AllocError>
    requires root { IsUnforgotten material.now.store.now.told.steps root.0 }
    requires needed { IsNeededPart material.now.store.now.told.steps root.0 needed.now }
    requires noted { NeededAreNoted material.now.sides.now material.now.store.now.told.steps root.0 }
    requires cuts { All (λ cut. cut ≤ material.now.sides.now.parts) cuts.now }
    ensures { IfOk result (λ outputs. AreOutputsOf (view_of material.now) root.0 aig.new cuts.now by_strength outputs.items) }
{
    let mut outputs = Vec::new(material.alloc);
    let mcmillan = system_edges(material, needed, root, cuts, &McMillan, aig)?;
    push_named(
        cuts,
        mcmillan.as_slice(),
        Some(Family::McMillan),
        &mut outputs,
    )?;
    let pudlak = system_edges(material, needed, root, cuts, &Pudlak, aig)?;
    push_named(cuts, pudlak.as_slice(), Some(Family::Pudlak), &mut outputs)?;
    let inverse = system_edges(material, needed, root, cuts, &Inverse, aig)?;
    push_named(
        cuts,
        inverse.as_slice(),
        Some(Family::Inverse),
        &mut outputs,
    )?;
    Ok(outputs)
}

/// The edges of a system at the cuts, from the steps that the root needs.
fn system_edges<S: System>(
    material: &Material,
    needed: &Needed<'_>,
    root: ClauseId,
    cuts: &[u16],
    system: &S,
    aig: &mut Aig,
) -> Result<Edges, AllocError>
    requires root { IsUnforgotten material.now.store.now.told.steps root.0 }
    requires needed { IsNeededPart material.now.store.now.told.steps root.0 needed.now }
    requires noted { NeededAreNoted material.now.sides.now material.now.store.now.told.steps root.0 }
    requires cuts { All (λ cut. cut ≤ material.now.sides.now.parts) cuts.now }
    ensures interpolants { IfOk result (AreInterpolants material.now.sides.now (S.marks system.now) material.now.store.now.told.steps root.0 aig.new cuts.now) }
    ensures grows { ArenaGrows aig.old aig.new }
{
    craig_itp::laws::needed_parts_tell_all();
    material.store.each_clause_follows();
    outputs(
        material.alloc,
        needed,
        root,
        material.sides,
        cuts,
        system,
        aig,
    )
}

/// Appends the edges, each named by its cut and the family.
fn push_named(
    cuts: &[u16],
    edges: &[Edge],
    family: Option<Family>,
    outputs: &mut Vec<(OutName, Edge)>,
) -> Result<(), AllocError>
    requires { length edges.now ≡ length cuts.now }
    ensures { OnOk result (outputs.new.items ≡ outputs.old.items ++ edge_outputs family cuts.now edges.now) }
{
    for place in 0..cuts.len() {
        let cut = u32::from(cuts[place]);
        outputs.push((OutName { family, cut }, edges[place]))?;
    }
    Ok(())
}

/// The marks over the dense variables: the last one of each script variable that has a dense number counts.
fn dense_marks(alloc: Global, names: &Names, marks: &[(u32, Mark)]) -> Result<Marked, AllocError>
    ensures { IfOk result (λ marked. HasMarks names.now (labels marks.now) (labels_in marked)) }
{
    let mut marked = Marked::new(alloc);
    for mark in marks {
        if let Some(var) = names.find(mark.0) {
            marked.set(var, mark.1)?;
        }
    }
    Ok(marked)
}
