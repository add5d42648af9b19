//! A small refutation, for the tests.
ghost use Rattle.std.specs.Prelude.{◌≡◌, ◌≤◌, ℕ, [], Some, IsTrue, OnOk};
ghost use Rattle.craig_base.specs.Clauses.{IsNormal};
ghost use Rattle.craig_spec.specs.Occurs.{occurs_in_clause};
ghost use Rattle.craig_spec.specs.Chain.{IsAbove, IsUnforgotten, clause_told, nothing_told, with_step};
ghost use Rattle.craig_proof.specs.Tracer.{original_step};
ghost use Rattle.craig_itp.specs.Interpolants.{AreNoted, Spans};

use craig_base::{ClauseId, Lit, Part, Var};
use craig_label::Sides;
use craig_proof::{ChainStore, Step, Tracer};
use std::alloc::AllocError;

/// Notes the variables of the literals in the part.
fn note_all(sides: &mut Sides, part: Part, lits: &[Lit]) -> Result<(), AllocError>
    requires last { part.0 ≤ sides.old.parts }
    ensures noted { OnOk result ((x : ℕ) → IsTrue (occurs_in_clause x lits.now) → Spans sides.new x part.0) }
    ensures kept { (x other : ℕ) → Spans sides.old x other → Spans sides.new x other }
    ensures parts { sides.new.parts ≡ sides.old.parts }
{
    for lit in lits {
        sides.note(lit.var(), part)?;
    }
    Ok(())
}

/// Tells an original, and notes its variables.
fn tell_original(
    store: &mut ChainStore,
    sides: &mut Sides,
    id: ClauseId,
    part: Part,
    lits: &[Lit],
) -> Result<(), AllocError>
    requires above { IsAbove store.old.told id.0 }
    requires normal { IsNormal lits.now }
    requires last { part.0 ≤ sides.old.parts }
    requires noted { AreNoted sides.old store.old.told.steps }
    ensures told { OnOk result (store.new.told ≡ with_step store.old.told (original_step id.0 part.0 lits.now)) }
    ensures noted { OnOk result (AreNoted sides.new store.new.told.steps) }
    ensures parts { sides.new.parts ≡ sides.old.parts }
{
    note_all(sides, part, lits)?;
    store.original(id, part, lits)
}

//// Tells `[v1]`, `[~v1, v0]`, `[~v0]` and `[v1, v2]` as originals, the last two of one part, and under the id 4 the
/// empty clause. It doesn't need the last original, which puts the first pivot on side B too.
pub(crate) fn tell_refutation(
    store: &mut ChainStore,
    sides: &mut Sides,
    first: Part,
    second: Part,
    third: Part,
) -> Result<(), AllocError>
    requires nothing { store.old.told ≡ nothing_told }
    requires first_to { first.0 ≤ sides.old.parts }
    requires second_to { second.0 ≤ sides.old.parts }
    requires third_to { third.0 ≤ sides.old.parts }
    ensures root { OnOk result (IsUnforgotten store.new.told.steps 4) }
    ensures empty { OnOk result (clause_told store.new.told.steps 4 ≡ Some []) }
    ensures noted { OnOk result (AreNoted sides.new store.new.told.steps) }
    ensures parts { sides.new.parts ≡ sides.old.parts }
{
    let x = Lit::new(Var(1), false);
    let y = Lit::new(Var(0), false);
    let begin = [x];
    tell_original(store, sides, ClauseId(0), first, &begin)?;
    let middle = [x.not(), y];
    tell_original(store, sides, ClauseId(1), second, &middle)?;
    let end = [y.not()];
    tell_original(store, sides, ClauseId(2), third, &end)?;
    let other = [x, Lit::new(Var(2), false)];
    tell_original(store, sides, ClauseId(3), third, &other)?;
    let none: [Lit; 0] = [];
    let rest = [
        Step {
            pivot: x,
            antecedent: ClauseId(1),
        },
        Step {
            pivot: y,
            antecedent: ClauseId(2),
        },
    ];
    store.derived(ClauseId(4), &none, ClauseId(0), &rest)
}
