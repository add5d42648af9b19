//! The reply to a `solve` that met the conflict limit: the learnt clauses under the names of the script.

ghost use Rattle.std.specs.Prelude.{◌≡◌, length, IfOk, OnOk};
ghost use Rattle.craig_spec.specs.Appended.{AppendsOnly};
ghost use Rattle.craig_top.specs.LemmaReply.{AppendsLemmas, IsNamedLemma};
ghost use Rattle.craig_top.specs.Naming.{named_clause};
ghost use Rattle.craig_top.specs.Values.{AreOver, IsOver};

use crate::reply::{append_lemma, append_unknown};
use crate::verdict::sort_by_variable;
use craig_base::{Lit, Names, Var};
use craig_search::Journal;
use std::alloc::{AllocError, Global};

/// Appends the reply with these lemmas, which are over dense variables.
pub fn append_lemmas(
    alloc: Global,
    names: &Names,
    lemmas: &Journal,
    out: &mut Vec<u8>,
) -> Result<(), AllocError>
    requires { AreOver (length names.now) lemmas.now }
    ensures lemmas { OnOk result (AppendsLemmas names.now lemmas.now out.old.items out.new.items) }
    ensures appends { AppendsOnly out.old.items out.new.items }
{
    append_unknown(out, lemmas.len() as u64)?;
    for place in 0..lemmas.len() {
        let lemma = named_lemma(alloc, names, lemmas.lemma(place))?;
        append_lemma(out, &lemma)?;
    }
    Ok(())
}

/// The literals of a lemma under their names, by variable.
fn named_lemma(alloc: Global, names: &Names, lits: &[Lit]) -> Result<Vec<Lit>, AllocError>
    requires { IsOver (length names.now) lits.now }
    ensures { IfOk result (λ named. IsNamedLemma names.now lits.now named.items) }
{
    let mut named = named_literals(alloc, names, lits)?;
    sort_by_variable(&mut named);
    Ok(named)
}

/// The literals under their names.
fn named_literals(alloc: Global, names: &Names, lits: &[Lit]) -> Result<Vec<Lit>, AllocError>
    requires { IsOver (length names.now) lits.now }
    ensures { IfOk result (λ named. named.items ≡ named_clause names.now lits.now) }
{
    let mut named = Vec::new(alloc);
    for literal in lits {
        let name = Var(names.name(literal.var()));
        named.push(Lit::new(name, literal.negated()))?;
    }
    Ok(named)
}
