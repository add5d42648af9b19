//! What a search keeps of what it learns, beside the clauses.
ghost use Rattle.std.specs.Prelude.{IfOk};
ghost use Rattle.craig_search.specs.Journal.{IsListed};

use crate::Journal;
use craig_base::Lit;
use std::alloc::AllocError;

/// Appends a learnt clause to the journal where there is a limit, and says whether the journal has so many clauses now.
/// Without a limit the journal keeps its fingerprint, so that a search goes the same way with a limit and without.
pub(crate) fn list_lemma(
    journal: &mut Journal,
    limit: Option<u64>,
    lits: &[Lit],
) -> Result<bool, AllocError>
    ensures { IfOk result (IsListed limit lits.now journal.old journal.new) }
{
    let Some(most) = limit else {
        journal.keep_fingerprint(lits)?;
        return Ok(false);
    };
    journal.push(lits)?;
    Ok(journal.len() as u64 == most)
}
