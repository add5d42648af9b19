//! The chain of a clause, packed into bytes.
ghost use Rattle.std.specs.Prelude.{◌≡◌, ◌<◌, ◌++◌, All, OnErr, OnOk};
ghost use Rattle.craig_spec.specs.PackedChain.{packed_chain, rest_bytes, step_bytes};
ghost use Rattle.craig_proof.specs.PackedSteps.{ArePivotsSmall, BeginsWith};
ghost use Rattle.craig_proof.specs.Tracer.{chain_of, chain_step};

use crate::Step;
use crate::packed_number::{append_number, literal_number};
use craig_base::ClauseId;
use std::alloc::AllocError;

/// Appends one resolution in the chain of the clause with the id. After an error a part of it may stand there.
fn append_step(out: &mut Vec<u8>, id: ClauseId, step: &Step) -> Result<(), AllocError>
    requires { step.now.antecedent.0 < id.0 }
    ensures appended { OnOk result (out.new.items ≡ out.old.items ++ step_bytes id.0 (chain_step step.now)) }
    ensures begun { BeginsWith out.old.items out.new.items }
    ensures small { step.now.pivot.var < 2147483648 }
{
    append_number(out, literal_number(step.pivot))?;
    append_number(out, id.0 - step.antecedent.0)?;
    Ok(())
}

/// Appends all resolutions.
fn append_steps(out: &mut Vec<u8>, id: ClauseId, rest: &[Step]) -> Result<(), AllocError>
    requires { All (λ s. s.antecedent.0 < id.0) rest.now }
    ensures appended { OnOk result (out.new.items ≡ out.old.items ++ rest_bytes id.0 (chain_of rest.now)) }
    ensures begun { BeginsWith out.old.items out.new.items }
    ensures small { OnOk result (ArePivotsSmall (chain_of rest.now)) }
{
    for step in rest {
        append_step(out, id, step)?;
    }
    Ok(())
}

/// Appends the chain. After an error a part of it may stand there.
fn append_all(
    out: &mut Vec<u8>,
    id: ClauseId,
    first: ClauseId,
    rest: &[Step],
) -> Result<(), AllocError>
    requires first { first.0 < id.0 }
    requires rest { All (λ s. s.antecedent.0 < id.0) rest.now }
    ensures appended { OnOk result (out.new.items ≡ out.old.items ++ packed_chain id.0 first.0 (chain_of rest.now)) }
    ensures begun { BeginsWith out.old.items out.new.items }
    ensures small { OnOk result (ArePivotsSmall (chain_of rest.now)) }
{
    append_number(out, id.0 - first.0)?;
    append_steps(out, id, rest)?;
    Ok(())
}

/// Appends the chain of the clause with the id. After an error the bytes are as before.
pub(crate) fn append_chain(
    out: &mut Vec<u8>,
    id: ClauseId,
    first: ClauseId,
    rest: &[Step],
) -> Result<(), AllocError>
    requires first { first.0 < id.0 }
    requires rest { All (λ s. s.antecedent.0 < id.0) rest.now }
    ensures appended { OnOk result (out.new.items ≡ out.old.items ++ packed_chain id.0 first.0 (chain_of rest.now)) }
    ensures small { OnOk result (ArePivotsSmall (chain_of rest.now)) }
    ensures unchanged { OnErr result (out.new.items ≡ out.old.items) }
{
    let start = out.len();
    if append_all(out, id, first, rest).is_err() {
        out.truncate(start);
        return Err(AllocError);
    }
    Ok(())
}
