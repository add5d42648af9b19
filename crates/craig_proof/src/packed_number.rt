//! Numbers in groups of seven bits, the lowest first: as many groups as do, and no more.
ghost use Rattle.std.specs.Prelude.{◌≡◌, ◌<◌, ◌*◌, ◌/◌, ◌++◌, ℕ, List, OnOk};
ghost use Rattle.craig_spec.specs.PackedChain.{literal_number, number_bytes, numbered_literal};
ghost use Rattle.craig_proof.specs.PackedSteps.{BeginsWith, BeginsWithNumber};

use craig_base::{Lit, Var};
use std::alloc::AllocError;

/// Appends the number. After an error some of its groups may stand there.
pub(crate) fn append_number(out: &mut Vec<u8>, number: u64) -> Result<(), AllocError>
    ensures appended { OnOk result (out.new.items ≡ out.old.items ++ number_bytes number) }
    ensures begun { BeginsWith out.old.items out.new.items }
{
    let mut rest = number;
    while rest >= 128 {
        out.push((128 + rest % 128) as u8)?;
        rest /= 128;
    }
    out.push(rest as u8)?;
    Ok(())
}

/// The number that the bytes begin with, and what is behind it.
pub(crate) fn first_number(bytes: &[u8]) -> (u64, &[u8])
    requires { BeginsWithNumber bytes.now }
    ensures { (n : ℕ) (rest : List ℕ) → bytes.now ≡ number_bytes n ++ rest → (result.0 ≡ n) × (result.1.now ≡ rest) }
{
    let Some((byte, behind)) = bytes.split_first() else {
        unreachable!()
    };
    if *byte < 128 {
        return (u64::from(*byte), behind);
    }
    let (high, rest) = first_number(behind);
    (u64::from(*byte - 128) + 128 * high, rest)
}

/// The number of a literal.
pub(crate) fn literal_number(lit: Lit) -> u64
    ensures value { result ≡ literal_number lit }
    ensures small { lit.var < 2147483648 }
{
    2 * u64::from(lit.var().0) + u64::from(lit.negated())
}

/// The literal of a number.
pub(crate) fn numbered_literal(number: u64) -> Lit
    requires { number / 2 < 2147483648 }
    ensures { result ≡ numbered_literal number }
{
    Lit::new(Var((number / 2) as u32), number % 2 == 1)
}
