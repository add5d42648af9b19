//! Fingerprints of clauses, by which a search finds out that it has learnt a clause before.
//!
//! The codes of the literals are mixed as the numbers of the generator in Steele, Lea and Flood, "Fast Splittable
//! Pseudorandom Number Generators", OOPSLA 2014, and added up.
ghost use Rattle.std.specs.Prelude.{◌≡◌, ◌<◌};
ghost use Rattle.craig_search.specs.Fingerprint.{fingerprint_of, mixed, mixed_literal, mixed_once};

use craig_base::Lit;

/// The same number for the same literals in any order, and mostly another one for others.
#[tactic(auto, unfolding(crate::specs::Fingerprint::fingerprint_of))]
pub(crate) fn fingerprint(lits: &[Lit]) -> u64
    ensures { result ≡ fingerprint_of lits.now }
{
    let mut sum: u64 = 0;
    for lit in lits {
        sum = sum.wrapping_add(mixed_code(*lit));
    }
    sum
}

/// The mixed code of a literal.
#[tactic(auto, unfolding(crate::specs::Fingerprint::mixed_literal))]
fn mixed_code(lit: Lit) -> u64
    ensures { result ≡ mixed_literal lit }
{
    let code = 2 * u64::from(lit.var().0) + u64::from(lit.negated());
    mix((code + 1).wrapping_mul(0x9e37_79b9_7f4a_7c15))
}

/// A number that depends on all bits of the one.
#[tactic(auto, unfolding(crate::specs::Fingerprint::mixed))]
fn mix(number: u64) -> u64
    ensures { result ≡ mixed number }
{
    let half = mix_once(number, 30, 0xbf58_476d_1ce4_e5b9);
    mix_once(half, 27, 0x94d0_49bb_1331_11eb)
}

/// The number with its upper bits mixed into the lower ones, times the factor.
#[tactic(auto, unfolding(crate::specs::Fingerprint::mixed_once))]
fn mix_once(number: u64, by: u32, factor: u64) -> u64
    requires { by < 64 }
    ensures { result ≡ mixed_once number by factor }
{
    (number ^ (number >> by)).wrapping_mul(factor)
}
