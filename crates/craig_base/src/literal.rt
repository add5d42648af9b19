//! A literal, and its code of 32 bits.

ghost use Rattle.std.specs.Prelude.{◌≡◌, ◌<◌};
ghost use Rattle.craig_spec.specs.Literal.{negation};

use crate::Var;
use std::marker::Model;

/// A literal: a dense variable or its negation.
///
/// Literals are ordered by variable, and of one variable the positive literal comes first.
#[derive(Clone, Copy, Debug, PartialEq, Eq, PartialOrd, Ord, Hash)]
pub struct Lit {
    // twice the variable, and one more where the literal is negated
    code: u32,
}

impl Model for Lit {
    ghost use Rattle.std.specs.Prelude.{ℕ, ◌<◌, ◌^◌};
    ghost use Rattle.craig_spec.specs.Literal.{Literal};
    ghost use Rattle.craig_base.specs.Literals.{literal_code, literal_of_code};
    ghost use Rattle.craig_base.specs.LiteralCodes.{literal_code-literal_of_code};
    ghost use Rattle.std.proofs.Common.{ap};

    ghost Value = { Literal };

    ghost view = { λ l. literal_of_code l.code };

    ghost invariant = { λ l. l.code < 2 ^ 32 };

    ghost inverse = { λ l. record { code = literal_code l } };

    ghost inverse_ok = { λ a h. ap (λ (n : ℕ). record { code = n }) (literal_code-literal_of_code a.code) };
}

impl Lit {
    /// The literal of the variable: its negation, or the variable itself.
    pub fn new(var: Var, negated: bool) -> Lit
        requires { var.0 < 2147483648 }
        ensures { result ≡ record { var = var.0; negated = negated } }
    {
        Lit {
            code: 2 * var.0 + u32::from(negated),
        }
    }

    /// The variable of the literal.
    pub fn var(self) -> Var
        ensures value { result.0 ≡ self.var }
        ensures below { self.var < 2147483648 }
    {
        Var(self.code / 2)
    }

    /// Whether the literal is the negation of its variable.
    pub fn negated(self) -> bool
        ensures { result ≡ self.negated }
    {
        self.code % 2 == 1
    }

    /// The literal that is true exactly where this one is false.
    pub fn not(self) -> Lit
        ensures { result ≡ negation self }
    {
        Lit {
            code: self.code ^ 1,
        }
    }
}
