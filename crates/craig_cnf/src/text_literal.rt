//! A literal of a text.
ghost use Rattle.std.specs.Prelude.{◌≡◌};
ghost use Rattle.craig_spec.specs.Literal.{negation};

use craig_base::Lit;
use std::marker::Model;

/// A variable of a text or its negation. A fresh variable may need more than 32 bits.
#[derive(Clone, Copy)]
pub(crate) struct TextLiteral {
    // the number that is printed
    variable: u64,
    // whether a minus sign stands in front
    negated: bool,
}

impl Model for TextLiteral {
    ghost use Rattle.craig_spec.specs.Literal.{Literal};

    ghost Value = { Literal };

    ghost view = { λ l. record { var = l.variable; negated = l.negated } };

    ghost inverse = { λ l. record { variable = l.var; negated = l.negated } };
}

impl TextLiteral {
    /// The literal of the variable: its negation, or the variable itself.
    pub(crate) fn new(variable: u64, negated: bool) -> TextLiteral
        ensures { result ≡ record { var = variable; negated = negated } }
    {
        TextLiteral { variable, negated }
    }

    /// The same literal, whose variable is one of a script.
    pub(crate) fn of(literal: Lit) -> TextLiteral
        ensures { result ≡ literal }
    {
        TextLiteral {
            variable: u64::from(literal.var().0),
            negated: literal.negated(),
        }
    }

    /// The number of the variable.
    pub(crate) fn variable(self) -> u64
        ensures { result ≡ self.var }
    {
        self.variable
    }

    /// Whether the literal is the negation of its variable.
    pub(crate) fn negated(self) -> bool
        ensures { result ≡ self.negated }
    {
        self.negated
    }

    /// The literal that is true exactly where this one is false.
    pub(crate) fn not(self) -> TextLiteral
        ensures { result ≡ negation self }
    {
        TextLiteral {
            variable: self.variable,
            negated: !self.negated,
        }
    }
}
