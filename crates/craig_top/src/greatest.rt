//! The greatest variable of numbers that stand for literals.

ghost use Rattle.std.specs.Prelude.{◌≡◌, IsTrue, map};
ghost use Rattle.std.specs.List.{list_all};
ghost use Rattle.std.specs.Int.RustNames.{unsigned_abs};
ghost use Rattle.craig_script.specs.Reading.{is_within, variable_limit};
ghost use Rattle.craig_spec.specs.DimacsText.{greatest_of_clause};
ghost use Rattle.craig_top.specs.GivenState.{script_literal};

/// The greatest variable of the literals, or 0 where there are none.
pub fn greatest_variable(literals: &[i64]) -> u32
    requires { IsTrue (list_all (is_within variable_limit) (map unsigned_abs literals.now)) }
    ensures { result ≡ greatest_of_clause (map script_literal literals.now) }
{
    let mut greatest = 0;
    for literal in literals {
        greatest = (literal.unsigned_abs() as u32).max(greatest);
    }
    greatest
}

/// The greatest variable of the assumed literals, or 0 where there are none.
pub fn greatest_assumed(pairs: &[(u64, i64)]) -> u32
    requires { IsTrue (list_all (is_within variable_limit) (map (λ pair. unsigned_abs pair.1) pairs.now)) }
    ensures { result ≡ greatest_of_clause (map (λ pair. script_literal pair.1) pairs.now) }
{
    let mut greatest = 0;
    for pair in pairs {
        greatest = (pair.1.unsigned_abs() as u32).max(greatest);
    }
    greatest
}
