//! Rows of `craig_label`: the sides of noted variables.

use craig_base::{Part, Var};
use craig_label::{Side, Sides};
use std::test::Fail;

#[test]
fn sides_at_each_cut(rt: HostRuntime) -> Result<(), Fail> {
    let mut noted = Sides::new(rt.alloc(), 3);
    noted.note(Var(0), Part(1))?;
    noted.note(Var(0), Part(2))?;
    noted.note(Var(1), Part(3))?;
    let sides = noted.copy()?;
    assert_eq!(rt; sides.parts(), 3);
    for (cut, expected) in [
        (1, [Side::Shared, Side::BLocal, Side::Absent]),
        (2, [Side::ALocal, Side::BLocal, Side::Absent]),
        (3, [Side::ALocal, Side::ALocal, Side::Absent]),
    ] {
        let found = [
            sides.class(Var(0), cut),
            sides.class(Var(1), cut),
            sides.class(Var(2), cut),
        ];
        assert_eq!(rt; found, expected);
    }
    Ok(())
}
