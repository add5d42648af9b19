//! Rows of `craig_base`: literals, lists, names, normal forms and the arena.

use craig_base::{Arena, ClauseId, Clauses, Flags, Lit, Lits, Names, Normal, Values, Var, normal};
use std::test::Fail;

#[test]
fn literals_are_ordered_by_variable_the_positive_one_first(rt: HostRuntime) {
    let ascending = [
        Lit::new(Var(0), false),
        Lit::new(Var(0), true),
        Lit::new(Var(1), false),
        Lit::new(Var(1), true),
        Lit::new(Var(2147483647), false),
        Lit::new(Var(2147483647), true),
    ];
    for pair in ascending.windows(2) {
        assert!(rt; pair[0] < pair[1]);
    }
}

#[test]
fn pushed_literals_stand_in_order(rt: HostRuntime) -> Result<(), Fail> {
    let positive = Lit::new(Var(3), false);
    let mut literals = Lits::new(rt.alloc());
    literals.push(positive.not())?;
    literals.push(positive)?;
    assert_eq!(rt; literals.as_slice(), [positive.not(), positive].as_slice());
    Ok(())
}

#[test]
fn pushed_clauses_stand_in_order(rt: HostRuntime) -> Result<(), Fail> {
    let mut clauses = Clauses::new(rt.alloc());
    for var in [3, 5] {
        let mut clause = Lits::new(rt.alloc());
        clause.push(Lit::new(Var(var), false))?;
        clauses.push(clause)?;
    }
    assert_eq!(rt; clauses.as_slice().len(), 2);
    Ok(())
}

#[test]
fn a_value_is_set_and_the_others_are_false(rt: HostRuntime) -> Result<(), Fail> {
    let mut values = Values::new(rt.alloc(), 2)?;
    values.set(Var(1), true);
    assert!(rt; values.get(Var(1)));
    Ok(())
}

/// Whether the answer is the clause of these literals, or a tautology where none are wanted.
fn is_answer(answer: &Normal, wanted: Option<&[Lit]>) -> bool {
    match (answer, wanted) {
        (Normal::Clause(literals), Some(wanted)) => literals.as_slice() == wanted,
        (Normal::Tautology, None) => true,
        _ => false,
    }
}

#[test]
fn normal_forms_of_short_lists(rt: HostRuntime) -> Result<(), Fail> {
    let v1 = Lit::new(Var(1), false);
    let n1 = Lit::new(Var(1), true);
    let v2 = Lit::new(Var(2), false);
    let n2 = Lit::new(Var(2), true);
    let none = &[v1][..0];
    for (lits, wanted) in [
        ([v2, n1, v2].as_slice(), Some([n1, v2].as_slice())),
        ([v1, n1].as_slice(), None),
        (none, Some(none)),
        ([v1, v1, v1].as_slice(), Some([v1].as_slice())),
        ([n2, v1, n2, v2].as_slice(), None),
        ([n2, n1].as_slice(), Some([n1, n2].as_slice())),
    ] {
        let answer = normal(rt.alloc(), lits)?;
        assert!(rt; is_answer(&answer, wanted));
    }
    Ok(())
}

#[test]
fn names_are_numbered_as_they_come(rt: HostRuntime) -> Result<(), Fail> {
    let mut names = Names::new(rt.alloc());
    for (name, variable) in [(9, Var(0)), (4, Var(1)), (9, Var(0))] {
        assert_eq!(rt; names.dense(name)?, variable);
    }
    assert_eq!(rt; names.len(), 2);
    assert!(rt; (names.find(5), names.name(Var(1))) == (None, 4));
    Ok(())
}

#[test]
fn ids_go_on_after_a_clause_is_let_go(rt: HostRuntime) -> Result<(), Fail> {
    let v0 = Lit::new(Var(0), false);
    let v1 = Lit::new(Var(1), false);
    let v2 = Lit::new(Var(2), false);
    let v3 = Lit::new(Var(3), false);
    let flags = Flags {
        learnt: true,
        kept: false,
        glue: 2,
    };
    let mut arena = Arena::new(rt.alloc());
    let first = arena.add(&[v0, v1], flags)?;
    let second = arena.add(&[v2], flags)?;
    arena.number()?;
    arena.kill(first);
    arena.compact();
    let last = arena.add(&[v3], flags)?;
    assert_eq!(rt; last, ClauseId(3));
    assert!(rt; (arena.live(first), arena.live(second), arena.live(last)) == (false, true, true));
    assert!(rt; (arena.lits(second), arena.lits(last)) == ([v2].as_slice(), [v3].as_slice()));
    Ok(())
}

#[test]
fn ten_clauses_of_which_every_second_goes_are_compacted(rt: HostRuntime) -> Result<(), Fail> {
    let flags = Flags {
        learnt: false,
        kept: false,
        glue: 0,
    };
    let literals = [
        Lit::new(Var(0), false),
        Lit::new(Var(1), true),
        Lit::new(Var(2), false),
    ];
    let row = literals.as_slice();
    let mut arena = Arena::new(rt.alloc());
    for place in 0..10 {
        arena.add(&row[place % 3..], flags)?;
    }
    for place in 0..10 {
        let id = ClauseId(place);
        if place % 2 == 1 && arena.live(id) {
            arena.kill(id);
        }
    }
    arena.compact();
    for place in 0..10 {
        let id = ClauseId(place as u64);
        assert_eq!(rt; arena.live(id), place % 2 == 0);
        if arena.live(id) {
            assert_eq!(rt; arena.lits(id), &row[place % 3..]);
        }
    }
    assert_eq!(rt; arena.given(), 10);
    Ok(())
}
