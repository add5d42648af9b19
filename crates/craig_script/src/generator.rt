//! The generator: scripts about a counter, one for each number of steps.
//!
//! The counter has seven bits, starts at 0 and moves by 1 or 2 at each step, by a free input. Each step is a part of its
//! own, and a last part says that the counter ends above twice the number of steps, which it can't.

ghost use Rattle.std.specs.Prelude.{◌≡◌, ◌+◌, ◌*◌, ◌<◌, ◌≤◌, count_by, List, [], ◌∷◌, ◌++◌, map, IfOk, OnOk};
ghost use Rattle.std.specs.List.{filter, flat_map, range_with_len};
ghost use Rattle.craig_script.specs.declared.command.Command.TheVariants.{Add};
ghost use Rattle.craig_script.specs.Generator.{adds_clause, end_bound, end_clause, end_clauses, first_helper, generated, has_bit, higher_bit, in_part, inner_bit, lowest_bit, next_helper, number_said, start_clause, state_bit, step_commands, step_helper, step_input};

use self::Said::{Fails, Holds};
use crate::command::Command;
use crate::commands::Commands;
use crate::numbers::Numbers;
use crate::pairs::Pairs;
use std::alloc::{AllocError, Global};

/// What a clause says of a variable.
#[derive(Clone, Copy)]
enum Said {
    /// It is true.
    Holds(u32),
    /// It is false.
    Fails(u32),
}

impl Said {
    /// The number that a script has for it.
    fn number(self) -> i64
        ensures { result ≡ number_said self }
    {
        match self {
            Holds(variable) => i64::from(variable),
            Fails(variable) => -i64::from(variable),
        }
    }
}

/// The script of so many steps, from 1 to 60: the number of parts, the clauses, which are unsatisfiable, and a solve
/// without assumptions. Only want of memory is a cause of an error.
pub fn make(alloc: Global, steps: u32) -> Result<Commands, AllocError>
    requires some { 1 ≤ steps }
    requires few { steps ≤ 60 }
    ensures { IfOk result (λ script. script ≡ generated steps) }
{
    let mut script = Commands::new(alloc);
    script.push(Command::Parts(u64::from(steps) + 1))?;
    append_start(alloc, &mut script)?;
    append_steps(alloc, &mut script, steps)?;
    append_end(alloc, &mut script, steps)?;
    script.push(Command::Solve(Pairs::new(alloc)))?;
    Ok(script)
}

/// How many clauses the script of so many steps, from 1 to 60, adds.
pub fn clause_count(steps: u32) -> u32
    requires some { 1 ≤ steps }
    requires few { steps ≤ 60 }
    ensures { result ≡ count_by adds_clause (generated steps) }
{
    crate::laws::generated_scripts();
    7 + 46 * steps + end_bound(steps).count_ones()
}

/// The greatest variable that the script of so many steps, from 1 to 60, names.
pub fn greatest_variable(steps: u32) -> u32
    requires some { 1 ≤ steps }
    requires few { steps ≤ 60 }
    ensures { result ≡ 14 * steps + 7 }
{
    14 * steps + 7
}

/// At the start no bit is set.
fn append_start(alloc: Global, script: &mut Commands) -> Result<(), AllocError>
    ensures { OnOk result (script.new ≡ script.old ++ in_part 1 (map start_clause (range_with_len 0 7))) }
{
    for bit in 0..7 {
        append_clause(alloc, script, 1, &[Fails(state_bit(0, bit))])?;
    }
    Ok(())
}

/// The clauses of the steps, each step a part.
fn append_steps(alloc: Global, script: &mut Commands, steps: u32) -> Result<(), AllocError>
    requires { steps ≤ 60 }
    ensures { OnOk result (script.new ≡ script.old ++ flat_map step_commands (range_with_len 0 steps)) }
{
    for before in 0..steps {
        append_step(alloc, script, before)?;
    }
    Ok(())
}

/// The clauses of the step that comes after so many others.
fn append_step(alloc: Global, script: &mut Commands, before: u32) -> Result<(), AllocError>
    requires { before < 60 }
    ensures { OnOk result (script.new ≡ script.old ++ step_commands before) }
{
    append_first_helper(alloc, script, before)?;
    append_lowest_bit(alloc, script, before)?;
    append_inner_bits(alloc, script, before)?;
    append_higher_bit(alloc, script, before, 6)
}

/// The bits between the lowest and the highest, each with the helper of the one above it.
fn append_inner_bits(alloc: Global, script: &mut Commands, before: u32) -> Result<(), AllocError>
    requires { before < 60 }
    ensures { OnOk result (script.new ≡ script.old ++ in_part (before + 1) (flat_map (inner_bit before) (range_with_len 1 5))) }
{
    for bit in 1..6 {
        append_higher_bit(alloc, script, before, bit)?;
        append_next_helper(alloc, script, before, bit)?;
    }
    Ok(())
}

/// The first helper is true where the input or the lowest bit is.
fn append_first_helper(alloc: Global, script: &mut Commands, before: u32) -> Result<(), AllocError>
    requires { before < 60 }
    ensures { OnOk result (script.new ≡ script.old ++ in_part (before + 1) (first_helper before)) }
{
    let part = before + 1;
    let helper = step_helper(before, 1);
    let input = step_input(before);
    let bit = state_bit(before, 0);
    append_clause(
        alloc,
        script,
        part,
        &[Fails(helper), Holds(input), Holds(bit)],
    )?;
    append_clause(alloc, script, part, &[Holds(helper), Fails(input)])?;
    append_clause(alloc, script, part, &[Holds(helper), Fails(bit)])
}

/// The lowest bit is set where it was as the input.
fn append_lowest_bit(alloc: Global, script: &mut Commands, before: u32) -> Result<(), AllocError>
    requires { before < 60 }
    ensures { OnOk result (script.new ≡ script.old ++ in_part (before + 1) (lowest_bit before)) }
{
    let part = before + 1;
    let after = state_bit(before + 1, 0);
    let bit = state_bit(before, 0);
    let input = step_input(before);
    append_clause(
        alloc,
        script,
        part,
        &[Holds(after), Holds(bit), Holds(input)],
    )?;
    append_clause(
        alloc,
        script,
        part,
        &[Holds(after), Fails(bit), Fails(input)],
    )?;
    append_clause(
        alloc,
        script,
        part,
        &[Fails(after), Holds(bit), Fails(input)],
    )?;
    append_clause(
        alloc,
        script,
        part,
        &[Fails(after), Fails(bit), Holds(input)],
    )
}

/// A higher bit is set where it was other than its helper.
fn append_higher_bit(
    alloc: Global,
    script: &mut Commands,
    before: u32,
    place: u32,
) -> Result<(), AllocError>
    requires early { before < 60 }
    requires within { place ≤ 6 }
    ensures { OnOk result (script.new ≡ script.old ++ in_part (before + 1) (higher_bit before place)) }
{
    let part = before + 1;
    let after = state_bit(before + 1, place);
    let bit = state_bit(before, place);
    let helper = step_helper(before, place);
    append_clause(
        alloc,
        script,
        part,
        &[Fails(after), Holds(bit), Holds(helper)],
    )?;
    append_clause(
        alloc,
        script,
        part,
        &[Fails(after), Fails(bit), Fails(helper)],
    )?;
    append_clause(
        alloc,
        script,
        part,
        &[Holds(after), Fails(bit), Holds(helper)],
    )?;
    append_clause(
        alloc,
        script,
        part,
        &[Holds(after), Holds(bit), Fails(helper)],
    )
}

/// The helper of the bit above is true where the bit and its helper are.
fn append_next_helper(
    alloc: Global,
    script: &mut Commands,
    before: u32,
    place: u32,
) -> Result<(), AllocError>
    requires early { before < 60 }
    requires within { place ≤ 5 }
    ensures { OnOk result (script.new ≡ script.old ++ in_part (before + 1) (next_helper before place)) }
{
    let part = before + 1;
    let next = step_helper(before, place + 1);
    let bit = state_bit(before, place);
    let helper = step_helper(before, place);
    append_clause(alloc, script, part, &[Fails(next), Holds(bit)])?;
    append_clause(alloc, script, part, &[Fails(next), Holds(helper)])?;
    append_clause(
        alloc,
        script,
        part,
        &[Holds(next), Fails(bit), Fails(helper)],
    )
}

/// The counter ends above twice the number of steps.
fn append_end(alloc: Global, script: &mut Commands, steps: u32) -> Result<(), AllocError>
    requires { steps ≤ 60 }
    ensures { OnOk result (script.new ≡ script.old ++ in_part (steps + 1) (end_clauses steps)) }
{
    for bit in (0..7).rev() {
        append_end_bit(alloc, script, steps, bit)?;
    }
    Ok(())
}

/// The clause of a bit that the bound has.
fn append_end_bit(
    alloc: Global,
    script: &mut Commands,
    steps: u32,
    bit: u32,
) -> Result<(), AllocError>
    requires few { steps ≤ 60 }
    requires within { bit ≤ 6 }
    ensures { OnOk result (script.new ≡ script.old ++ in_part (steps + 1) (map (end_clause steps) (filter (has_bit (end_bound steps)) (bit ∷ [])))) }
{
    if !has_bit(end_bound(steps), bit) {
        return Ok(());
    }
    let lits = end_clause(alloc, steps, bit)?;
    append_lits(script, steps + 1, lits)
}

/// The counter ends with this bit, or with a higher one that the bound lacks.
fn end_clause(alloc: Global, steps: u32, bit: u32) -> Result<Numbers, AllocError>
    requires few { steps ≤ 60 }
    requires within { bit ≤ 6 }
    ensures { IfOk result (λ lits. lits ≡ end_clause steps bit) }
{
    let mut lits = Numbers::new(alloc);
    lits.push(Holds(state_bit(steps, bit)).number())?;
    for above in bit + 1..7 {
        if !has_bit(end_bound(steps), above) {
            lits.push(Holds(state_bit(steps, above)).number())?;
        }
    }
    Ok(lits)
}

/// A clause of a part.
fn append_clause(
    alloc: Global,
    script: &mut Commands,
    part: u32,
    lits: &[Said],
) -> Result<(), AllocError>
    ensures { OnOk result (script.new ≡ script.old ++ Add part (map number_said lits.now) ∷ []) }
{
    let lits = numbers_said(alloc, lits)?;
    append_lits(script, part, lits)
}

/// A clause of a part, whose literals are numbers.
fn append_lits(script: &mut Commands, part: u32, lits: Numbers) -> Result<(), AllocError>
    ensures { OnOk result (script.new ≡ script.old ++ Add part lits ∷ []) }
{
    script.push(Command::Add {
        part: u64::from(part),
        lits,
    })
}

/// The numbers that a script has for the literals.
fn numbers_said(alloc: Global, lits: &[Said]) -> Result<Numbers, AllocError>
    ensures { IfOk result (λ numbers. numbers ≡ map number_said lits.now) }
{
    let mut numbers = Numbers::new(alloc);
    for lit in lits {
        numbers.push(lit.number())?;
    }
    Ok(numbers)
}

/// The least that the counter is said to end with.
fn end_bound(steps: u32) -> u32
    requires { steps ≤ 60 }
    ensures { result ≡ end_bound steps }
{
    2 * steps + 1
}

/// Whether a bit of the number is set.
fn has_bit(number: u32, bit: u32) -> bool
    requires { bit < 32 }
    ensures { result ≡ has_bit number bit }
{
    (number >> bit) % 2 == 1
}

/// The variable of a bit of the state, the lowest bit 0, after so many steps.
fn state_bit(steps: u32, bit: u32) -> u32
    requires few { steps ≤ 60 }
    requires within { bit ≤ 6 }
    ensures { result ≡ state_bit steps bit }
{
    14 * steps + 1 + bit
}

/// The variable of the input of the step that comes after so many others.
fn step_input(before: u32) -> u32
    requires { before < 60 }
    ensures { result ≡ step_input before }
{
    14 * before + 8
}

/// The variable of a helper of that step, the first helper 1.
fn step_helper(before: u32, helper: u32) -> u32
    requires early { before < 60 }
    requires within { helper ≤ 6 }
    ensures { result ≡ step_helper before helper }
{
    14 * before + 8 + helper
}
