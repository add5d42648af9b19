//! What a session stores, and the reply to a line from it.

ghost use Rattle.std.specs.Prelude.{◌≡◌, ◌≢◌, ◌≤◌, ℕ, [], ◌++◌, false, List, Some, None, IsTrue, All, length, map, nat_le, Ok, OnOk, OnErr, IfOk};
ghost use Rattle.std.specs.List.{list_all};
ghost use Rattle.std.specs.Int.RustNames.{unsigned_abs};
ghost use Rattle.craig_script.specs.Reading.{IsParsedAs, is_within, part_limit, variable_limit};
ghost use Rattle.craig_script.specs.declared.command.Command.{Command};
ghost use Rattle.craig_spec.specs.Appended.{AppendsOnly};
ghost use Rattle.craig_top.specs.Appended.{AppendsText};
ghost use Rattle.craig_top.specs.Formats.{greatest_named};
ghost use Rattle.craig_top.specs.GivenState.{reading, next, obeyed, unmarked};
ghost use Rattle.craig_top.specs.LastRefutation.{view_before_lines};
ghost use Rattle.craig_top.specs.Naming.{named_assumptions};
ghost use Rattle.craig_top.specs.Reply.{Reply, RepliesTo};
ghost use Rattle.craig_top.specs.Stored.{IsAdmitted, IsKept, IsSameButForRanges, given_state, seen};
ghost use Rattle.craig_spec.specs.Chain.{IsUnforgotten};
ghost use Rattle.craig_top.specs.RestsOn.{IsEmptyAt, RestsOn};
ghost use Rattle.craig_top.specs.Sides.{with_assumed};
ghost use Rattle.craig_top.specs.StoredReplies.{IsLineReplyStored, IsCommandReplyStored, IsRefutedStored, IsSolveReplyStored};
ghost use Rattle.craig_top.specs.Values.{IsOver};
ghost use Rattle.craig_top.specs.AsRead.{IsAsRead};

use crate::assumptions::{assumptions_at, dense_assumptions};
use crate::choices::{Choices, chosen_cuts, mark_of};
use crate::clause::dense_clause;
use crate::greatest::{greatest_assumed, greatest_variable};
use crate::lemmas::append_lemmas;
use crate::material::Material;
use crate::refutation::append_refutation;
use crate::reply::{OK_SIZE, append_ok, append_refusal};
use crate::settings::Settings;
use crate::sides::{note_assumptions, note_clause, put_back};
use crate::verdict::append_values;
use craig_base::{ClauseId, Lit, Names, Part};
use craig_label::Sides;
use craig_proof::ChainStore;
use craig_script::{Command, CutWord, Line, LineFault, admit, parse};
use craig_solver::{Answer, Solver};
use std::alloc::{AllocError, Global};

/// The names of the variables, the sides of the accepted clauses, and the solver that holds them.
#[derive(Drop)]
pub struct Stored {
    /// Where memory comes from.
    alloc: Global,
    /// The names of the dense variables.
    pub names: Names,
    /// The sides of the accepted clauses, over the dense variables, and the number of parts.
    pub sides: Sides,
    /// What the commands have set.
    pub choices: Choices,
    /// The accepted clauses over the dense variables, and the refutations that are kept.
    pub solver: Solver<ChainStore>,
    /// The greatest script variable of the accepted clauses, or 0.
    pub greatest: u32,
}

impl Stored {
    /// No clause, so many parts and the settings of the start. It takes no memory.
    pub fn new(alloc: Global, parts: u16, settings: Settings) -> Stored
        requires parts { 1 ≤ parts }
        requires limit { settings.limit ≢ Some 0 }
        ensures kept { IsKept result }
        ensures seen { seen result false ≡ view_before_lines (record { settings = unmarked parts settings; accepted = [] }) }
    {
        Stored {
            alloc,
            names: Names::new(alloc),
            sides: Sides::new(alloc, parts),
            choices: Choices::new(alloc, settings),
            solver: Solver::new(alloc, ChainStore::new(alloc)),
            greatest: 0,
        }
    }

    /// Appends the reply to a line, and goes on to the state after it. After an error the given state is as before.
    #[tactic(auto, unfolding(crate::specs::Reply::Reply, crate::specs::GivenState::next))]
    pub fn answer(&mut self, line: &Line, out: &mut Vec<u8>) -> Result<(), AllocError>
        requires { IsKept self.old }
        ensures kept { OnOk result (IsKept self.new) }
        ensures reply { OnOk result (AppendsText out.old.items out.new.items (Reply (given_state self.old) line.now)) }
        ensures refutation { OnOk result (AppendsText out.old.items out.new.items (IsLineReplyStored self.old self.new line.now)) }
        ensures state { OnOk result (given_state self.new ≡ next (given_state self.old) line.now) }
        ensures unchanged { OnErr result (given_state self.new ≡ given_state self.old) }
        ensures appends { AppendsOnly out.old.items out.new.items }
    {
        match self.read(line) {
            Ok(command) => self.obey(command, out),
            Err(LineFault::Refused(refusal)) => append_refusal(out, refusal),
            Err(LineFault::NoMemory(error)) => Err(error),
        }
    }

    /// The command of a line, or the first reason to refuse it.
    fn read(&self, line: &Line) -> Result<Command, LineFault>
        ensures reading { IsParsedAs result (reading (given_state self.now) line.now) }
        ensures admitted { IfOk result (λ command. IsAdmitted self.now command) }
        ensures as_read { IfOk result IsAsRead }
    {
        let command = parse(self.alloc, line)?;
        match admit(
            self.sides.parts(),
            !self.solver.accepted().is_empty(),
            &command,
        ) {
            Ok(()) => Ok(command),
            Err(refusal) => Err(LineFault::Refused(refusal)),
        }
    }

    /// Carries out a command that was admitted, and appends the reply to it.
    fn obey(&mut self, command: Command, out: &mut Vec<u8>) -> Result<(), AllocError>
        requires kept { IsKept self.old }
        requires admitted { IsAdmitted self.old command }
        requires as_read { IsAsRead command }
        ensures kept { OnOk result (IsKept self.new) }
        ensures reply { OnOk result (AppendsText out.old.items out.new.items (RepliesTo (given_state self.old) command)) }
        ensures refutation { OnOk result (AppendsText out.old.items out.new.items (IsCommandReplyStored self.old self.new command)) }
        ensures state { OnOk result (given_state self.new ≡ obeyed (given_state self.old) command) }
        ensures unchanged { OnErr result (given_state self.new ≡ given_state self.old) }
        ensures appends { AppendsOnly out.old.items out.new.items }
    {
        match command {
            Command::Nothing => Ok(()),
            Command::Solve(pairs) => self.solve(pairs.as_slice(), out),
            change => {
                out.reserve(OK_SIZE)?;
                self.change(change)?;
                append_ok(out);
                Ok(())
            }
        }
    }

    /// Carries out a command that changes the given state. After an error the given state is as before.
    fn change(&mut self, command: Command) -> Result<(), AllocError>
        requires kept { IsKept self.old }
        requires admitted { IsAdmitted self.old command }
        requires as_read { IsAsRead command }
        ensures kept { OnOk result (IsKept self.new) }
        ensures state { OnOk result (given_state self.new ≡ obeyed (given_state self.old) command) }
        ensures unchanged { OnErr result (given_state self.new ≡ given_state self.old) }
    {
        match command {
            Command::Nothing | Command::Solve(_) => Ok(()),
            Command::Parts(count) => {
                self.divide(count);
                Ok(())
            }
            Command::Add { part, lits } => self.accept(part, lits.as_slice()),
            Command::System(system) => {
                self.choices.system = system;
                Ok(())
            }
            Command::Mark { name, mark } => {
                self.choices.marks.push((name as u32, mark_of(mark)))?;
                Ok(())
            }
            Command::Limit(limit) => {
                self.choices.limit = limit;
                Ok(())
            }
            Command::Format(format) => {
                self.choices.format = format;
                Ok(())
            }
            Command::Cuts(CutWord::All) => {
                self.choices.cuts = None;
                Ok(())
            }
            Command::Cuts(CutWord::Chosen(numbers)) => {
                // of 16 bits, and no cut is above it
                let _ = self.sides.parts();
                self.choices.cuts = Some(chosen_cuts(self.alloc, numbers.as_slice())?);
                Ok(())
            }
        }
    }

    /// Sets the number of parts, while no clause is accepted, and chooses all cuts.
    fn divide(&mut self, count: u64)
        requires kept { IsKept self.old }
        requires count { IsTrue (is_within part_limit count) }
        requires none { self.old.solver.accepted ≡ [] }
        ensures kept { IsKept self.new }
        ensures state { given_state self.new ≡ obeyed (given_state self.old) (Command.Parts count) }
    {
        self.sides = Sides::new(self.alloc, count as u16);
        self.choices.cuts = None;
    }

    /// Accepts a clause as it was written. After an error it is not accepted.
    fn accept(&mut self, part: u64, literals: &[i64]) -> Result<(), AllocError>
        requires kept { IsKept self.old }
        requires part { part ≤ self.old.sides.parts }
        requires variables { IsTrue (list_all (is_within variable_limit) (map unsigned_abs literals.now)) }
        ensures kept { OnOk result (IsKept self.new) }
        ensures state { OnOk result (given_state self.new ≡ obeyed (given_state self.old) (Command.Add part literals.now)) }
        ensures unchanged { OnErr result (given_state self.new ≡ given_state self.old) }
    {
        // of 16 bits, and the part is at most that
        let _ = self.sides.parts();
        let part = Part(part as u16);
        let clause = dense_clause(self.alloc, &mut self.names, literals)?;
        self.solver.reach(self.names.len())?;
        let dense = clause.as_slice();
        note_clause(&mut self.sides, part, dense)?;
        self.solver.add(part, dense)?;
        self.greatest = self.greatest.max(greatest_variable(literals));
        Ok(())
    }

    /// Solves the accepted clauses under the assumptions that the pairs write, and appends the reply.
    fn solve(&mut self, pairs: &[(u64, i64)], out: &mut Vec<u8>) -> Result<(), AllocError>
        requires kept { IsKept self.old }
        requires parts { IsTrue (list_all (λ pair. nat_le pair.0 self.old.sides.parts) pairs.now) }
        requires variables { IsTrue (list_all (is_within variable_limit) (map (λ pair. unsigned_abs pair.1) pairs.now)) }
        ensures kept { OnOk result (IsKept self.new) }
        ensures reply { OnOk result (AppendsText out.old.items out.new.items (IsSolveReplyStored self.old self.new pairs.now)) }
        ensures state { given_state self.new ≡ given_state self.old }
        ensures appends { AppendsOnly out.old.items out.new.items }
    {
        // of 16 bits, and no part is above it
        let _ = self.sides.parts();
        let assumptions = dense_assumptions(self.alloc, &mut self.names, pairs)?;
        self.solver.reach(self.names.len())?;
        let answer = self.solver.solve(&assumptions, self.choices.limit)?;
        match &answer {
            Answer::Model(values) => append_values(
                self.alloc,
                &self.names,
                &self.sides,
                &assumptions,
                values,
                out,
            ),
            Answer::Failed { root, places } => {
                let failed = assumptions_at(self.alloc, &assumptions, places)?;
                let top = self.greatest.max(greatest_assumed(pairs));
                self.refute(&failed, *root, top, out)
            }
            Answer::Limit(lemmas) => append_lemmas(self.alloc, &self.names, lemmas, out),
        }
    }

    /// Appends the reply that refutes the accepted clauses and the failed assumptions by the root of the last answer. No
    /// variable of these is above the top.
    fn refute(
        &mut self,
        failed: &[(Part, Lit)],
        root: ClauseId,
        top: u32,
        out: &mut Vec<u8>,
    ) -> Result<(), AllocError>
        requires kept { IsKept self.old }
        requires alive { self.old.solver.dead ≡ false }
        requires over { IsOver (length self.old.names) (map (λ a. a.1) failed.now) }
        requires parts { All (λ a. a.0.0 ≤ self.old.sides.parts) failed.now }
        requires root { IsUnforgotten self.old.solver.tracer.told.steps root.0 }
        requires empty { IsEmptyAt self.old.solver.tracer.told.steps root.0 }
        requires rests { RestsOn (with_assumed self.old.solver.accepted failed.now) self.old.solver.tracer.told root.0 }
        requires top { greatest_named (given_state self.old) (named_assumptions self.old.names failed.now) ≤ top }
        ensures kept { OnOk result (IsKept self.new) }
        ensures same { IsSameButForRanges self.old self.new }
        ensures reply { OnOk result (AppendsText out.old.items out.new.items (IsRefutedStored self.old failed.now root.0 top)) }
        ensures appends { AppendsOnly out.old.items out.new.items }
    {
        craig_proof::laws::steps_are_found();
        // what holds of all names is known from here on
        let _ = self.names.len();
        let before = note_assumptions(self.alloc, &mut self.sides, failed)?;
        let material = Material {
            alloc: self.alloc,
            names: &self.names,
            clauses: self.solver.accepted(),
            choices: &self.choices,
            failed,
            sides: &self.sides,
            store: self.solver.tracer(),
            top,
        };
        append_refutation(&material, root, out)?;
        put_back(&mut self.sides, before)?;
        Ok(())
    }
}
