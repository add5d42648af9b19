//! Laws of partial interpolants over the told steps alone, whichever edges stand for them. The functions do nothing.
ghost use Rattle.craig_itp.specs.Walk.{NeededPartsTellAll};
ghost use Rattle.craig_itp.specs.PartialValues.{CutsFollow, LabellingsImply, MarksByStrength, OutermostAreConstant, OutputsFollow, PartialValuesByRules, PartialValuesOfNeededPart};

/// The values by which partial interpolants are defined are those that the rules give at each step, and no others are.
/// The value of a new step is by the values before it, which stay, also when an id is forgotten or steps are given up.
/// A step that stands in two lists has one value.
pub fn partial_values_by_steps()
    ensures { PartialValuesByRules }
{
    craig_proof::laws::told_steps_stand();
}

/// The part of the steps that a root needs gives each needed id, the root among them, the value that all steps give.
pub fn partial_values_of_the_needed_part()
    ensures { PartialValuesOfNeededPart }
{}

/// Two labellings of one refutation, the first nowhere above the second: the partial interpolant of a clause by the
/// first implies that by the second, together with the originals under it that are leaves of side A by the second
/// alone, and with the negations of its literals that are labelled AB or B by the first and AB or A by the second. The
/// empty clause has no literal.
///
/// Where all is labelled B and there is no leaf of side A, each value is true, and where all is labelled A and each leaf
/// is of side A, false.
pub fn two_labellings()
    ensures imply { LabellingsImply }
    ensures outermost { OutermostAreConstant }
{}

/// The partial interpolants of one refutation at its cuts: each follows from the originals of side A, contradicts those
/// of side B, and implies that of a later cut, together with the originals between the two. No assignment makes all
/// originals true.
pub fn cuts_of_a_refutation()
    ensures { CutsFollow }
{}

/// The same of the outputs, which are the constant true at cut 0 and the constant false behind all parts.
pub fn outputs_of_a_refutation()
    ensures { OutputsFollow }
{}

/// At one cut, marks that are nowhere above others give an interpolant that implies the one by the others.
pub fn marks_by_strength()
    ensures { MarksByStrength }
{}

/// The part of the steps that a root needs ends in the root, and interpolants by it are interpolants by all steps. So
/// [`outputs`](crate::outputs) may be asked for more than one system over steps that were found once.
pub fn needed_parts_tell_all()
    ensures { NeededPartsTellAll }
{
    craig_proof::laws::needed_part_stands();
}
