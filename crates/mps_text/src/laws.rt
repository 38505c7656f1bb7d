//! Laws about the texts of programs, as the contracts of functions that do nothing.

ghost use Rattle.flow_model.specs.Programs.{IsProgram};
ghost use Rattle.mps_text.specs.Worked.{Examples, three_units};
ghost use Rattle.mps_text.specs.Laws.{WrittenIsRead, MeaningsKeepTheRules, MeaningsAreGiven};

/// Texts that are worked by hand mean what they should.
pub fn examples_come_out()
    ensures { Examples }
{}

/// What is written for a program that keeps the rules means this program.
pub fn written_is_read()
    ensures { WrittenIsRead }
{}

/// Each program that a text means keeps the rules, so it can be written again.
pub fn meanings_keep_the_rules()
    ensures { MeaningsKeepTheRules }
{}

/// Each program that a text means has the rows, columns, entries and bounds that its lines name and give.
pub fn meanings_are_given()
    ensures { MeaningsAreGiven }
{}

/// The program of the worked text keeps the rules.
pub fn three_units_keep_the_rules()
    ensures { IsProgram three_units }
{}
