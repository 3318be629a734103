// Laws of the generated script.
ghost use Rattle.ve_gen.specs.Laws.{HasTwoLinesMore, ScriptHasItsLines};

/// The lines of the script are those that it is made of.
pub fn script_has_its_lines()
    ensures { ScriptHasItsLines }
{}

/// There is a line for each edit, and two more.
pub fn script_has_two_lines_more()
    ensures { HasTwoLinesMore }
{}
