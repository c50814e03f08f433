// Policies whose diagrams, tables and faults are known: one function stands for all of them.
#![tactic(auto)]

ghost use Rattle.worked.specs.Cases.{WorkedCases};

// Every worked case comes out as it is written down.
pub fn the_worked_cases_hold()
    ensures { WorkedCases }
{}
