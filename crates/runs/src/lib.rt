// Lists of steps, and no code: specs/ has the definition of a run, and what it is for.
#![tactic(auto)]

ghost use Rattle.runs.specs.Runs.{StepsInTurn};

// It holds the gate to that, since a function is proved only with all that it ensures.
fn laws()
    ensures { StepsInTurn }
{}
