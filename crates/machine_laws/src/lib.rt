// Theorems that state a machine's rules a second time, by raw bits and byte by byte, and no code: specs/ has their statements, and proofs/ their
// proofs. A rule and its code, changed alike, are refused here.
#![tactic(auto)]

ghost use Rattle.machine_laws.specs.Valid.{ValidByBits, PortsByConfig};
ghost use Rattle.machine_laws.specs.Cells.{WholeByCells, ReadsByCells, WritesByCells, OperandsByCells};

// These hold the gate to them.
fn bits()
    ensures valid { ValidByBits }
    ensures ports { PortsByConfig }
{}

fn accesses()
    ensures whole { WholeByCells }
    ensures reads { ReadsByCells }
    ensures writes { WritesByCells }
    ensures operands { OperandsByCells }
{}
