// The P lines of the bench sheet: specs/Lines.antt has the table and what its rows state, proofs/Sheet.antt the one proof.
#![tactic(auto)]

ghost use Rattle.bench.specs.Lines.{ArmedAsked, BeforeAsked, SheetHolds};

// No code of the model: it holds the gate to the lemma, since a function is proved only with all that it ensures.
fn theorem()
    ensures holds { SheetHolds }
    ensures armed { ArmedAsked }
    ensures before { BeforeAsked }
{}
