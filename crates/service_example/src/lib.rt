// Examples of what the theorems of service ask for, and of what happens without each condition, and no code: specs/ has them, and they are computed.
#![tactic(auto)]

ghost use Rattle.service_example.specs.Example.{ServiceExample, PastInnerExample};
ghost use Rattle.service_example.specs.Needed.{HeaderExample, ModeExample, SegmentsExample};

// These hold the gate to that, since a function is proved only with all that it ensures.
fn examples()
    ensures service { ServiceExample }
    ensures past { PastInnerExample }
{}

fn conditions()
    ensures header { HeaderExample }
    ensures mode { ModeExample }
    ensures segments { SegmentsExample }
{}
