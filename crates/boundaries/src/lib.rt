// What the record of a boundary says.
#![tactic(auto)]

ghost use Rattle.std.specs.Prelude.{◌≡◌, ◌&&◌, eqb};
ghost use Rattle.boundaries.specs.Boundaries.{interruption_of, unused_zero, boundary_of, Recordable, Canonical};

use steps::{Interruption, Step, Transfer};

// The interruption of a code: there are seven.
#[tactic(auto, unfolding(crate::specs::Boundaries::interruption_of))]
fn interruption_of(code: u8, output: Transfer, index: u32) -> Option<Interruption>
    ensures { result ≡ interruption_of code output index }
{
    Some(match code {
        0 => Interruption::None,
        1 => Interruption::Input,
        2 => Interruption::Output(output),
        3 => Interruption::StringInput(index),
        4 => Interruption::StringOutput(output, index),
        5 => Interruption::RepInput(index),
        6 => Interruption::RepOutput(output, index),
        _ => return None,
    })
}

fn is_zero(t: Transfer) -> bool
    ensures { result ≡ (eqb t.port 0 && eqb t.size 0 && eqb t.value 0) }
{
    t == Transfer {
        port: 0,
        size: 0,
        value: 0,
    }
}

// Whether the fields that an interruption doesn't use are zero.
#[tactic(auto, unfolding(crate::specs::Boundaries::unused_zero))]
fn unused_are_zero(i: Interruption, t: Transfer, index: u32) -> bool
    ensures { result ≡ unused_zero i t index }
{
    match i {
        Interruption::None | Interruption::Input => is_zero(t) && index == 0,
        Interruption::Output(_) => index == 0,
        Interruption::StringInput(_) | Interruption::RepInput(_) => is_zero(t),
        Interruption::StringOutput(..) | Interruption::RepOutput(..) => true,
    }
}

// The step that a body says. Past its end a byte counts as 0.
#[tactic(auto, unfolding(crate::specs::Boundaries::boundary_of))]
pub fn boundary(body: &[u8]) -> Step
    ensures { result ≡ boundary_of body.now }
{
    let code = fields::number(body, 5);
    let current = fields::number(body, 1);
    let output = Transfer {
        port: fields::number(body, 6),
        size: fields::number(body, 8),
        value: fields::number(body, 9),
    };
    let index = fields::number(body, 13);
    match interruption_of(code, output, index) {
        Some(interruption) if unused_are_zero(interruption, output, index) => Step::Boundary {
            smi: fields::number(body, 0),
            current,
            interruption,
        },
        _ => Step::MalformedBoundary,
    }
}

// No code of the model: it holds the gate to what the rule is for, both ways.
fn laws(body: &[u8])
    ensures { Recordable × Canonical body.now }
{}
