#![tactic(auto)]

ghost use Rattle.std.specs.Prelude.{◌≡◌, cond};
ghost use Rattle.fields.specs.Fields.{bit};
ghost use Rattle.nesting.specs.Nesting.{smm_mode, bit_n, with_n, enhanced, entered_settings, resumed_settings, nestable, takes, stays_inside};
ghost use Rattle.nesting.specs.Moving.{OnlyNDetermines, BitsAsked, BitsExamples, OnlyNMoves, NothingMoves, LastMoves};

use settings::Settings;

// Two bits of CCR6.
const SMM_MODE: u8 = 0x01;

const N: u8 = 0x40;

// Whether service can nest: in the later edition with SMM_MODE 1.
#[tactic(auto, unfolding(crate::specs::Nesting::enhanced))]
fn is_enhanced(s: Settings) -> bool
    ensures { result ≡ enhanced s }
{
    s.edition.is_mii() && s.ccr6 & SMM_MODE != 0
}

// The settings with another N where service can nest.
#[tactic(auto, using(crate::proofs::Bits::with_set, crate::proofs::Bits::with_clear), unfolding(crate::specs::Nesting::with_n, settings::specs::Settings::with_byte))]
fn moved(s: Settings, n: bool) -> Settings
    ensures { result ≡ cond (enhanced s) (with_n s (bit n)) s }
{
    if is_enhanced(s) {
        let others = s.ccr6 & !N;
        let ccr6 = if n { others | N } else { others };
        Settings { ccr6, ..s }
    } else {
        s
    }
}

// The settings after entry.
#[tactic(auto, unfolding(crate::specs::Nesting::entered_settings))]
pub fn entered(s: Settings) -> Settings
    ensures { result ≡ entered_settings s }
{
    moved(s, false)
}

// The settings after RSM.
#[tactic(auto, unfolding(crate::specs::Nesting::resumed_settings))]
pub fn resumed(s: Settings) -> Settings
    ensures { result ≡ resumed_settings s }
{
    moved(s, true)
}

// Whether an SMI may interrupt a handler.
#[tactic(auto, using(crate::proofs::Bits::bit_6), unfolding(crate::specs::Nesting::nestable))]
fn is_nestable(s: Settings) -> bool
    ensures { result ≡ nestable s }
{
    is_enhanced(s) && s.ccr6 & N != 0
}

// Whether a boundary takes an SMI, inside the mode or outside it.
#[tactic(auto, unfolding(crate::specs::Nesting::takes))]
pub fn takes_smi(s: Settings, inside: bool) -> bool
    ensures { result ≡ takes s inside }
{
    s.enables_smi() && (!inside || is_nestable(s))
}

// Whether RSM stays inside, by the header's N.
#[tactic(auto, unfolding(crate::specs::Nesting::stays_inside))]
pub fn stays_inside(s: Settings, n: bool) -> bool
    ensures { result ≡ stays_inside s n }
{
    is_enhanced(s) && n
}

// No code of the model: this holds the gate to what entry and RSM alter of the settings.
fn laws()
    ensures determined { OnlyNDetermines }
    ensures asked { BitsAsked }
    ensures examples { BitsExamples }
    ensures only { OnlyNMoves }
    ensures nothing { NothingMoves }
    ensures last { LastMoves }
{}
