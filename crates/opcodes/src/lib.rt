#![tactic(auto)]

ghost use Rattle.std.specs.Prelude.{◌≡◌, cond, ltb, Some, None};
ghost use Rattle.opcodes.specs.Decode.{data_segment, svdc, rsdc, grouped, smint_opcode, operation_of, operand_size, allowed};
ghost use Rattle.opcodes.specs.Bytes.{ResumedBy, SavedBy, CsNotRestored, SevenRestored};
ghost use Rattle.opcodes.specs.Listed.{listed_in, SizedByBytes, AllowedByBits};

use segments::SegmentName;
use settings::{Edition, Settings};

// What an opcode asks for.
#[derive(Clone, Copy, PartialEq, Eq)]
pub enum Operation {
    Save(SegmentName),
    Restore(SegmentName),
    Rdshr,
    Wrshr,
    Smint,
    Rsm,
    Undefined,
}

// The segment register that the middle field of SVDC and RSDC names.
#[tactic(auto, unfolding(crate::specs::Decode::data_segment))]
fn data_segment(field: u8) -> Option<SegmentName>
    ensures { result ≡ cond (ltb field 6) (Some (data_segment field)) None }
{
    match field {
        0 => Some(SegmentName::Es),
        1 => Some(SegmentName::Cs),
        2 => Some(SegmentName::Ss),
        3 => Some(SegmentName::Ds),
        4 => Some(SegmentName::Fs),
        5 => Some(SegmentName::Gs),
        _ => None,
    }
}

fn svdc_of(field: u8) -> Operation
    ensures { result ≡ svdc field }
{
    data_segment(field).map_or(Operation::Undefined, Operation::Save)
}

// CS is not restored.
#[tactic(auto, unfolding(crate::specs::Decode::data_segment))]
fn rsdc_of(field: u8) -> Operation
    ensures { result ≡ rsdc field }
{
    match data_segment(field) {
        None | Some(SegmentName::Cs) => Operation::Undefined,
        Some(name) => Operation::Restore(name),
    }
}

// The opcodes that have an operand in memory: RDSHR and WRSHR are of the later edition alone.
#[tactic(auto, unfolding(crate::specs::Decode::grouped))]
fn grouped_of(edition: Edition, opcode: u8, field: u8) -> Operation
    ensures { result ≡ grouped edition opcode field }
{
    match (opcode, field) {
        (0x78, _) => svdc_of(field),
        (0x79, _) => rsdc_of(field),
        (0x7A, 0) => Operation::Save(SegmentName::Ldtr),
        (0x7B, 0) => Operation::Restore(SegmentName::Ldtr),
        (0x7C, 0) => Operation::Save(SegmentName::Tr),
        (0x7D, 0) => Operation::Restore(SegmentName::Tr),
        (0x36, 0) if edition.is_mii() => Operation::Rdshr,
        (0x37, 0) if edition.is_mii() => Operation::Wrshr,
        _ => Operation::Undefined,
    }
}

fn smint_opcode(edition: Edition) -> u8
    ensures { result ≡ smint_opcode edition }
{
    match edition {
        Edition::Cx486 => 0x7E,
        Edition::Mii => 0x38,
    }
}

// The operation that the byte after 0Fh and ModRM ask for.
#[tactic(auto, unfolding(crate::specs::Decode::operation_of))]
pub fn decode(edition: Edition, opcode: u8, modrm: u8) -> Operation
    ensures { result ≡ operation_of edition opcode modrm }
{
    if opcode == smint_opcode(edition) {
        Operation::Smint
    } else if opcode == 0xAA {
        Operation::Rsm
    } else if modrm >> 6 == 3 {
        Operation::Undefined
    } else {
        grouped_of(edition, opcode, modrm >> 3 & 7)
    }
}

impl Operation {
    // The bytes of the operand in memory; none is 0.
    pub fn operand_size(self) -> u8
        ensures { result ≡ operand_size self }
    {
        match self {
            Operation::Save(_) | Operation::Restore(_) => 10,
            Operation::Rdshr | Operation::Wrshr => 4,
            Operation::Smint | Operation::Rsm | Operation::Undefined => 0,
        }
    }

    // Whether the operation may run inside, or outside, management mode with these settings.
    pub fn is_allowed(self, s: Settings, inside: bool) -> bool
        ensures { result ≡ allowed s inside self }
    {
        match self {
            Operation::Save(_) | Operation::Restore(_) | Operation::Rdshr => true,
            Operation::Wrshr => inside || !s.smi_lock(),
            Operation::Smint => !inside && s.fits_header(),
            Operation::Rsm => inside && s.fits_header(),
            Operation::Undefined => false,
        }
    }
}

// No code of the model: it holds the gate to which bytes ask for what.
fn laws()
    ensures rsm { ResumedBy }
    ensures saved { SavedBy }
    ensures cs { CsNotRestored }
    ensures seven { SevenRestored }
    ensures sized { SizedByBytes }
    ensures allowed { AllowedByBits }
{}

// Nor is this: it holds the gate to the table of all bytes.
fn by_table(edition: Edition, opcode: u8, modrm: u8)
    ensures { operation_of edition opcode modrm ≡ listed_in edition opcode modrm }
{}
