#![tactic(auto)]

ghost use Rattle.std.specs.Prelude.{◌≡◌, ◌%◌, ◌≤◌, eqb};
ghost use Rattle.region.specs.Region.{region_of, size_of, largest_code, usable, within};
ghost use Rattle.region.specs.Ends.{NoneAbove, LastReaches};
ghost use Rattle.region.specs.Numbers.{SmarReadBack, UsableBySize, SizesListed};

const LARGEST_CODE: u8 = 5;

// A base and a size code, as SMAR names them. Code 0 names no region.
#[derive(Clone, Copy)]
pub struct Region {
    pub base: u32,
    pub code: u8,
}

// The region that the SMAR bytes CDh, CEh and CFh name.
pub fn region_of(high: u8, middle: u8, low: u8) -> Region
    ensures { result ≡ region_of high middle low }
{
    Region {
        base: u32::from_be_bytes([high, middle, low & 0xf0, 0]),
        code: low & 0xf,
    }
}

// The bytes that a size code names.
#[tactic(auto, unfolding(crate::specs::Region::size_of))]
pub fn size_of(code: u8) -> u64
    ensures value { result ≡ size_of code }
    ensures bounded { result ≤ 4294967296 }
{
    match code {
        0 => 0,
        1..=14 => 4096 << (code - 1),
        _ => 4294967296,
    }
}

// Whether a base is a multiple of the size that a usable code names.
fn is_aligned(base: u32, code: u8) -> bool
    requires { (1 ≤ code) × (code ≤ largest_code) }
    ensures { result ≡ eqb (base % size_of code) 0 }
{
    11 + u32::from(code) <= base.trailing_zeros()
}

impl Region {
    #[tactic(auto, unfolding(crate::specs::Region::usable))]
    pub fn is_usable(self) -> bool
        ensures { result ≡ usable self }
    {
        // Two tests and no range: what `contains` of a range ensures leaves goals open here.
        1 <= self.code && self.code <= LARGEST_CODE && is_aligned(self.base, self.code)
    }

    // Whether an address is in this region, and the region usable.
    #[tactic(auto, unfolding(crate::specs::Region::within))]
    pub fn contains(self, address: u64) -> bool
        ensures { result ≡ within self address }
    {
        // The base is a multiple of the size, a power of two: so an address in the region has the base's bits from the size up.
        self.is_usable() && address & !(size_of(self.code) - 1) == u64::from(self.base)
    }
}

// No code of the model: it holds the gate to what regions are at 2^32.
fn limits(region: Region, address: u64)
    ensures above { NoneAbove region address }
    ensures last { LastReaches }
{}

// Nor is this: it holds the gate to the rules as raw numbers.
fn raw_numbers()
    ensures smar { SmarReadBack }
    ensures usable { UsableBySize }
    ensures sizes { SizesListed }
{}
