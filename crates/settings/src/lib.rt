#![tactic(auto)]

ghost use Rattle.std.specs.Prelude.{◌≡◌, ◌+◌, ◌≤◌};
ghost use Rattle.settings.specs.Settings.{is_mii, use_smi, smac, mmac, smi_lock, mapen, region_in, smhr, window_of, header_end, header_fits, header_place, enabled, opcodes_allowed, byte_of, with_byte, with_smhr, later_bits, locked_bits, sticky_bits, kept_bits, merged, written};

use region::Region;

const HEADER_LENGTH: u64 = 48;

// The edition of the core.
#[derive(Clone, Copy, PartialEq, Eq)]
pub enum Edition {
    Cx486,
    Mii,
}

// The edition, which no step changes, and the stored configuration bytes: CCR1, CCR3, and the SMAR bytes CDh, CEh and CFh; of the later
// edition CCR6, and the SMHR bytes B0h to B3h. Each byte is a field, by whose name the theorems on the lock and on isolation speak of it.
#[derive(Clone, Copy)]
pub struct Settings {
    pub edition: Edition,
    pub ccr1: u8,
    pub ccr3: u8,
    pub high: u8,
    pub middle: u8,
    pub low: u8,
    pub ccr6: u8,
    pub smhr0: u8,
    pub smhr1: u8,
    pub smhr2: u8,
    pub smhr3: u8,
}

// The bits that the lock covers outside the mode.
#[tactic(auto, unfolding(crate::specs::Settings::locked_bits))]
fn locked_bits(edition: Edition, index: u8) -> u8
    ensures { result ≡ locked_bits edition index }
{
    match index {
        0xC1 => 0x0E,
        0xC3 => 0x03,
        0xCD | 0xCE | 0xCF => 0xFF,
        _ => later_bits(edition, index),
    }
}

// Those of the bytes that only the later edition has.
#[tactic(auto, unfolding(crate::specs::Settings::later_bits))]
fn later_bits(edition: Edition, index: u8) -> u8
    ensures { result ≡ later_bits edition index }
{
    match (edition, index) {
        (Edition::Mii, 0xEA) => 0x41,
        (Edition::Mii, 0xB0 | 0xB1 | 0xB2 | 0xB3) => 0xFF,
        _ => 0,
    }
}

// The bits that it covers inside.
#[tactic(auto, unfolding(crate::specs::Settings::sticky_bits))]
fn sticky_bits(index: u8) -> u8
    ensures { result ≡ sticky_bits index }
{
    if index == 0xC3 { 0x01 } else { 0 }
}

// The bits of old where the mask has them, and those of value elsewhere.
fn merge(mask: u8, old: u8, value: u8) -> u8
    ensures { result ≡ merged mask old value }
{
    (old & mask) | (value & !mask)
}

impl Edition {
    pub fn is_mii(self) -> bool
        ensures { result ≡ is_mii self }
    {
        matches!(self, Edition::Mii)
    }
}

impl Settings {
    // The bits by their names: a helper that takes a bit's number would make none of them shorter.
    fn use_smi(self) -> bool
        ensures { result ≡ use_smi self }
    {
        self.ccr1 >> 1 & 1 == 1
    }

    fn smac(self) -> bool
        ensures { result ≡ smac self }
    {
        self.ccr1 >> 2 & 1 == 1
    }

    fn mmac(self) -> bool
        ensures { result ≡ mmac self }
    {
        self.ccr1 >> 3 & 1 == 1
    }

    pub fn smi_lock(self) -> bool
        ensures { result ≡ smi_lock self }
    {
        self.ccr3 & 1 == 1
    }

    pub fn mapen(self) -> bool
        ensures { result ≡ mapen self }
    {
        self.ccr3 >> 4 == 1
    }

    pub fn smhr(self) -> u32
        ensures { result ≡ smhr self }
    {
        u32::from_le_bytes([self.smhr0, self.smhr1, self.smhr2, self.smhr3])
    }

    #[tactic(auto, unfolding(crate::specs::Settings::with_smhr))]
    pub fn with_smhr(self, value: u32) -> Settings
        ensures { result ≡ with_smhr self value }
    {
        let [smhr0, smhr1, smhr2, smhr3] = value.to_le_bytes();
        Settings {
            smhr0,
            smhr1,
            smhr2,
            smhr3,
            ..self
        }
    }

    // The region that SMAR names.
    pub fn region(self) -> Region
        ensures { result ≡ region_in self }
    {
        region::region_of(self.high, self.middle, self.low)
    }

    // The region whose bytes management memory answers. Where all goes to main memory it is of code 0, which names no region by the papers' own
    // words: so this is no Option.
    #[tactic(auto, unfolding(crate::specs::Settings::window_of))]
    pub fn window(self, inside: bool) -> Region
        ensures { result ≡ window_of self inside }
    {
        let r = self.region();
        let is_open = if inside { !self.mmac() } else { self.smac() };
        if self.use_smi() && is_open {
            r
        } else {
            Region { code: 0, ..r }
        }
    }

    // Whether SMIs are enabled.
    #[tactic(auto, unfolding(crate::specs::Settings::enabled))]
    pub fn enables_smi(self) -> bool
        ensures { result ≡ enabled self }
    {
        self.use_smi() && !self.smac() && self.region().is_usable() && self.fits_header()
    }

    // Whether the opcodes work inside the mode, or outside it, as far as the settings decide.
    #[tactic(auto, unfolding(crate::specs::Settings::opcodes_allowed))]
    pub fn allows_opcodes(self, inside: bool) -> bool
        ensures { result ≡ opcodes_allowed self inside }
    {
        self.use_smi() && self.region().is_usable() && (inside || self.smac())
    }

    // The address that the header ends below.
    #[tactic(auto, unfolding(crate::specs::Settings::header_end))]
    fn header_end(self) -> u64
        ensures value { result ≡ header_end self }
        ensures bounded { result ≤ (region_in self).base + 4294967296 }
    {
        if self.edition.is_mii() {
            u64::from(self.smhr())
        } else {
            let r = self.region();
            u64::from(r.base) + region::size_of(r.code)
        }
    }

    // Whether the header's bytes all lie in the region.
    #[tactic(auto, unfolding(crate::specs::Settings::header_fits))]
    pub fn fits_header(self) -> bool
        ensures { result ≡ header_fits self }
    {
        let r = self.region();
        let base = u64::from(r.base);
        let end = self.header_end();
        base + HEADER_LENGTH <= end && end <= base + region::size_of(r.code)
    }

    // The place of the header's first byte in management memory.
    #[tactic(auto, unfolding(crate::specs::Settings::header_place))]
    pub fn header_place(self) -> u32
        ensures { result ≡ header_place self }
    {
        let below = u64::from(self.region().base) + HEADER_LENGTH;
        self.header_end().saturating_sub(below) as u32
    }

    // The stored byte at an internal index.
    #[tactic(auto, unfolding(crate::specs::Settings::byte_of))]
    pub fn byte(self, index: u8) -> u8
        ensures { result ≡ byte_of self index }
    {
        match index {
            0xC1 => self.ccr1,
            0xC3 => self.ccr3,
            0xCD => self.high,
            0xCE => self.middle,
            0xCF => self.low,
            0xEA => self.ccr6,
            0xB0 => self.smhr0,
            0xB1 => self.smhr1,
            0xB2 => self.smhr2,
            0xB3 => self.smhr3,
            _ => 0,
        }
    }

    // The indexes stand a second time: one table for both would have to read through a `&mut` into a copy.
    #[tactic(auto, unfolding(crate::specs::Settings::with_byte))]
    fn with_byte(self, index: u8, value: u8) -> Settings
        ensures { result ≡ with_byte self index value }
    {
        match index {
            0xC1 => Settings {
                ccr1: value,
                ..self
            },
            0xC3 => Settings {
                ccr3: value,
                ..self
            },
            0xCD => Settings {
                high: value,
                ..self
            },
            0xCE => Settings {
                middle: value,
                ..self
            },
            0xCF => Settings { low: value, ..self },
            0xEA => Settings {
                ccr6: value,
                ..self
            },
            0xB0 => Settings {
                smhr0: value,
                ..self
            },
            0xB1 => Settings {
                smhr1: value,
                ..self
            },
            0xB2 => Settings {
                smhr2: value,
                ..self
            },
            0xB3 => Settings {
                smhr3: value,
                ..self
            },
            _ => self,
        }
    }

    // The bits that a write to an index leaves as they are.
    #[tactic(auto, unfolding(crate::specs::Settings::kept_bits))]
    fn kept_bits(self, index: u8, inside: bool) -> u8
        ensures { result ≡ kept_bits self index inside }
    {
        if !self.smi_lock() {
            0
        } else if inside {
            sticky_bits(index)
        } else {
            locked_bits(self.edition, index)
        }
    }

    // The settings after a write to an internal index. The lock is tested on the settings before it.
    #[tactic(auto, unfolding(crate::specs::Settings::written))]
    pub fn write(self, index: u8, value: u8, inside: bool) -> Settings
        ensures { result ≡ written self index value inside }
    {
        let old = self.byte(index);
        self.with_byte(index, merge(self.kept_bits(index, inside), old, value))
    }
}
