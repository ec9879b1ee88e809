// The segment registers: their names, and the seven beside CS, which is among the registers that entry saves.
#![tactic(auto)]

ghost use Rattle.std.specs.Prelude.{◌≡◌};
ghost use Rattle.segments.specs.Segments.{is_cs, segment_named, with_named, reset_segments};

use memory::Segment;

#[derive(Clone, Copy, PartialEq, Eq)]
pub enum SegmentName {
    Es,
    Cs,
    Ss,
    Ds,
    Fs,
    Gs,
    Ldtr,
    Tr,
}

#[derive(Clone, Copy)]
pub struct Segments {
    pub ds: Segment,
    pub es: Segment,
    pub fs: Segment,
    pub gs: Segment,
    pub ss: Segment,
    pub ldtr: Segment,
    pub tr: Segment,
}

impl SegmentName {
    pub fn is_cs(self) -> bool
        ensures { result ≡ is_cs self }
    {
        matches!(self, SegmentName::Cs)
    }
}

// The segments after a reset.
#[tactic(auto, unfolding(fields::specs::Fields::number_by))]
pub fn initial() -> Segments
    ensures { result ≡ reset_segments }
{
    let ordinary = memory::segment_of(0, 0x000093000000FFFF);
    let none = memory::segment_of(0, 0);
    Segments {
        ds: ordinary,
        es: ordinary,
        fs: ordinary,
        gs: ordinary,
        ss: ordinary,
        ldtr: none,
        tr: none,
    }
}

impl Segments {
    // The same segments, put together anew: so the gaps between their fields are not copied.
    pub fn anew(self) -> Segments
        ensures { result ≡ self }
    {
        Segments {
            ds: memory::fresh(self.ds),
            es: memory::fresh(self.es),
            fs: memory::fresh(self.fs),
            gs: memory::fresh(self.gs),
            ss: memory::fresh(self.ss),
            ldtr: memory::fresh(self.ldtr),
            tr: memory::fresh(self.tr),
        }
    }

    // A segment register by its name, where CS is given.
    pub fn named(self, cs: Segment, name: SegmentName) -> Segment
        ensures { result ≡ segment_named self cs name }
    {
        match name {
            SegmentName::Es => self.es,
            SegmentName::Cs => cs,
            SegmentName::Ss => self.ss,
            SegmentName::Ds => self.ds,
            SegmentName::Fs => self.fs,
            SegmentName::Gs => self.gs,
            SegmentName::Ldtr => self.ldtr,
            SegmentName::Tr => self.tr,
        }
    }

    // The segments with another one at a name; CS is none of them.
    pub fn with_named(self, name: SegmentName, value: Segment) -> Segments
        ensures { result ≡ with_named self name value }
    {
        match name {
            SegmentName::Es => Segments { es: value, ..self },
            SegmentName::Cs => self,
            SegmentName::Ss => Segments { ss: value, ..self },
            SegmentName::Ds => Segments { ds: value, ..self },
            SegmentName::Fs => Segments { fs: value, ..self },
            SegmentName::Gs => Segments { gs: value, ..self },
            SegmentName::Ldtr => Segments {
                ldtr: value,
                ..self
            },
            SegmentName::Tr => Segments { tr: value, ..self },
        }
    }
}
