//! The kinds, and what each can be set to.
ghost use Rattle.std.specs.Prelude.{◌≡◌, map};
ghost use Rattle.wl_kinds.specs.Kinds.{allows, first_wrong, is_in, kind_named, named, takes_jump, takes_prescaler, takes_tseg2};

/// Whole numbers from the least to the greatest, both included.
#[derive(Clone, Copy, Debug, PartialEq, Eq)]
pub struct Range {
    pub least: u64,
    pub most: u64,
}

impl Range {
    /// True if a number is one of the range.
    fn has(self, n: u64) -> bool
        ensures { result ≡ is_in self n }
    {
        self.least <= n && n <= self.most
    }
}

/// A kind of controllers: how many periods of its clock a quantum may take, and how many quanta the parts of a bit.
#[derive(Clone, Copy, Debug)]
pub struct ControllerKind {
    /// Periods of the clock in a quantum.
    pub prescaler: Range,
    /// True if they have to be even.
    pub is_even: bool,
    /// Quanta of PROP_SEG and PHASE_SEG1 together.
    pub tseg1: Range,
    /// Quanta of PHASE_SEG2.
    pub tseg2: Range,
    /// Quanta of the resynchronisation jump width, which is at most PHASE_SEG2.
    pub sjw: Range,
    /// True if the jump width has to be below PHASE_SEG2.
    pub is_sjw_below: bool,
    /// True if PHASE_SEG2 has to be at most PROP_SEG and PHASE_SEG1 together.
    pub is_tseg2_within: bool,
}

/// The kinds that are known, each by the word that texts name it by, with its source. The sources are cited from memory.
#[rattlefmt::skip]
pub const KINDS: [(&str, ControllerKind); 12] = [
    // NXP, SJA1000 data sheet, BTR0 and BTR1; its clock is half of the oscillator's.
    ("sja1000", ControllerKind { prescaler: Range { least: 1, most: 64 }, is_even: false, tseg1: Range { least: 1, most: 16 }, tseg2: Range { least: 1, most: 8 }, sjw: Range { least: 1, most: 4 }, is_sjw_below: false, is_tseg2_within: false }),
    // Bosch, C_CAN User's Manual, BTR and BRPE; Linux, c_can_main.c.
    ("c_can", ControllerKind { prescaler: Range { least: 1, most: 1024 }, is_even: false, tseg1: Range { least: 2, most: 16 }, tseg2: Range { least: 1, most: 8 }, sjw: Range { least: 1, most: 4 }, is_sjw_below: false, is_tseg2_within: false }),
    // ST, RM0008, CAN_BTR; Linux, bxcan.c.
    ("bxcan", ControllerKind { prescaler: Range { least: 1, most: 1024 }, is_even: false, tseg1: Range { least: 1, most: 16 }, tseg2: Range { least: 1, most: 8 }, sjw: Range { least: 1, most: 4 }, is_sjw_below: false, is_tseg2_within: false }),
    // Microchip, DS20001801, CNF1 to CNF3 and section 5: PS2 > SJW and PropSeg + PS1 >= PS2; two periods of the oscillator a step of BRP.
    ("mcp2515", ControllerKind { prescaler: Range { least: 2, most: 128 }, is_even: true, tseg1: Range { least: 2, most: 16 }, tseg2: Range { least: 2, most: 8 }, sjw: Range { least: 1, most: 4 }, is_sjw_below: true, is_tseg2_within: true }),
    // Microchip, AT91SAM9263 data sheet, CAN_BR; Linux, at91_can.c.
    ("at91", ControllerKind { prescaler: Range { least: 2, most: 128 }, is_even: false, tseg1: Range { least: 2, most: 16 }, tseg2: Range { least: 2, most: 8 }, sjw: Range { least: 1, most: 4 }, is_sjw_below: false, is_tseg2_within: false }),
    // Xilinx, DS791, BRPR and BTR; Linux, xilinx_can.c.
    ("xilinx", ControllerKind { prescaler: Range { least: 1, most: 256 }, is_even: false, tseg1: Range { least: 1, most: 16 }, tseg2: Range { least: 1, most: 8 }, sjw: Range { least: 1, most: 4 }, is_sjw_below: false, is_tseg2_within: false }),
    // NXP, i.MX RT1060 Reference Manual, CBT; Linux, flexcan-core.c.
    ("flexcan", ControllerKind { prescaler: Range { least: 1, most: 1024 }, is_even: false, tseg1: Range { least: 2, most: 96 }, tseg2: Range { least: 2, most: 32 }, sjw: Range { least: 1, most: 32 }, is_sjw_below: false, is_tseg2_within: false }),
    // Bosch, M_CAN User's Manual, NBTP; Linux, m_can.c, version 3.1 and later.
    ("m_can", ControllerKind { prescaler: Range { least: 1, most: 512 }, is_even: false, tseg1: Range { least: 2, most: 256 }, tseg2: Range { least: 2, most: 128 }, sjw: Range { least: 1, most: 128 }, is_sjw_below: false, is_tseg2_within: false }),
    // ST, RM0440, FDCAN_NBTP: an M_CAN.
    ("fdcan", ControllerKind { prescaler: Range { least: 1, most: 512 }, is_even: false, tseg1: Range { least: 2, most: 256 }, tseg2: Range { least: 2, most: 128 }, sjw: Range { least: 1, most: 128 }, is_sjw_below: false, is_tseg2_within: false }),
    // TI, TCAN4550-Q1 data sheet, NBTP: an M_CAN.
    ("tcan4550", ControllerKind { prescaler: Range { least: 1, most: 512 }, is_even: false, tseg1: Range { least: 2, most: 256 }, tseg2: Range { least: 2, most: 128 }, sjw: Range { least: 1, most: 128 }, is_sjw_below: false, is_tseg2_within: false }),
    // Microchip, DS20006027, C1NBTCFG; Linux, mcp251xfd-core.c.
    ("mcp2518fd", ControllerKind { prescaler: Range { least: 1, most: 256 }, is_even: false, tseg1: Range { least: 2, most: 256 }, tseg2: Range { least: 1, most: 128 }, sjw: Range { least: 1, most: 128 }, is_sjw_below: false, is_tseg2_within: false }),
    // Bosch, CAN 2.0, part B, section 10: PROP_SEG and PHASE_SEG1 of 1 to 8 quanta each, PHASE_SEG2 of 2 to 8.
    ("book", ControllerKind { prescaler: Range { least: 1, most: 1024 }, is_even: false, tseg1: Range { least: 2, most: 16 }, tseg2: Range { least: 2, most: 8 }, sjw: Range { least: 1, most: 4 }, is_sjw_below: false, is_tseg2_within: false }),
];

/// A part of a controller's setting.
#[derive(Clone, Copy, Debug, PartialEq, Eq)]
pub enum Part {
    /// The periods of the clock in a quantum.
    Prescaler,
    /// PROP_SEG and PHASE_SEG1.
    Tseg1,
    /// PHASE_SEG2.
    Tseg2,
    /// The resynchronisation jump width.
    Sjw,
}

/// What a controller is set to, in quanta but for the prescaler.
#[derive(Clone, Copy, Debug, PartialEq, Eq)]
pub struct Taken {
    /// Periods of the clock in a quantum, if they are known.
    pub prescaler: Option<u64>,
    /// PROP_SEG and PHASE_SEG1 together.
    pub tseg1: u64,
    /// PHASE_SEG2.
    pub tseg2: u64,
    /// The resynchronisation jump width.
    pub sjw: u64,
}

impl ControllerKind {
    /// True if a quantum may take these periods, or if they are not known.
    fn takes_prescaler(self, prescaler: Option<u64>) -> bool
        ensures { result ≡ takes_prescaler self prescaler }
    {
        match prescaler {
            Some(n) => self.prescaler.has(n) && (!self.is_even || n % 2 == 0),
            None => true,
        }
    }

    /// True if PHASE_SEG2 may be this beside such PROP_SEG and PHASE_SEG1.
    fn takes_tseg2(self, tseg1: u64, tseg2: u64) -> bool
        ensures { result ≡ takes_tseg2 self tseg1 tseg2 }
    {
        self.tseg2.has(tseg2) && (!self.is_tseg2_within || tseg2 <= tseg1)
    }

    /// True if the jump width may be this beside such a PHASE_SEG2.
    fn takes_jump(self, tseg2: u64, sjw: u64) -> bool
        ensures { result ≡ takes_jump self tseg2 sjw }
    {
        self.sjw.has(sjw) && sjw <= tseg2 && (!self.is_sjw_below || sjw < tseg2)
    }

    /// Returns the first part that a controller of this kind can't be set to, if there is one.
    pub fn first_wrong(self, taken: Taken) -> Option<Part>
        ensures { result ≡ first_wrong self taken }
    {
        if !self.takes_prescaler(taken.prescaler) {
            Some(Part::Prescaler)
        } else if !self.tseg1.has(taken.tseg1) {
            Some(Part::Tseg1)
        } else if !self.takes_tseg2(taken.tseg1, taken.tseg2) {
            Some(Part::Tseg2)
        } else if !self.takes_jump(taken.tseg2, taken.sjw) {
            Some(Part::Sjw)
        } else {
            None
        }
    }

    /// True if a controller of this kind can be set so: each part is within its range, the prescaler even, the jump width below
    /// PHASE_SEG2 and PHASE_SEG2 within PROP_SEG and PHASE_SEG1 if they have to be.
    pub fn allows(self, taken: Taken) -> bool
        ensures { result ≡ allows self taken }
    {
        self.takes_prescaler(taken.prescaler)
            && self.tseg1.has(taken.tseg1)
            && self.takes_tseg2(taken.tseg1, taken.tseg2)
            && self.takes_jump(taken.tseg2, taken.sjw)
    }
}

/// Returns the kind of this name among some kinds.
fn named(kinds: &[(&'static str, ControllerKind)], name: &str) -> Option<ControllerKind>
    ensures { result ≡ named (map (λ k. (k.0.now, k.1)) kinds.now) name.now }
{
    for kind in kinds {
        if name == kind.0 {
            return Some(kind.1);
        }
    }
    None
}

/// Returns the kind of this name, if it is known.
pub fn kind_named(name: &str) -> Option<ControllerKind>
    ensures { result ≡ kind_named name.now }
{
    named(&KINDS, name)
}
