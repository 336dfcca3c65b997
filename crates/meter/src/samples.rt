// A second's measurements, as the metering chip hands them over (paper 01, "The meter's record").
ghost use Rattle.std.specs.Prelude.{◌≡◌};
ghost use Rattle.meter.specs.Fits.{Held};
ghost use Rattle.meter.specs.Samples.{sum_of, in_force, factor_of, phases_ok, powers_ok, sample_ok, no_sample};

use crate::Meter;
use signed::Signed;

// P or Q of each phase, in hundredths of W or var.
#[derive(Clone, Copy, Debug, Default, PartialEq, Eq)]
pub struct Powers {
    pub l1: i64,
    pub l2: i64,
    pub l3: i64,
}

impl Powers {
    fn phases_within(self, limit: u64) -> bool
        ensures { result ≡ phases_ok limit self }
    {
        (self.l1.unsigned_abs() <= limit)
            & (self.l2.unsigned_abs() <= limit)
            & (self.l3.unsigned_abs() <= limit)
    }

    // The sum of all three phases, which the power limit is for. Phases are added nowhere else.
    // `Held` stays a clause: two functions ask it, one for the other, and a sample within limits tells it.
    fn sum(self) -> Signed
        requires { Held self }
        ensures { result ≡ sum_of self }
    {
        Signed::from(self.l1 + self.l2 + self.l3)
    }

    // The 3-phase power that is shown and counted: the sum of all three phases.
    #[tactic(auto, unfolding(crate::specs::Samples::in_force))]
    pub fn in_force(self) -> Signed
        requires { Held self }
        ensures { result ≡ in_force self }
    {
        self.sum()
    }

    // Whether each phase and the sum of all three are within the limit at a ratio of t tenths. Phases beyond it are not added, as
    // their sum may not fit 64 bits.
    #[tactic(auto, using(crate::proofs::Parts::phases_held))]
    fn within(self, t: u32) -> bool
        ensures { result ≡ powers_ok t self }
    {
        let limit = ratio::power_limit(t);
        if !self.phases_within(limit) {
            return false;
        }
        self.sum().magnitude <= limit
    }
}

// A power factor, in thousandths.
#[derive(Clone, Copy, Debug, Default, PartialEq, Eq)]
pub struct Factor(pub i16);

impl Factor {
    // The thousandths as magnitude and sign.
    pub fn signed(self) -> Signed
        ensures { result ≡ factor_of self }
    {
        Signed::from(i64::from(self.0))
    }
}

#[derive(Clone, Copy, Debug, PartialEq, Eq)]
pub struct Sample {
    // In mV: L1, L2, L3, then chained L1-L2, L2-L3, L3-L1, in the order of the quantities of the directory.
    pub voltages: [u32; 6],
    // In mA: L1, L2, L3, neutral, in the order of the quantities of the directory.
    pub currents: [u32; 4],
    // Active power.
    pub p: Powers,
    // Reactive power.
    pub q: Powers,
    // Apparent power, in hundredths of VA.
    pub s: u64,
    pub factor: Factor,
    // Sector and sequence stay numbers: a sample may be out of limits, and is then refused.
    // 0 to 2.
    pub sector: u8,
    // Of the phases, 1 or 2.
    pub sequence: u8,
    // In tenths of Hz.
    pub frequency: u16,
}

impl Sample {
    // The sample of a new meter: 0, except sequence 1. Stays by hand: a default's sequence, 0, would be out of limits.
    pub(crate) fn blank() -> Sample
        ensures { result ≡ no_sample }
    {
        Sample {
            voltages: [0; 6],
            currents: [0; 4],
            p: Powers::default(),
            q: Powers::default(),
            s: 0,
            factor: Factor::default(),
            sector: 0,
            sequence: 1,
            frequency: 0,
        }
    }

    // Whether each figure is within its limits at a ratio of t tenths.
    #[tactic(auto, unfolding(crate::specs::Samples::sample_ok))]
    pub(crate) fn within(self, t: u32) -> bool
        ensures { result ≡ sample_ok t self }
    {
        self.p.within(t)
            & self.q.within(t)
            & (self.s <= ratio::power_limit(t))
            & (self.factor.signed().magnitude <= Meter::FACTOR_TOP)
            & (self.sector <= Meter::SECTOR_TOP)
            & ((self.sequence == 1) | (self.sequence == 2))
    }
}
