// The four energies: whole Wh or varh, and a remainder (paper 01, "The meter's record").
ghost use Rattle.std.specs.Prelude.{◌≡◌, ◌≤◌};
ghost use Rattle.ratio.specs.Powers.{top_power};
ghost use Rattle.counts.specs.Counting.{top_wh};
ghost use Rattle.meter.specs.Fits.{Room};
ghost use Rattle.meter.specs.Energies.{energy_ok, plus_of, energies_ok, within_top, with_power, no_counters, counters_ok, counters_within_top, with_powers};

use crate::Meter;
use counts::WattHours;
use signed::Signed;

#[derive(Clone, Copy, Debug, PartialEq, Eq)]
pub struct Energy {
    // Whole Wh or varh.
    pub wh: WattHours,
    // What is left over, less than 1 Wh, in hundredths of a watt-second.
    pub remainder: u32,
}

impl Energy {
    fn within(self) -> bool
        ensures { result ≡ energy_ok self }
    {
        (self.wh.0 <= Meter::WH_TOP) & (self.remainder <= Meter::REMAINDER_TOP)
    }

    // The energy after one more second at a power, in hundredths of W or var. Whole Wh pass from the remainder.
    // The cast stays: what is left of a Wh fits 32 bits, and `try_from` would add a case that never comes.
    fn plus(self, power: u64) -> Energy
        requires { (self.wh.0 ≤ top_wh) × (power ≤ top_power) }
        ensures { result ≡ plus_of self power }
    {
        let sum = u64::from(self.remainder) + power;
        Energy {
            wh: WattHours(self.wh.0 + sum / Meter::ONE_WH),
            remainder: (sum % Meter::ONE_WH) as u32,
        }
    }
}

// The energies of the two directions: +Ea and -Ea, or +Er and -Er.
// Limits and sums stand on each level, which names its parts: one pass over a list of the four would not say which energy grows.
#[derive(Clone, Copy, Debug, PartialEq, Eq)]
pub struct Energies {
    pub positive: Energy,
    pub negative: Energy,
}

impl Energies {
    pub(crate) fn within(self) -> bool
        ensures { result ≡ energies_ok self }
    {
        self.positive.within() & self.negative.within()
    }

    // Only the whole Wh are tested: after a sample a remainder is always within its limit.
    pub(crate) fn within_top(self) -> bool
        ensures { result ≡ within_top self }
    {
        (self.positive.wh.0 <= Meter::WH_TOP) & (self.negative.wh.0 <= Meter::WH_TOP)
    }

    // The energies after one more second at a 3-phase power: its sign says which one grows.
    // `Room` stays a clause: it is of energies and power together, and two functions ask it, one for the other.
    pub(crate) fn plus(self, power: Signed) -> Energies
        requires { Room self power }
        ensures { result ≡ with_power self power }
    {
        Energies {
            positive: self.positive.plus(power.above()),
            negative: self.negative.plus(power.below()),
        }
    }
}

// All that a meter counts: the active and the reactive energies.
#[derive(Clone, Copy, Debug, PartialEq, Eq)]
pub struct Counters {
    pub active: Energies,
    pub reactive: Energies,
}

impl Counters {
    // The counters of a new meter: every energy and every remainder 0.
    // Stays by hand: an energy has no default, since one of 0 is a new meter's alone.
    pub(crate) fn blank() -> Counters
        ensures { result ≡ no_counters }
    {
        let zero = Energy {
            wh: WattHours(0),
            remainder: 0,
        };
        let both = Energies {
            positive: zero,
            negative: zero,
        };
        Counters {
            active: both,
            reactive: both,
        }
    }

    pub(crate) fn within(self) -> bool
        ensures { result ≡ counters_ok self }
    {
        self.active.within() & self.reactive.within()
    }

    pub(crate) fn within_top(self) -> bool
        ensures { result ≡ counters_within_top self }
    {
        self.active.within_top() & self.reactive.within_top()
    }

    // The counters after one more second at 3-phase powers P and Q.
    pub(crate) fn plus(self, p: Signed, q: Signed) -> Counters
        requires { Room self.active p × Room self.reactive q }
        ensures { result ≡ with_powers self p q }
    {
        Counters {
            active: self.active.plus(p),
            reactive: self.reactive.plus(q),
        }
    }
}
