// What the registers show of an energy: count and wrap, Low and High (paper 01, "Steps of the registers"); and the energy joined
// from them ("Collector"). Callers give T and never a step, so that a step always fits the ratios.
#![tactic(auto)]

ghost use Rattle.std.specs.Prelude.{◌≡◌, ◌≤◌};
ghost use Rattle.counts.specs.Counting.{count_of, register_of, wrap_of, low_of, high_of, energy_of, join_of, join_halves_of};

use ratio::Ratios;
use refusal::Refusal;

// What an energy register shows, in steps. It is no energy until a step is applied.
#[derive(Clone, Copy, Debug, PartialEq, Eq, PartialOrd, Ord)]
pub struct Count(pub u32);

impl Count {
    // The largest count that a register shows.
    pub const TOP: u32 = 99_999_999;

    // The counts of a full turn: after 99,999,999 a register shows 0 again.
    const TURN: u64 = 100_000_000;

    // The energy that a count stands for at T.
    pub fn energy(self, t: u32) -> WattHours
        ensures { result ≡ energy_of t self.0 }
    {
        stepped(u64::from(self.0), t)
    }
}

// Whole Wh, or for a reactive energy varh: what is said of Wh here is meant of varh too.
#[derive(Clone, Copy, Debug, PartialEq, Eq, PartialOrd, Ord)]
pub struct WattHours(pub u64);

impl WattHours {
    // The largest Low, in Wh, and the largest High, in MWh, of an energy that a meter keeps.
    pub const LOW_TOP: u32 = 999_999;

    pub const HIGH_TOP: u32 = 65_535_999;

    // The Wh in 1 MWh, the unit of High.
    const MEGA: u64 = 1_000_000;

    // The whole steps in the energy, over all turns of the register.
    fn count(self, t: u32) -> u64
        ensures { result ≡ count_of t self }
    {
        self.0 / u64::from(ratio::energy_step(t))
    }

    // What the energy register shows at T.
    pub fn register(self, t: u32) -> Count
        ensures { result ≡ register_of t self }
    {
        Count((self.count(t) % Count::TURN) as u32)
    }

    // How often the register has turned over to 0 at T. For an energy that a meter keeps, this fits a word.
    pub fn wrap(self, t: u32) -> u64
        ensures { result ≡ wrap_of t self }
    {
        self.count(t) / Count::TURN
    }

    // The Wh below a whole MWh.
    pub fn low(self) -> u32
        ensures { result ≡ low_of self }
    {
        (self.0 % WattHours::MEGA) as u32
    }

    // The whole MWh.
    pub fn high(self) -> u64
        ensures { result ≡ high_of self }
    {
        self.0 / WattHours::MEGA
    }
}

// A count of steps as an energy. The largest that is asked for is a full wrap word with a full register.
fn stepped(count: u64, t: u32) -> WattHours
    requires { count ≤ 6553599999999 }
    ensures { result ≡ energy_of t count }
{
    WattHours(count * u64::from(ratio::energy_step(t)))
}

// The energy of a register count and its wrap word, told the ratios of the meter.
#[tactic(auto, unfolding(crate::specs::Counting::join_of))]
pub fn join(ratios: Ratios, count: Count, wrap: u16) -> Result<WattHours, Refusal>
    ensures { result ≡ join_of ratios count wrap }
{
    if !ratios.within() {
        return Err(Refusal::RatioOutOfLimits);
    }
    if Count::TOP < count.0 {
        return Err(Refusal::JoinPastTop);
    }
    let counts = u64::from(wrap) * Count::TURN + u64::from(count.0);
    Ok(stepped(counts, ratios.tenths()))
}

// The energy of a Low, in Wh, and its High, in MWh.
#[tactic(auto, unfolding(crate::specs::Counting::join_halves_of))]
pub fn join_halves(low: u32, high: u32) -> Result<WattHours, Refusal>
    ensures { result ≡ join_halves_of low high }
{
    if WattHours::LOW_TOP < low || WattHours::HIGH_TOP < high {
        return Err(Refusal::JoinPastTop);
    }
    let wh = u64::from(high) * WattHours::MEGA + u64::from(low);
    Ok(WattHours(wh))
}
