// Transformer ratios, and what follows from them: the power unit and limit, and the step in which a register counts an
// energy (paper 01, "Steps of the registers"). All but the limits of the ratios follows from their product T alone.
#![tactic(auto)]

ghost use Rattle.std.specs.Prelude.{◌≡◌};
ghost use Rattle.ratio.specs.Ratios.{ratios_ok, t_of};
ghost use Rattle.ratio.specs.Powers.{power_unit, power_register, power_limit};
ghost use Rattle.ratio.specs.Steps.{step_of};

#[derive(Clone, Copy, Debug, PartialEq, Eq)]
pub struct Ratios {
    // KTA, the current transformer, a whole number.
    pub kta: u16,
    // KTV, the voltage transformer, in tenths.
    pub ktv: u16,
}

impl Ratios {
    pub const KTA_LEAST: u16 = 1;

    pub const KTA_TOP: u16 = 9_999;

    // In tenths, as KTV is.
    pub const KTV_LEAST: u16 = 10;

    pub const KTV_TOP: u16 = 9_999;

    // Whether both ratios are within their limits.
    pub fn within(self) -> bool
        ensures { result ≡ ratios_ok self }
    {
        (Ratios::KTA_LEAST..=Ratios::KTA_TOP).contains(&self.kta)
            && (Ratios::KTV_LEAST..=Ratios::KTV_TOP).contains(&self.ktv)
    }

    // T, which is KTA x KTV: the true ratio in tenths.
    pub fn tenths(self) -> u32
        ensures { result ≡ t_of self }
    {
        u32::from(self.kta) * u32::from(self.ktv)
    }
}

// A whole W, var or VA, in hundredths.
pub const WHOLE_UNIT: u64 = 100;

// From this T on, power registers count whole units, and powers may be larger.
const WHOLE_UNITS_FROM: u32 = 50_000;

// The hundredths of W, var or VA that one count of a power register stands for.
#[tactic(auto, unfolding(crate::specs::Powers::power_unit))]
pub fn power_unit(t: u32) -> u64
    ensures { result ≡ power_unit t }
{
    if t < WHOLE_UNITS_FROM { 1 } else { WHOLE_UNIT }
}

// What a P, Q or S register shows of a magnitude in hundredths, rounded down.
pub fn power_register(t: u32, hundredths: u64) -> u64
    ensures { result ≡ power_register t hundredths }
{
    hundredths / power_unit(t)
}

// The largest magnitude that a power may have, in hundredths of W, var or VA.
#[tactic(auto, unfolding(crate::specs::Powers::power_limit))]
pub fn power_limit(t: u32) -> u64
    ensures { result ≡ power_limit t }
{
    if t < WHOLE_UNITS_FROM {
        4_294_967_295
    } else {
        214_748_364_799
    }
}

// The Wh that one count of an energy register stands for: paper 01's table, its last row as request 2 mends it. T is in
// tenths: the printed "10 ≤ KTA*KTV < 100" is the row from 100 to 999.
#[tactic(auto, using(crate::proofs::Steps::rows))]
pub fn energy_step(t: u32) -> u32
    ensures { result ≡ step_of t }
{
    match t {
        ..=99 => 10,
        100..=999 => 100,
        1_000..=9_999 => 1_000,
        10_000..=99_999 => 10_000,
        100_000..=999_999 => 100_000,
        1_000_000.. => 1_000_000,
    }
}
