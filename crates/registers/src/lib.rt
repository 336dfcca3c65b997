// What the registers show (paper 01, "Steps of the registers" and "The directory"): from a meter and a quantity to the value
// that is sent for it. A match on the kind comes first, then one on which quantity of the kind. A number that is no quantity shows 0.
// The casts below stay: a sound meter's values fit what is sent for them, and `try_from` would add a case that never comes.
#![tactic(auto)]

ghost use Rattle.std.specs.Prelude.{◌≡◌, ◌++◌, get_or};
ghost use Rattle.signed.specs.Signs.{sign_word};
ghost use Rattle.meter.specs.Samples.{factor_of};
ghost use Rattle.meter.specs.Meters.{energy_at};
ghost use Rattle.registers.specs.Shown.{power_at, power_values, signed_word_values, factor_values, plain_values, shown_of};

use counts::WattHours;
use directory::quantity::*;
use meter::Meter;
use meter::groups::Setup;
use meter::sound::Sound;
use signed::Signed;

// The value that is sent for a quantity. An item of one word sends the lower 16 bits of it.
// Kinds stay numbers: `shown` promises a value for every number of the directory's flat table, in which a quantity is
// 64 × kind + which.
pub fn shown(sound: Sound, quantity: u16) -> u32
    ensures { result ≡ shown_of sound.meter quantity }
{
    let which = quantity % 64;
    let kind = quantity - which;
    match kind {
        VOLTAGE => value_at(sound.meter.latest.voltages, which),
        CURRENT => value_at(sound.meter.latest.currents, which),
        POWER => power(sound, which),
        SIGNED_POWER => signed_power(sound, which),
        ENERGY_COUNT => energy_at(sound.meter, which)
            .register(sound.meter.given.ratios.tenths())
            .0,
        LOW => energy_at(sound.meter, which).low(),
        HIGH => energy_at(sound.meter, which).high() as u32,
        WRAP => energy_at(sound.meter, which).wrap(sound.meter.given.ratios.tenths()) as u32,
        FACTOR => factor(sound, which),
        SIGN => sign_word(power_at(sound, which)),
        SECTOR => value_at([u32::from(sound.meter.latest.sector)], which),
        FREQUENCY => value_at([u32::from(sound.meter.latest.frequency)], which),
        KTA => value_at([u32::from(sound.meter.given.ratios.kta)], which),
        KTV => value_at([u32::from(sound.meter.given.ratios.ktv)], which),
        SEQUENCE => value_at([u32::from(sound.meter.latest.sequence)], which),
        PLAIN => plain(sound.meter, which),
        _ => 0,
    }
}

// One value of a kind that holds its values as they are sent; 0 past them.
fn value_at<const N: usize>(values: [u32; N], which: u16) -> u32
    ensures { result ≡ get_or values.entry which 0 }
{
    values.get(usize::from(which)).copied().unwrap_or(0)
}

// Registers of P, Q and S, of the average and of its peak hold a magnitude in the unit that the ratio gives. One more register of
// S is in whole VA at any ratio.
fn power(sound: Sound, which: u16) -> u32
    ensures { result ≡ get_or (power_values sound.meter) which 0 }
{
    let m = sound.meter;
    let t = m.given.ratios.tenths();
    match which {
        S => ratio::power_register(t, m.latest.s) as u32,
        WHOLE_S => (m.latest.s / ratio::WHOLE_UNIT) as u32,
        AVERAGE => ratio::power_register(t, m.average.last) as u32,
        PEAK => ratio::power_register(t, m.average.peak) as u32,
        _ => {
            let p = power_at(sound, which);
            ratio::power_register(t, p.magnitude) as u32
        }
    }
}

// Whole W or var, cut toward zero: the magnitude is divided. A negative power that is cut to zero is sent as 0.
fn signed_power(sound: Sound, which: u16) -> u32
    ensures { result ≡ get_or (signed_word_values sound.meter) which 0 }
{
    let p = power_at(sound, which);
    words::twos_long(p.negative, (p.magnitude / ratio::WHOLE_UNIT) as u32)
}

// A signed power of the latest sample: 3-phase P or Q, or that of one phase.
#[tactic(auto, unfolding(crate::specs::Shown::power_at))]
fn power_at(sound: Sound, which: u16) -> Signed
    ensures { result ≡ power_at sound.meter which }
{
    let p = sound.meter.latest.p;
    let q = sound.meter.latest.q;
    match which {
        P => p.in_force(),
        Q => q.in_force(),
        P1 => Signed::from(p.l1),
        P2 => Signed::from(p.l2),
        P3 => Signed::from(p.l3),
        Q1 => Signed::from(q.l1),
        Q2 => Signed::from(q.l2),
        Q3 => Signed::from(q.l3),
        _ => Signed::from(0),
    }
}

// The sign of the power before it is cut to whole units.
fn sign_word(power: Signed) -> u32
    ensures { result ≡ sign_word power.negative }
{
    u32::from(power.negative)
}

// Stays a match: the record names each energy, and holds no list of them.
fn energy_at(m: Meter, which: u16) -> WattHours
    ensures { result ≡ (energy_at which m).wh }
{
    match which {
        POS_EA => m.counters.active.positive.wh,
        NEG_EA => m.counters.active.negative.wh,
        POS_ER => m.counters.reactive.positive.wh,
        NEG_ER => m.counters.reactive.negative.wh,
        _ => WattHours(0),
    }
}

// Hundredths are the thousandths cut toward zero: the magnitude is divided.
#[tactic(auto, unfolding(crate::specs::Shown::factor_values))]
fn factor(sound: Sound, which: u16) -> u32
    ensures { result ≡ get_or (factor_values (factor_of sound.meter.latest.factor)) which 0 }
{
    let thousandths = sound.meter.latest.factor.signed();
    match which {
        HUNDREDTHS => u32::from(words::twos_word(
            thousandths.negative,
            (thousandths.magnitude / 10) as u16,
        )),
        THOUSANDTHS => words::twos_long(thousandths.negative, thousandths.magnitude as u32),
        _ => 0,
    }
}

#[tactic(auto, unfolding(crate::specs::Shown::plain_values))]
fn plain(m: Meter, which: u16) -> u32
    ensures { result ≡ get_or (plain_values m) which 0 }
{
    match which {
        ZEROS => 0,
        BYTE_IDENTIFIER => 0x11,
        WORD_IDENTIFIER => 0x1114,
        MINUTES => u32::from(m.average.minutes()),
        _ => u32::from(setup_at(m.setup, usize::from(which - FIRST_SETUP))),
    }
}

// A setup word by its index: first the standard group's 16 words, then the output group's 24. Past both of them there is 0.
fn setup_at(setup: Setup, i: usize) -> u16
    ensures { result ≡ get_or (setup.standard ++ setup.output) i 0 }
{
    match setup.standard.get(i) {
        Some(word) => *word,
        None => setup
            .output
            .get(i - setup.standard.len())
            .copied()
            .unwrap_or(0),
    }
}
