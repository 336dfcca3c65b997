// What the words of an item read as (paper 01, "Collector"): a quantity in its unit, or refusal 13 for a value that no
// meter shows. The kind of the item's quantity decides.
#![tactic(auto)]

ghost use Rattle.std.specs.Prelude.{◌≡◌, ◌-◌, ◌/◌, ◌^◌, ◌<◌, ◌≤◌, true, false, not, cond, leb, ltb};
ghost use Rattle.refusal.specs.declared.Refusal.TheVariants.{ValueImpossible};
ghost use Rattle.words.specs.Signed.{magnitude_in};
ghost use Rattle.ratio.specs.Ratios.{kta_ok, ktv_ok};
ghost use Rattle.directory.specs.Order.{shaped, meant};
ghost use Rattle.reading.specs.declared.Quantity.TheVariants.{Factor, Kta, Ktv};
ghost use Rattle.reading.specs.declared.Answer.TheVariants.{Reading, Refused};
ghost use Rattle.reading.specs.Told.{kind_of};
ghost use Rattle.reading.specs.Cells.{cell_of};
ghost use Rattle.reading.specs.Readings.{signed_in, times, unit_of, counted, reading_of};

use counts::{Count, WattHours};
use directory::Item;
use directory::quantity::*;
use ratio::Ratios;
use refusal::{ErrorCode, Refusal};
use signed::Signed;

// A reading. The order is that of paper 01's list of readings.
#[derive(Clone, Copy, Debug, PartialEq, Eq)]
pub enum Quantity {
    // In mV.
    Voltage(u32),
    // In mA.
    Current(u32),
    // In hundredths of W, var or VA.
    Power(u64),
    // In whole W or var.
    SignedPower(Signed),
    // The count that a register shows, the step in Wh at the ratios told, and the energy that these make.
    Energy {
        count: Count,
        step: u32,
        wh: WattHours,
    },
    // In Wh or varh.
    Low(u32),
    // In MWh or Mvarh.
    High(u32),
    // How often the register has turned over to 0.
    Wrap(u16),
    // In thousandths.
    Factor(Signed),
    // 0 for zero or more, 1 for negative. Stays the register's number, as do sector and sequence: `told` and `cell` hand it on so.
    Sign(u16),
    // 0 to 2.
    Sector(u16),
    // In tenths of Hz.
    Frequency(u16),
    // A whole number.
    Kta(u16),
    // In tenths.
    Ktv(u16),
    // Of the phases, 1 or 2.
    Sequence(u16),
    // A word as it stands: an identifier, a zero, minutes or a setup word.
    Plain(u16),
}

impl Quantity {
    // The number of its kind: its place in paper 01's list, from 1. Stays a number: it is what a cell of the row of kinds gets.
    pub fn kind(self) -> u8
        ensures { result ≡ kind_of self }
    {
        match self {
            Quantity::Voltage(_) => 1,
            Quantity::Current(_) => 2,
            Quantity::Power(_) => 3,
            Quantity::SignedPower(_) => 4,
            Quantity::Energy { .. } => 5,
            Quantity::Low(_) => 6,
            Quantity::High(_) => 7,
            Quantity::Wrap(_) => 8,
            Quantity::Factor(_) => 9,
            Quantity::Sign(_) => 10,
            Quantity::Sector(_) => 11,
            Quantity::Frequency(_) => 12,
            Quantity::Kta(_) => 13,
            Quantity::Ktv(_) => 14,
            Quantity::Sequence(_) => 15,
            Quantity::Plain(_) => 16,
        }
    }

    // Its value in 64 bits: a signed one as two's complement, an energy as the count that its register shows.
    pub fn cell(self) -> u64
        ensures { result ≡ cell_of self }
    {
        match self {
            Quantity::Voltage(mv) => u64::from(mv),
            Quantity::Current(ma) => u64::from(ma),
            Quantity::Power(hundredths) => hundredths,
            Quantity::SignedPower(s) => words::twos_quad(s.negative, s.magnitude),
            Quantity::Energy { count, .. } => u64::from(count.0),
            Quantity::Low(n) => u64::from(n),
            Quantity::High(n) => u64::from(n),
            Quantity::Wrap(n) => u64::from(n),
            Quantity::Factor(s) => words::twos_quad(s.negative, s.magnitude),
            Quantity::Sign(n) => u64::from(n),
            Quantity::Sector(n) => u64::from(n),
            Quantity::Frequency(n) => u64::from(n),
            Quantity::Kta(n) => u64::from(n),
            Quantity::Ktv(n) => u64::from(n),
            Quantity::Sequence(n) => u64::from(n),
            Quantity::Plain(n) => u64::from(n),
        }
    }
}

// What a collector makes of a reply: a reading, the meter's error code, or a refusal.
// Stays an enum of three: paper 01 names the form, an answer enum whose reading case holds the enum of quantities.
#[derive(Clone, Copy, Debug, PartialEq, Eq)]
pub enum Answer {
    Reading(Quantity),
    Error(ErrorCode),
    Refused(Refusal),
}

// A power factor is at most 1 in magnitude.
const TOP_IN_HUNDREDTHS: u64 = 100;

const TOP_IN_THOUSANDTHS: u64 = 1_000;

// What an item of that value reads as, at a ratio of t tenths. A kind of two bytes or one stands in one word alone, so its value
// is a u16.
pub fn of(t: u32, it: Item, value: u32) -> Answer
    requires item_ruled { (shaped it ≡ true) × (meant it ≡ true) }
    requires value_fits { value < 65536 ^ it.words }
    ensures { result ≡ reading_of t it value }
{
    if it.is_b() & (255 < value) {
        return Answer::Refused(Refusal::ValueImpossible);
    }
    // Stays a number taken apart: the table of numbers that the paper names holds kind and `which` as one, and `registers::shown` takes it.
    let which = it.quantity % 64;
    let kind = it.quantity - which;
    match kind {
        VOLTAGE => Answer::Reading(Quantity::Voltage(value)),
        CURRENT => Answer::Reading(Quantity::Current(value)),
        POWER => Answer::Reading(Quantity::Power(u64::from(value) * unit(t, which))),
        SIGNED_POWER => Answer::Reading(Quantity::SignedPower(signed_in(LONG, value))),
        ENERGY_COUNT => unless(Count::TOP < value, energy(t, value)),
        LOW => unless(WattHours::LOW_TOP < value, Quantity::Low(value)),
        HIGH => unless(WattHours::HIGH_TOP < value, Quantity::High(value)),
        WRAP => Answer::Reading(Quantity::Wrap(value as u16)),
        FACTOR if it.words == 2 => thousandths(value),
        FACTOR => hundredths(value),
        SIGN => unless(1 < value, Quantity::Sign(value as u16)),
        SECTOR => unless(2 < value, Quantity::Sector(value as u16)),
        FREQUENCY => Answer::Reading(Quantity::Frequency(value as u16)),
        KTA => kta(value as u16),
        KTV => ktv(value as u16),
        // Stays two tests, those of the paper's row: with `matches!` it stayed open that its answer is that of the row.
        SEQUENCE => unless(
            !((value == 1) | (value == 2)),
            Quantity::Sequence(value as u16),
        ),
        // Plain: no other kind is left.
        _ => Answer::Reading(Quantity::Plain(value as u16)),
    }
}

// A reading, unless its value is one that no meter shows. Stays a test handed in: it is all that the nine kinds which may be refused share.
fn unless(impossible: bool, quantity: Quantity) -> Answer
    ensures { result ≡ cond impossible (Refused ValueImpossible) (Reading quantity) }
{
    if impossible {
        Answer::Refused(Refusal::ValueImpossible)
    } else {
        Answer::Reading(quantity)
    }
}

// The hundredths that one count of a power register stands for. One register of S is in whole VA at any ratio.
fn unit(t: u32, which: u16) -> u64
    ensures { result ≡ unit_of t which }
{
    if which == WHOLE_S {
        ratio::WHOLE_UNIT
    } else {
        ratio::power_unit(t)
    }
}

// The step is applied here: until now the value was a count.
fn energy(t: u32, value: u32) -> Quantity
    ensures { result ≡ counted t value }
{
    let count = Count(value);
    Quantity::Energy {
        count,
        step: ratio::energy_step(t),
        wh: count.energy(t),
    }
}

// In two words a factor is sent in thousandths.
fn thousandths(value: u32) -> Answer
    ensures { result ≡ cond (ltb 1000 (magnitude_in 2 value)) (Refused ValueImpossible) (Reading (Factor (signed_in 2 value))) }
{
    let s = signed_in(LONG, value);
    unless(TOP_IN_THOUSANDTHS < s.magnitude, Quantity::Factor(s))
}

// In one word a factor is sent in hundredths.
fn hundredths(value: u32) -> Answer
    requires { value < 65536 }
    ensures { result ≡ cond (ltb 100 (magnitude_in 1 value)) (Refused ValueImpossible) (Reading (Factor (times 10 (signed_in 1 value)))) }
{
    let s = signed_in(WORD, value);
    let tenfold = Signed {
        negative: s.negative,
        magnitude: s.magnitude * 10,
    };
    unless(TOP_IN_HUNDREDTHS < s.magnitude, Quantity::Factor(tenfold))
}

// The twins differ in their range and in their case, and a range is no const parameter; what they share is `unless`.
fn kta(value: u16) -> Answer
    ensures { result ≡ cond (not (kta_ok value)) (Refused ValueImpossible) (Reading (Kta value)) }
{
    let possible = (Ratios::KTA_LEAST..=Ratios::KTA_TOP).contains(&value);
    unless(!possible, Quantity::Kta(value))
}

fn ktv(value: u16) -> Answer
    ensures { result ≡ cond (not (ktv_ok value)) (Refused ValueImpossible) (Reading (Ktv value)) }
{
    let possible = (Ratios::KTV_LEAST..=Ratios::KTV_TOP).contains(&value);
    unless(!possible, Quantity::Ktv(value))
}

// How many values a word has, and a long.
const WORD: u64 = 65_536;

const LONG: u64 = 4_294_967_296;

// Stays by hand: by `cast_signed` each width has a function of its own, and an integer between that the definition is not over.
// Two's complement. `full` is how many values the words can have; each of the upper half of them stands for value - full.
fn signed_in(full: u64, value: u32) -> Signed
    requires { value ≤ full }
    ensures { result ≡ record { negative = leb (full / 2) value; magnitude = cond (leb (full / 2) value) (full - value) value } }
{
    let value = u64::from(value);
    if full / 2 <= value {
        return Signed {
            negative: true,
            magnitude: full - value,
        };
    }
    Signed {
        negative: false,
        magnitude: value,
    }
}
