// One energy on its way from samples to the load on a feed: how a board and a collector call us. A new meter takes six minutes of
// samples; then its +Ea is polled in each of its three places, read, joined, and held against the plain sum of the samples. Four
// meters of large transformers follow, where the table of steps ends.
#![tactic(auto)]

mod feed;

ghost use Rattle.std.specs.Prelude.{◌≤◌, IfOk};

use board::{Answered, Given, Meter, Order, Powers, Sample};
use collector::Ratios;
use feed::Feed;
use std::io::{self, Stdout};

// The active power of each phase, in hundredths of a watt. A sample covers one second, and so adds their sum in hundredths of a
// watt-second.
const L1: i64 = 4_100_037;

const L2: i64 = 3_950_011;

const L3: i64 = 4_020_000;

const A_SECOND: u64 = (L1 + L2 + L3) as u64;

const SECONDS: u64 = 360;

fn main(rt: HostRuntime) -> io::Result<()> {
    let out = rt.stdout();
    from_samples(out)?;
    large_transformers(out)
}

fn from_samples(out: Stdout) -> io::Result<()> {
    let ratios = Ratios { kta: 40, ktv: 10 };
    let new = made(ratios);
    if let Err(reason) = new.answer {
        return println!(out; "{reason}");
    }
    println!(out;
        "a new meter of address 1, KTA {}, KTV {} tenths: a register counts steps of {} Wh",
        ratios.kta,
        ratios.ktv,
        ratio::energy_step(ratios.tenths())
    )?;
    let after = six_minutes(out, new.meter)?;
    let exact = exact(out, after.accepted)?;
    let feed = Feed {
        out,
        meter: after.meter,
        exact,
    };
    feed.three_places()
}

// A new meter of address 1. Paper 01's meters send the upper word first.
// Stays spelled out, as the README shows the call.
fn made(ratios: Ratios) -> Answered {
    Meter::of(Given {
        address: 1,
        second: Given::NO_SECOND,
        ratios,
        order: Order::UpperFirst,
    })
}

// The meter after its samples, and how many of them it has accepted.
#[derive(Clone, Copy)]
struct Sampled {
    meter: Meter,
    accepted: u64,
}

// The board hands its meter a sample a second, up to the first that is refused.
fn six_minutes(out: Stdout, new: Meter) -> io::Result<Sampled>
    ensures { IfOk result (λ r. r.accepted ≤ 360) }
{
    let p = Powers {
        l1: L1,
        l2: L2,
        l3: L3,
    };
    let sample = Sample { p, ..new.latest };
    let mut meter = new;
    for accepted in 0..SECONDS {
        let answered = meter.after(sample);
        if let Err(reason) = answered.answer {
            println!(out; "{reason}")?;
            return Ok(Sampled { meter, accepted });
        }
        meter = answered.meter;
    }
    Ok(Sampled {
        meter,
        accepted: SECONDS,
    })
}

// The exact energy of the samples comes in hundredths of a watt-second. Hands it back in whole Wh.
fn exact(out: Stdout, accepted: u64) -> io::Result<u64>
    requires { accepted ≤ 360 }
{
    let energy = accepted * A_SECOND;
    println!(out;
        "samples accepted: {accepted}; their exact energy: {} Wh and {} hundredths of a watt-second, 360000 to the Wh",
        energy / Meter::ONE_WH,
        energy % Meter::ONE_WH
    )?;
    Ok(energy / Meter::ONE_WH)
}

// The last T with a step of 100 kWh, the first with one of 1 MWh, a ratio of 120,000, and the largest T with the largest energy.
fn large_transformers(out: Stdout) -> io::Result<()> {
    years(out, 2_079, 481, 12_345_678_901_234)?;
    years(out, 1_000, 1_000, 12_345_678_901_234)?;
    years(out, 1_200, 1_000, 12_345_678_901_234)?;
    years(out, 9_999, 9_999, Meter::WH_TOP)
}

// A meter whose +Ea stands where years of samples would have brought it.
fn years(out: Stdout, kta: u16, ktv: u16, wh: u64) -> io::Result<()> {
    let ratios = Ratios { kta, ktv };
    let t = ratios.tenths();
    println!(out;
        "a meter of KTA {kta}, KTV {ktv} tenths, so T is {t}: a register counts steps of {} Wh; its +Ea is {wh} Wh",
        ratio::energy_step(t)
    )?;
    let mut meter = made(ratios).meter;
    meter.counters.active.positive.wh.0 = wh;
    let feed = Feed {
        out,
        meter,
        exact: wh,
    };
    feed.three_places()
}
