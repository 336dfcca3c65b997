// Energies joined from their parts, and what a join refuses.
use ask::DIRECT;
use collector::{Count, Ratios, Refusal, WattHours};
use say::Told;
use std::io::{self, Stdout};

// At a step of 1,000 Wh.
const BY_THOUSANDS: Ratios = Ratios { kta: 100, ktv: 10 };

pub fn examples(out: Stdout) -> io::Result<()> {
    energy(out, WattHours(1_999))?;
    energy(out, WattHours(100_000_000_000))?;
    let joins = [
        (
            "count of 25740, wrap of 1",
            collector::join(DIRECT, Count(25_740), 1),
        ),
        (
            "KTV of 9 tenths",
            collector::join(Ratios { kta: 1, ktv: 9 }, Count(100_000_000), 0),
        ),
        (
            "count of 100000000",
            collector::join(DIRECT, Count(100_000_000), 0),
        ),
        ("Low of 1000000", collector::join_halves(1_000_000, 0)),
        ("High of 65536000", collector::join_halves(0, 65_536_000)),
    ];
    for (name, joined) in joins {
        println!(out; "{name}: {}", told(joined))?;
    }
    Ok(())
}

// An energy in the three tables, and joined again.
fn energy(out: Stdout, energy: WattHours) -> io::Result<()> {
    let tenths = BY_THOUSANDS.tenths();
    let register = energy.register(tenths);
    let wrap = energy.wrap(tenths);
    let low = energy.low();
    let high = energy.high();
    print!(out;
        "{} Wh: register {}, wrap {wrap}, Low {low}, High {high}",
        energy.0, register.0
    )?;
    // Stays remainders: of these energies the wrap has 16 bits and High 32, and a conversion that may fail would print no more.
    let by_register = collector::join(BY_THOUSANDS, register, (wrap % 65536) as u16);
    let by_halves = collector::join_halves(low, (high % 4_294_967_296) as u32);
    println!(out; ", joined {} and {}", told(by_register), told(by_halves))
}

// What a join comes to, in Wh.
fn told(joined: Result<WattHours, Refusal>) -> Told<u64, Refusal> {
    Told(joined.map(|energy| energy.0))
}
