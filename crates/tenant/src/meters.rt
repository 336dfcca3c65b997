// Meters with a second address, without one, and out of limits by one.
use crate::frames;
use ask::{GIVEN, OWN, SECOND, Taken};
use board::{Answered, Given, Meter, Powers, Ratios, Sample, Setup};
use std::io::{self, Stdout};

// A new meter of these addresses.
// Stays beside the other programs' new meters: each names what its own examples change of `Given`.
fn new(kta: u16, address: u8, second: u8) -> Answered {
    Meter::of(Given {
        address,
        second,
        ratios: Ratios { kta, ktv: 10 },
        ..GIVEN
    })
}

// The meter that a tenant reads too, after one sample. Q of phase 3 is negative, so that the last sign of either block is 1.
pub fn read_by_two() -> Meter {
    let mut m = new(1, OWN, SECOND).meter;
    m.counters.active.positive.wh.0 = 12_345;
    m.counters.reactive.negative.wh.0 = 678_900;
    let sample = Sample {
        voltages: [230_000, 231_000, 229_000, 0, 0, 0],
        p: Powers {
            l1: 150_000,
            ..m.latest.p
        },
        q: Powers {
            l3: -20_000,
            ..m.latest.q
        },
        ..m.latest
    };
    m.after(sample).meter
}

// Ratios are looked at first, then the own address, then whether the two are equal. Without a second address 0 stays that of all
// meters.
pub fn new_meters(out: Stdout) -> io::Result<()> {
    answer(out, "addresses 1 and 9", new(1, 1, 9))?;
    answer(out, "addresses 1 and 1", new(1, 1, 1))?;
    answer(out, "addresses 0 and 0", new(1, 0, 0))?;
    answer(out, "KTA 0, addresses 1 and 1", new(0, 1, 1))?;
    let made = new(1, OWN, Given::NO_SECOND);
    answer(out, "address 1 alone", made)?;
    let m = made.meter;
    ask::send(out, m, "  a read to 0", &ask::read(0, 0x0301, 2))?;
    ask::send(out, m, "  a read to 9", &ask::read(9, 0x0301, 2))?;
    Ok(())
}

// A record whose second address has become its own, and a buffer that is too short for the tenant's reply.
pub fn refused(out: Stdout, m: Meter) -> io::Result<()> {
    let mut outside = m;
    outside.given.second = OWN;
    let request = ask::read(OWN, 0x0301, 2);
    ask::send(out, outside, "a second address of 1, a frame", &request)?;
    answer(
        out,
        "a second address of 1, a sample",
        outside.after(m.latest),
    )?;
    let good = ask::read(SECOND, 0x0301, 2);
    let mut buffer = [0u8; 255];
    if let Err(reason) = board::handle(m, &good, &mut buffer).reply {
        println!(out; "a buffer of 255 bytes, {reason}")?;
    }
    Ok(())
}

fn answer(out: Stdout, name: &str, a: Answered) -> io::Result<()> {
    println!(out; "{name}, {}", Taken(a.answer))
}

// A meter and one that only its owner can tell from it, asked the same.
pub fn alike(out: Stdout, m: Meter) -> io::Result<()> {
    let mut one = m;
    one.average.last = 98_765;
    one.average.peak = 123_456;
    one.average.window.seconds = 130;
    let two = unlike(one);
    ask::send(out, one, "0x2003 at 1", &ask::read(1, 0x2003, 1))?;
    ask::send(out, two, "  at 200", &ask::read(200, 0x2003, 1))?;
    frames::read(out, one, 0x0301, 2, "0x0301 at 9")?;
    frames::read(out, two, 0x0301, 2, "  of the other")?;
    frames::read(out, one, 0x101C, 8, "0x101c at 9")?;
    frames::read(out, two, 0x101C, 8, "  of the other")?;
    frames::read(out, one, 0x1027, 5, "0x1027 at 9")?;
    frames::read(out, two, 0x1027, 5, "  of the other")
}

// Another own address, other setup words, other remainders and another open sum.
fn unlike(m: Meter) -> Meter {
    let mut other = m;
    let mut standard = [1u16; 16];
    standard[0x0B] = 0;
    other.given.address = 200;
    other.setup = Setup {
        standard,
        output: [1; 24],
    };
    other.counters.active.positive.remainder = 359_999;
    other.counters.reactive.negative.remainder = 1;
    other.average.window.sum = 7_000_000;
    other
}
