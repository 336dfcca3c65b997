// The meter's examples: samples, what its registers then show, and what it refuses.
use ask::{DIRECT, GIVEN, REPLY_ROOM, Taken};
use board::{Factor, Given, Meter, Powers, Ratios, Sample};
use directory::quantity::*;
use std::io::{self, Stdout};

pub fn examples(out: Stdout) -> io::Result<()> {
    three_phases(out)?;
    power(out, -150)?;
    power(out, -50)?;
    factor(out, -985)?;
    energy(out, 1_999)?;
    energy(out, 100_000_000_000)
}

// A new meter. Paper 01's examples have the upper word first.
// Stays beside the other programs' new meters: each names what its own examples change of `Given`.
pub fn made(address: u8, ratios: Ratios) -> Meter {
    Meter::of(Given {
        address,
        ratios,
        ..GIVEN
    })
    .meter
}

// A meter of address 1, new, with a step of 1,000 Wh.
fn new() -> Meter {
    made(1, Ratios { kta: 100, ..DIRECT })
}

// A sample of these phases and this power factor.
fn sample(p: Powers, thousandths: i16) -> Sample {
    Sample {
        p,
        factor: Factor(thousandths),
        ..new().latest
    }
}

// Power in one phase.
fn one_phase(l1: i64) -> Powers {
    Powers { l1, l2: 0, l3: 0 }
}

// The same power in each phase.
fn each_phase(hundredths: i64) -> Powers {
    Powers {
        l1: hundredths,
        l2: hundredths,
        l3: hundredths,
    }
}

fn three_phases(out: Stdout) -> io::Result<()> {
    let answered = new().after(sample(each_phase(120_000), 0));
    let ea = answered.meter.counters.active.positive;
    print!(out; "three phases of 120000 hundredths for one second: ")?;
    println!(out; "{} Wh, remainder {}", ea.wh.0, ea.remainder)
}

fn power(out: Stdout, hundredths: i64) -> io::Result<()> {
    let answered = new().after(sample(one_phase(hundredths), 0));
    print!(out; "P of {hundredths} hundredths, its sign and signed word:")?;
    show(
        out,
        answered.meter,
        &[POWER + P, SIGN + P, SIGNED_POWER + P],
    )
}

fn factor(out: Stdout, thousandths: i16) -> io::Result<()> {
    let answered = new().after(sample(one_phase(0), thousandths));
    print!(out; "factor {thousandths} in hundredths and thousandths:")?;
    show(
        out,
        answered.meter,
        &[FACTOR + HUNDREDTHS, FACTOR + THOUSANDTHS],
    )
}

// A meter with this +Ea, in Wh.
fn counted(wh: u64) -> Meter {
    let mut m = new();
    m.counters.active.positive.wh.0 = wh;
    m
}

// A record that holds this +Ea, in each of its places.
fn energy(out: Stdout, wh: u64) -> io::Result<()> {
    print!(out; "+Ea of {wh} Wh, register, wrap, Low and High:")?;
    show(
        out,
        counted(wh),
        &[
            ENERGY_COUNT + POS_EA,
            WRAP + POS_EA,
            LOW + POS_EA,
            HIGH + POS_EA,
        ],
    )
}

// What is shown of some quantities: the 32 bits of each, of which a W sends the lower 16.
fn show(out: Stdout, m: Meter, quantities: &[u16]) -> io::Result<()> {
    let Some(sound) = m.sound() else {
        return Ok(());
    };
    for quantity in quantities {
        print!(out; " {:08x}", registers::shown(sound, *quantity))?;
    }
    println!(out)
}

// Each refusal of a new meter, of a sample and of a frame, once.
pub fn refusals(out: Stdout) -> io::Result<()> {
    let meter = new();
    let outside = full();
    let top = counted(Meter::WH_TOP);
    let odd = Sample {
        sector: 3,
        ..meter.latest
    };
    let answers = [
        (
            "KTA 0, address 0",
            Meter::new(0, Ratios { kta: 0, ..DIRECT }).answer,
        ),
        ("address 0", Meter::new(0, DIRECT).answer),
        (
            "a remainder of 360000",
            outside.after(outside.latest).answer,
        ),
        ("a sector of 3", meter.after(odd).answer),
        (
            "phases of -2^63 hundredths",
            meter.after(sample(each_phase(i64::MIN), 0)).answer,
        ),
        // At the top the remainder may still fill; one more Wh is refused.
        (
            "359999 hundredths at the top",
            top.after(sample(one_phase(359_999), 0)).answer,
        ),
        (
            "360000 hundredths at the top",
            top.after(sample(one_phase(360_000), 0)).answer,
        ),
    ];
    for (name, answer) in answers {
        println!(out; "{name}: {}", Taken(answer))?;
    }
    of_a_frame(out)
}

// A record whose remainder is a whole Wh, out of limits.
fn full() -> Meter {
    let mut m = new();
    m.counters.active.positive.remainder = 360_000;
    m
}

// Record and buffer are looked at before the frame, which is too short to be heard.
fn of_a_frame(out: Stdout) -> io::Result<()> {
    handled(
        out,
        "a frame to a remainder of 360000",
        full(),
        &mut [0u8; REPLY_ROOM],
    )?;
    handled(
        out,
        "a frame with a buffer of 255 bytes",
        new(),
        &mut [0u8; REPLY_ROOM - 1],
    )
}

fn handled(out: Stdout, name: &str, m: Meter, buffer: &mut [u8]) -> io::Result<()> {
    print!(out; "{name}: ")?;
    match board::handle(m, &[1, 3], buffer).reply {
        Ok(None) => println!(out; "silent"),
        Ok(Some(n)) => println!(out; "bytes sent {n}"),
        Err(reason) => println!(out; "{reason}"),
    }
}
