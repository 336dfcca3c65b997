// The documents' frames: what a meter answers whose record gives the printed answer, which the file `stdout` has.
use crate::meters;
use ask::{DIRECT, REPLY_ROOM};
use board::{Meter, Sample};
use say::Bytes;
use std::io::{self, Stdout};

// A frame by its name.
struct Frame {
    name: &'static str,
    bytes: &'static [u8],
}

// The words of 001's answers, written to a meter, and then read. 001's answer of 0x2000 has 16 words, in spite of the 16 BYTES beside
// its table. A meter that was sent the words of 0x2200 answers 24, with the printed CRC.
static SETUP: [Frame; 4] = [
    Frame {
        name: "write to 0x2000",
        bytes: b"\xFF\x10\x20\x00\x00\x10\x20\x00\x00\x00\x05\x00\x00\x00\x03\x00\x0A\x00\x00\x00\x00\x00\x00\x00\x01\x00\x01\x00\x00\x00\x00\x00\x03\x00\x02\x00\x01\x00\x00\x5D\x23",
    },
    Frame {
        name: "write to 0x2200",
        bytes: b"\xFF\x10\x22\x00\x00\x18\x30\x00\x00\x00\x00\x00\x00\x00\x00\x00\x00\x00\x00\x00\x00\x00\x00\x00\x00\x00\x00\x00\x00\x00\x00\x00\x00\x00\x00\x00\x00\x00\x00\x00\x00\x00\x00\x00\x00\x00\x00\x00\x00\x00\x00\x00\x02\x00\x01\xEE\x91",
    },
    Frame {
        name: "001, 0x2000",
        bytes: b"\xFF\x03\x20\x00\x00\x10\x5A\x18",
    },
    Frame {
        name: "001, 0x2200",
        bytes: b"\xFF\x03\x22\x00\x00\x18\x5A\x66",
    },
];

// Frames whose printed CRC is not the rule's, without it. Of the answers of 0x2200 as they are printed, 001's shows 25 words where
// its byte number says 24, and 000's has the last two the other way round.
static MISPRINTS: [Frame; 2] = [
    Frame {
        name: "001 answer of 0x2200, 25 words",
        bytes: b"\xFF\x03\x30\x00\x00\x00\x00\x00\x00\x00\x00\x00\x00\x00\x00\x00\x00\x00\x00\x00\x00\x00\x00\x00\x00\x00\x00\x00\x00\x00\x00\x00\x00\x00\x00\x00\x00\x00\x00\x00\x00\x00\x00\x00\x00\x00\x00\x00\x00\x00\x02\x00\x01",
    },
    Frame {
        name: "000 answer of 0x2200",
        bytes: b"\xFF\x03\x30\x00\x00\x00\x00\x00\x00\x00\x00\x00\x00\x00\x00\x00\x00\x00\x00\x00\x00\x00\x00\x00\x00\x00\x00\x00\x00\x00\x00\x00\x00\x00\x00\x00\x00\x00\x00\x00\x00\x00\x00\x00\x00\x00\x00\x00\x01\x00\x02",
    },
];

// The CRC that is printed with both.
const MISPRINTED: [u8; 2] = [0x6D, 0xC1];

pub fn examples(out: Stdout) -> io::Result<()> {
    measured(out)?;
    of_001(out)?;
    for frame in &MISPRINTS {
        misprint(out, frame)?;
    }
    Ok(())
}

// Two voltages and one of 003, and 004's energies.
fn measured(out: Stdout) -> io::Result<()> {
    let reads = [
        (
            "003, two voltages",
            with_voltages(55_429, 34_463),
            b"\x01\x03\x03\x01\x00\x04\x15\x8D",
        ),
        (
            "003, 100 V",
            with_voltages(100_000, 0),
            b"\x01\x03\x03\x01\x00\x02\x95\x8F",
        ),
        (
            "004, two energies",
            with_energies(257_400, 136_520),
            b"\x01\x03\x10\x1C\x00\x04\x81\x0F",
        ),
    ];
    for (name, meter, frame) in reads {
        exchange(out, meter, name, frame)?;
    }
    Ok(())
}

// One meter answers all four.
fn of_001(out: Stdout) -> io::Result<()> {
    let mut meter = meters::made(0xFF, DIRECT);
    for frame in &SETUP {
        meter = exchange(out, meter, frame.name, frame.bytes)?;
    }
    Ok(())
}

// The meter after a sample with these phase voltages.
fn with_voltages(l1: u32, l2: u32) -> Meter {
    let m = meters::made(1, DIRECT);
    let answered = m.after(Sample {
        voltages: [l1, l2, 0, 0, 0, 0],
        ..m.latest
    });
    answered.meter
}

// A meter with this +Ea and +Er, in Wh and varh, at a step of 10 Wh.
fn with_energies(active: u64, reactive: u64) -> Meter {
    let mut m = meters::made(1, DIRECT);
    m.counters.active.positive.wh.0 = active;
    m.counters.reactive.positive.wh.0 = reactive;
    m
}

// Prints a frame and what a meter replies to it. Hands back the meter after it.
fn exchange(out: Stdout, m: Meter, name: &str, frame: &[u8]) -> io::Result<Meter> {
    print!(out; "{name},{}:", Bytes(frame))?;
    let mut buffer = [0u8; REPLY_ROOM];
    let heard = ask::hear(m, frame, &mut buffer);
    match heard.reply {
        Ok(Some(reply)) => println!(out; "{}", Bytes(reply))?,
        _ => println!(out; " no reply")?,
    }
    Ok(heard.meter)
}

// The rule's CRC, and the printed one.
fn misprint(out: Stdout, frame: &Frame) -> io::Result<()> {
    let crc = crc::of(frame.bytes).to_le_bytes();
    println!(out;
        "{}:{}, printed{}",
        frame.name,
        Bytes(&crc),
        Bytes(&MISPRINTED)
    )
}
