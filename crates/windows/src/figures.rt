// A meter's seconds, and what the collector reads of its average, peak and minutes.
use crate::frames;
use ask::{Exchange, GIVEN, PLATE, REPLY_ROOM};
use board::{Given, Meter, Powers, Ratios, Sample};
use collector::{Nameplate, Quantity, Unread};
use say::Told;
use std::fmt::{self, Display};
use std::io::{self, Stdout};

// Where the three figures stand, in five words.
pub const BYTE_BLOCK: u16 = 0x0350;

pub const WORD_BLOCK: u16 = 0x1027;

// A new meter without voltage transformers.
// Stays beside the other programs' new meters: each names what its own examples change of `Given`.
pub fn new(kta: u16) -> Meter {
    let ratios = Ratios { kta, ktv: 10 };
    Meter::of(Given { ratios, ..GIVEN }).meter
}

// Some seconds more, and the figures after them.
pub fn after(out: Stdout, m: Meter, seconds: u32, l1: i64, name: &str) -> io::Result<Meter> {
    let next = run(out, m, seconds, l1)?;
    show(out, next, WORD_BLOCK, name)?;
    Ok(next)
}

// The meter after some seconds. Phase 1 has the power given, in hundredths of W; phase 2 rises from 0 by one each second, so that
// 3-phase P is not constant. Only a refused sample is told.
fn run(out: Stdout, m: Meter, seconds: u32, l1: i64) -> io::Result<Meter> {
    let mut meter = m;
    for second in 0..seconds {
        let p = Powers {
            l1,
            l2: i64::from(second),
            l3: 0,
        };
        let answered = meter.after(Sample { p, ..m.latest });
        meter = answered.meter;
        if let Err(reason) = answered.answer {
            println!(out; "  a sample, {reason}")?;
        }
    }
    Ok(meter)
}

// The three figures by one read.
// Stays spelled out, as in other programs: each prints something else of the frame and the reply.
pub fn show(out: Stdout, m: Meter, start: u16, name: &str) -> io::Result<()> {
    let request = frames::read(start, 5);
    let mut buffer = [0u8; REPLY_ROOM];
    let heard = ask::hear(m, &request, &mut buffer);
    let Ok(Some(reply)) = heard.reply else {
        return println!(out; "{name}{heard}");
    };
    let exchange = Exchange {
        request: &request,
        reply,
        plate: Nameplate {
            ratios: m.given.ratios,
            ..PLATE
        },
    };
    println!(out;
        "{name}{heard}: average {}, peak {}, minutes {}",
        item(exchange, 0),
        item(exchange, 1),
        item(exchange, 2)
    )
}

// One item of a reply, as the collector reads it.
pub fn item(exchange: Exchange<'_>, index: usize) -> Told<Figure, Unread> {
    Told(exchange.item(index).map(Figure))
}

// A power in hundredths of W, or a plain word: nothing else is asked for.
// Stays a type of its own: each program has its own words for a reading.
#[derive(Clone, Copy)]
pub struct Figure(Quantity);

impl Display for Figure {
    fn fmt<W: fmt::Write>(&self, f: &mut fmt::Formatter<W>) -> fmt::Result {
        match self.0 {
            Quantity::Power(hundredths) => write!(f, "{hundredths}"),
            Quantity::Plain(word) => write!(f, "{word}"),
            _ => Ok(()),
        }
    }
}
