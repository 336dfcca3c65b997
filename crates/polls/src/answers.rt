// What the collector makes of a reply, item by item and in words.
use ask::Exchange;
use collector::{Nameplate, Quantity, Signed};
use say::Told;
use std::fmt::{self, Display};
use std::io::{self, Stdout};

// A request, the reply to it, what the collector is told of the meter, and how many items are read.
// Stays flat, with no Exchange inside: so an example names just what differs from another. `rows` counts something else of its own.
#[derive(Clone, Copy)]
pub struct Poll {
    pub name: &'static str,
    pub request: &'static [u8],
    pub reply: &'static [u8],
    pub plate: Nameplate,
    pub items: usize,
}

impl Poll {
    // The first items of the reply, a line each.
    pub fn read(self, out: Stdout) -> io::Result<()> {
        let Poll {
            name,
            request,
            reply,
            plate,
            items,
        } = self;
        let exchange = Exchange {
            request,
            reply,
            plate,
        };
        for index in 0..items {
            let reading = Told(exchange.item(index).map(Figure));
            println!(out; "{name}, item {index}: {reading}")?;
        }
        Ok(())
    }
}

// A reading behind its name and unit.
// Stays a type of its own: each program has its own words for a reading.
#[derive(Clone, Copy)]
struct Figure(Quantity);

impl Display for Figure {
    fn fmt<W: fmt::Write>(&self, f: &mut fmt::Formatter<W>) -> fmt::Result {
        match self.0 {
            Quantity::Voltage(mv) => write!(f, "voltage in mV {mv}"),
            Quantity::Current(ma) => write!(f, "current in mA {ma}"),
            Quantity::Power(p) => write!(f, "power in hundredths {p}"),
            Quantity::SignedPower(p) => {
                write!(f, "signed power in whole units {}{}", minus(p), p.magnitude)
            }
            Quantity::Energy { count, step, wh } => {
                write!(f, "energy count {}, step {step}, Wh {}", count.0, wh.0)
            }
            Quantity::Low(n) => write!(f, "Low {n}"),
            Quantity::High(n) => write!(f, "High {n}"),
            Quantity::Wrap(n) => write!(f, "wrap {n}"),
            Quantity::Factor(p) => write!(f, "factor in thousandths {}{}", minus(p), p.magnitude),
            Quantity::Sign(n) => write!(f, "sign {n}"),
            Quantity::Sector(n) => write!(f, "sector {n}"),
            Quantity::Frequency(n) => write!(f, "frequency in tenths of Hz {n}"),
            Quantity::Kta(n) => write!(f, "KTA {n}"),
            Quantity::Ktv(n) => write!(f, "KTV in tenths {n}"),
            Quantity::Sequence(n) => write!(f, "sequence {n}"),
            Quantity::Plain(n) => write!(f, "plain word {n}"),
        }
    }
}

// What stands before the magnitude.
// Stays beside `orders`' sign: a Display of `Signed` would not know the unit that stands with it.
fn minus(number: Signed) -> &'static str {
    if number.negative { "-" } else { "" }
}
