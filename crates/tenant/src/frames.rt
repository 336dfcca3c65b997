// Frames to a meter that a tenant reads too, and what it answers.
use ask::{Exchange, OWN, PLATE, REPLY_ROOM, SECOND};
use board::Meter;
use collector::Quantity;
use say::Told;
use std::fmt::{self, Display};
use std::io::{self, Stdout};

// A tenant's read, and its reply.
pub fn read(out: Stdout, m: Meter, start: u16, words: u8, name: &str) -> io::Result<()> {
    ask::send(out, m, name, &ask::read(SECOND, start, words))?;
    Ok(())
}

// A write of a word at 0x2003, which the owner then reads. Hands back the meter after it.
pub fn write(out: Stdout, m: Meter, name: &str, address: u8, word: u8) -> io::Result<Meter> {
    let next = ask::send(out, m, name, &ask::write(address, word, 0))?;
    ask::send(out, next, "  0x2003", &ask::read(OWN, 0x2003, 1))
}

// A tenant's read, and what the collector makes of the first item of its reply.
// Stays spelled out, as in other programs: each prints something else of the frame and the reply.
pub fn collect(out: Stdout, m: Meter, start: u16, words: u8, name: &str) -> io::Result<()> {
    let request = ask::read(SECOND, start, words);
    let mut buffer = [0u8; REPLY_ROOM];
    let heard = ask::hear(m, &request, &mut buffer);
    let Ok(Some(reply)) = heard.reply else {
        return println!(out; "{name}{heard}");
    };
    let exchange = Exchange {
        request: &request,
        reply,
        plate: PLATE,
    };
    println!(out; "{name}{}", Told(exchange.item(0).map(Figure)))
}

// A voltage or an energy: no other reading is asked for.
// Stays a type of its own: each program has its own words for a reading.
#[derive(Clone, Copy)]
struct Figure(Quantity);

impl Display for Figure {
    fn fmt<W: fmt::Write>(&self, f: &mut fmt::Formatter<W>) -> fmt::Result {
        match self.0 {
            Quantity::Voltage(mv) => write!(f, "{mv} mV"),
            Quantity::Energy { count, step: _, wh } => {
                write!(f, "a count of {}, {} Wh", count.0, wh.0)
            }
            _ => Ok(()),
        }
    }
}
