// What programs ask a meter and a collector, and what they are answered, as they print it.
#![tactic(auto)]

mod exchange;
mod heard;

ghost use Rattle.std.specs.Prelude.{◌≡◌};
ghost use Rattle.ask.specs.Ask.{read_of, write_of};

use board::{Given, Meter, Order, Ratios, Refusal};
use collector::Nameplate;
pub use exchange::{Exchange, Items, KIND_MARK, VALUE_MARK};
pub use heard::{Heard, hear};
use say::Bytes;
use std::convert::AsSlice;
use std::fmt::{self, Display};
use std::io::{self, Stdout, Write};

// Any reply has room in it. Stays a number, not modbus' FRAME_MOST: the wrong program `room_of_255` changes it in this line.
pub const REPLY_ROOM: usize = 256;

// A longer frame is told by its length. A reply of eight words is not.
const SHORT: usize = 21;

// The ratios of a meter without transformers.
pub const DIRECT: Ratios = Ratios { kta: 1, ktv: 10 };

// A meter's own address, and the one that a tenant reads it by.
pub const OWN: u8 = 1;

pub const SECOND: u8 = 9;

// Paper 01's meters send the upper word first. This one has no second address.
pub const GIVEN: Given = Given {
    address: OWN,
    second: Given::NO_SECOND,
    ratios: DIRECT,
    order: Order::UpperFirst,
};

// What a collector is told of such a meter.
pub const PLATE: Nameplate = Nameplate {
    ratios: DIRECT,
    order: Order::UpperFirst,
};

// A frame, byte for byte if it is short.
#[derive(Clone, Copy)]
struct Frame<'a>(&'a [u8]);

impl<'a> Display for Frame<'a> {
    fn fmt<W: fmt::Write>(&self, f: &mut fmt::Formatter<W>) -> fmt::Result {
        if self.0.len() <= SHORT {
            write!(f, "{}", Bytes(self.0))
        } else {
            write!(f, " with {} bytes", self.0.len())
        }
    }
}

// Whether a meter takes what it is given: a record, or a sample.
// Stays beside `say::Told`: what is taken has no value to print, and is told by a word.
#[derive(Clone, Copy)]
pub struct Taken(pub Result<(), Refusal>);

impl Display for Taken {
    fn fmt<W: fmt::Write>(&self, f: &mut fmt::Formatter<W>) -> fmt::Result {
        match self.0 {
            Ok(()) => f.write_str("accepted"),
            Err(reason) => write!(f, "{reason}"),
        }
    }
}

// A read of some words from a start on.
pub fn read(address: u8, start: u16, words: u8) -> [u8; 8]
    ensures { result ≡ read_of address start words }
{
    let mut frame = [address, 0x03, 0, 0, 0, 0, 0, 0];
    frame[2..4].copy_from_slice(&start.to_be_bytes());
    frame[4..6].copy_from_slice(&u16::from(words).to_be_bytes());
    crc::put(&mut frame, 6);
    frame
}

// A write of the 16 words from 0x2000 on, all 0 but the one at 0x2003 and the one at 0x200a, the window's code.
pub fn write(address: u8, word: u8, code: u8) -> [u8; 41]
    ensures { result ≡ write_of address word code }
{
    let mut frame = [0; 41];
    frame[0] = address;
    frame[1] = 0x10;
    frame[2] = 0x20;
    frame[5] = 16;
    frame[6] = 32;
    frame[14] = word;
    frame[28] = code;
    crc::put(&mut frame, 39);
    frame
}

// A frame by its name, which is any bytes, and what it is answered with. Hands back the meter after it.
pub fn send<N: AsSlice<u8> + Drop>(
    mut out: Stdout,
    m: Meter,
    name: N,
    frame: &[u8],
) -> io::Result<Meter> {
    let mut buffer = [0u8; REPLY_ROOM];
    let heard = hear(m, frame, &mut buffer);
    out.write_all(name.as_slice())?;
    println!(out; ", asked{}{heard}", Frame(frame))?;
    Ok(heard.meter)
}
