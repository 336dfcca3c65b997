// The energy on a feed, as a collector polls it from the feed's meter.
ghost use Rattle.std.specs.Prelude.{◌≤◌, length, IfOk, IfSome};

use ask::{Exchange, REPLY_ROOM};
use board::Meter;
use collector::{Answer, Nameplate, Order, Quantity, Ratios, Refusal, WattHours};
use say::Bytes;
use std::io::{self, Stdout};

// Reads of +Ea, with their CRC: two words from 0x0325, two from 0x101c, the wrap word of both at 0x1540, Low and High from 0x1500.
const BYTE_REGISTER: [u8; 8] = [0x01, 0x03, 0x03, 0x25, 0x00, 0x02, 0xD5, 0x84];

const WORD_REGISTER: [u8; 8] = [0x01, 0x03, 0x10, 0x1C, 0x00, 0x02, 0x01, 0x0D];

const WRAP_WORD: [u8; 8] = [0x01, 0x03, 0x15, 0x40, 0x00, 0x01, 0x81, 0xD2];

const LOW_AND_HIGH: [u8; 8] = [0x01, 0x03, 0x15, 0x00, 0x00, 0x04, 0x40, 0x05];

// A meter, and the exact energy that has gone past it, in whole Wh.
#[derive(Clone, Copy)]
pub struct Feed {
    pub out: Stdout,
    pub meter: Meter,
    pub exact: u64,
}

impl Feed {
    // Each place, compared with the exact energy.
    pub fn three_places(self) -> io::Result<()> {
        println!(self.out; "+Ea from the byte-addressed register")?;
        self.register(&BYTE_REGISTER)?;
        println!(self.out; "+Ea from the word register")?;
        self.register(&WORD_REGISTER)?;
        println!(self.out; "+Ea from the exact table")?;
        self.halves()
    }

    // A register's count and the wrap word, joined.
    fn register(self, request: &[u8]) -> io::Result<()> {
        let Some(Quantity::Energy { count, step, wh: _ }) = self.first(request)? else {
            return Ok(());
        };
        let Some(Quantity::Wrap(wrap)) = self.first(&WRAP_WORD)? else {
            return Ok(());
        };
        println!(self.out;
            "  read as a count of {} in steps of {step} Wh, and a wrap of {wrap}",
            count.0
        )?;
        let ratios = self.ratios();
        self.load(collector::join(ratios, count, wrap), u64::from(step))
    }

    // Low and High of one reply, joined.
    fn halves(self) -> io::Result<()> {
        let mut buffer = [0u8; REPLY_ROOM];
        let Some(exchange) = self.poll(&LOW_AND_HIGH, &mut buffer)? else {
            return Ok(());
        };
        let Some(Quantity::Low(low)) = self.read(exchange, 0)? else {
            return Ok(());
        };
        let Some(Quantity::High(high)) = self.read(exchange, 1)? else {
            return Ok(());
        };
        println!(self.out; "  read as a Low of {low} and a High of {high}")?;
        self.load(collector::join_halves(low, high), 1)
    }

    // The first item that a request is answered with.
    fn first(self, request: &[u8]) -> io::Result<Option<Quantity>> {
        let mut buffer = [0u8; REPLY_ROOM];
        let Some(exchange) = self.poll(request, &mut buffer)? else {
            return Ok(None);
        };
        self.read(exchange, 0)
    }

    // The board's answer to a request, if there is one. A read leaves the meter as it is, so the one handed back is not kept.
    // Stays spelled out, as the README shows the call; other programs go through `ask::hear`.
    fn poll<'a>(
        self,
        request: &'a [u8],
        buffer: &'a mut [u8; REPLY_ROOM],
    ) -> io::Result<Option<Exchange<'a>>>
        ensures { IfOk result (λ answer. IfSome answer (λ x. length x.reply.now ≤ 256)) }
    {
        let Feed { out, meter, .. } = self;
        let handled = board::handle(meter, request, buffer);
        let reply = match handled.reply {
            Ok(Some(n)) => &buffer[..n],
            Ok(None) => {
                println!(out; "  asked{}, silent", Bytes(request))?;
                return Ok(None);
            }
            Err(reason) => {
                println!(out; "  asked{}, {reason}", Bytes(request))?;
                return Ok(None);
            }
        };
        println!(out; "  asked{}, answered{}", Bytes(request), Bytes(reply))?;
        let ratios = self.ratios();
        let plate = Nameplate {
            ratios,
            order: Order::UpperFirst,
        };
        Ok(Some(Exchange {
            request,
            reply,
            plate,
        }))
    }

    // The collector reads one item of a reply. An error code or a refusal is told here.
    // Stays a call of `collector::read`, no `Exchange::item`, as the README shows it.
    fn read(self, exchange: Exchange<'_>, index: usize) -> io::Result<Option<Quantity>> {
        let Exchange {
            request,
            reply,
            plate,
        } = exchange;
        let answer = collector::read(request, reply, plate, index);
        match answer {
            Answer::Reading(quantity) => return Ok(Some(quantity)),
            Answer::Error(code) => println!(self.out; "{code}")?,
            Answer::Refused(reason) => println!(self.out; "{reason}")?,
        }
        Ok(None)
    }

    fn ratios(self) -> Ratios {
        self.meter.given.ratios
    }

    // What a join comes to: an energy, held against the exact one, or why there is none.
    fn load(self, joined: Result<WattHours, Refusal>, step: u64) -> io::Result<()> {
        match joined {
            Ok(wh) => self.bounds(wh.0, step),
            Err(reason) => println!(self.out; "{reason}"),
        }
    }

    // All in whole Wh: what the exact energy has beyond them is less than a Wh, and decides neither bound.
    fn bounds(self, joined: u64, step: u64) -> io::Result<()> {
        let exact = self.exact;
        let above = yes_or_no(joined <= exact);
        let below = yes_or_no(exact.saturating_sub(joined) < step);
        println!(self.out; "  joined: {joined} Wh")?;
        println!(self.out; "  never above the exact {exact} Wh: {above}")?;
        println!(self.out; "  below it by less than one step, {step} Wh: {below}")
    }
}

fn yes_or_no(holds: bool) -> &'static str {
    if holds { "yes" } else { "no" }
}
