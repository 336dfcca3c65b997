// What a collector makes of a meter's reply.
ghost use Rattle.std.specs.Prelude.{◌≡◌};
ghost use Rattle.collector.specs.Collector.{collector_of};
ghost use Rattle.ask.specs.Ask.{answer_of};

use collector::{Answer, Nameplate, Quantity, Unread};
use std::fmt::{self, Display};

// A request, the reply to it, and what the collector is told of the meter.
#[derive(Clone, Copy)]
pub struct Exchange<'a> {
    pub request: &'a [u8],
    pub reply: &'a [u8],
    pub plate: Nameplate,
}

impl<'a> Exchange<'a> {
    // One item of the reply. Stays a match: neither Answer nor Result is this crate's own type, so no From can stand here.
    pub fn item(self, index: usize) -> Result<Quantity, Unread>
        ensures { collector_of self.entry.request.now self.entry.reply.now self.entry.plate index ≡ answer_of result }
    {
        match collector::read(self.request, self.reply, self.plate, index) {
            Answer::Reading(quantity) => Ok(quantity),
            Answer::Error(code) => Err(Unread::Error(code)),
            Answer::Refused(reason) => Err(Unread::Refused(reason)),
        }
    }
}

// How many items a whole reply has, or why it is not read.
// Stays beside `say::Told`: the number is printed behind its word.
#[derive(Clone, Copy)]
pub struct Items(pub Result<usize, Unread>);

impl Display for Items {
    fn fmt<W: fmt::Write>(&self, f: &mut fmt::Formatter<W>) -> fmt::Result {
        match self.0 {
            Ok(n) => write!(f, "items {n}"),
            Err(why) => write!(f, "{why}"),
        }
    }
}

// What the cells of both rows hold before a whole read. No kind has this number, and no item of the examples reads as it: a cell that
// shows it was not written.
pub const VALUE_MARK: u64 = 99;

pub const KIND_MARK: u8 = 99;
