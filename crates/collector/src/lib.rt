// The collector: a request and the reply to it in, one reading out (paper 01, "Collector"), or all of them in two rows (`whole`). All
// that it knows of the meter is its directory and the nameplate that it is told.
#![tactic(auto)]

ghost use Rattle.std.specs.Prelude.{◌≡◌};
ghost use Rattle.collector.specs.Collector.{collector_of};

mod data;
mod whole;

use data::Data;

// All that a collector's program needs is here: `read`, `read_whole`, the joins, and the types of what they take and give.
pub use counts::{Count, WattHours, join, join_halves};
pub use ratio::Ratios;
pub use reading::{Answer, Quantity};
pub use refusal::{ErrorCode, Refusal};
pub use replies::Unread;
pub use signed::Signed;
pub use whole::read_whole;
pub use words::Order;

// What a collector is told of the meter that it asks: the transformer ratios, and which word of a long goes first.
#[derive(Clone, Copy, Debug, PartialEq, Eq)]
pub struct Nameplate {
    pub ratios: Ratios,
    pub order: Order,
}

// What one item of a reply reads as. The nameplate is that of the meter that was asked; the index counts the items from 0.
pub fn read(request: &[u8], reply: &[u8], plate: Nameplate, index: usize) -> Answer
    ensures { result ≡ collector_of request.now reply.now plate index }
{
    let directory = own::directory();
    match replies::judge(&directory, request, reply, plate.ratios) {
        Ok(span) => {
            let data = Data {
                asked: directory.part(span),
                reply,
                order: plate.order,
                tenths: plate.ratios.tenths(),
            };
            data.item(index)
        }
        Err(why) => Answer::from(why),
    }
}
