// A collector that reads the items of a meter's reply to the frame on standard input, one by one or by one call, again and again.
use crate::figures;
use ask::{Exchange, PLATE, REPLY_ROOM};
use collector::{Answer, Quantity, Unread};

const READ_TURNS: u32 = 1000;

const WHOLE_TURNS: u32 = 1000;

// The items of one turn: the index of the first, and how many.
const READ_FROM: usize = 0;

const READ_ITEMS: usize = 28;

// The cells of either row that a whole read is lent.
const CELLS: usize = 64;

// What is read, again and again, of a meter's reply to a request. It stays a call: where it is compiled into `main`, so is the
// judgement into its loop, and a reading counts 105 instructions less.
// Stays spelled out, as in other programs: they print frame and reply, which would be counted here.
#[inline(never)]
pub fn collected<F>(request: &[u8], read: F) -> u64
where
    F: Fn(Exchange<'_>) -> u64,
    requires { F.IsAlwaysCallable read }
{
    let mut buffer = [0u8; REPLY_ROOM];
    match ask::hear(figures::new(), request, &mut buffer).reply {
        Ok(Some(reply)) => read(Exchange {
            request,
            reply,
            plate: PLATE,
        }),
        _ => 0,
    }
}

pub fn wholly(exchange: Exchange<'_>) -> u64 {
    let Exchange {
        request,
        reply,
        plate,
    } = exchange;
    let mut values = [0u64; CELLS];
    let mut kinds = [0u8; CELLS];
    let mut sum = 0;
    for _ in 0..WHOLE_TURNS {
        sum |= items(collector::read_whole(request, reply, plate, &mut values, &mut kinds));
    }
    sum | values[1]
}

pub fn items(whole: Result<usize, Unread>) -> u64 {
    match whole {
        // Stays a cast: a usize has no From to u64.
        Ok(n) => n as u64,
        Err(Unread::Error(code)) => u64::from(code.number()),
        Err(Unread::Refused(reason)) => u64::from(reason.number()),
    }
}

pub fn one_by_one(exchange: Exchange<'_>) -> u64 {
    let mut sum = 0;
    for _ in 0..READ_TURNS {
        sum |= turn(exchange);
    }
    sum
}

fn turn(exchange: Exchange<'_>) -> u64 {
    let Exchange {
        request,
        reply,
        plate,
    } = exchange;
    let mut sum = 0;
    for index in READ_FROM..READ_FROM + READ_ITEMS {
        sum |= value(collector::read(request, reply, plate, index));
    }
    sum
}

pub fn value(a: Answer) -> u64 {
    match a {
        Answer::Reading(q) => first_of(q),
        Answer::Error(code) => u64::from(code.number()),
        Answer::Refused(reason) => u64::from(reason.number()),
    }
}

// Of the others it is enough to know that they were read.
fn first_of(q: Quantity) -> u64 {
    match q {
        Quantity::Energy { count, step, wh } => u64::from(count.0) | u64::from(step) | wh.0,
        Quantity::Plain(v) => u64::from(v),
        _ => 1,
    }
}
