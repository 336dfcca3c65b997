// All items of a reply, in two rows of three cells: every cell, and so also one that is not written.
use ask::{Exchange, Items, KIND_MARK, VALUE_MARK};
use say::Row;
use std::io::{self, Stdout};

pub fn read(out: Stdout, exchange: Exchange<'_>) -> io::Result<()> {
    let mut values = [VALUE_MARK; 3];
    let mut kinds = [KIND_MARK; 3];
    let Exchange {
        request,
        reply,
        plate,
    } = exchange;
    let whole = collector::read_whole(request, reply, plate, &mut values, &mut kinds);
    println!(out;
        "{}; values{}; kinds{}",
        Items(whole),
        Row(&values),
        Row(&kinds)
    )
}
