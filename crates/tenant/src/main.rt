// A meter's second address (paper 02, request 3), through a board and a collector: what a tenant reads by it, and what is hidden from
// it. What each example comes to is printed, and held to the file `stdout`.
// The stream and the meter stay two arguments: each example hands its own meter on to the next.
#![tactic(auto)]

mod frames;
mod meters;

use ask::{OWN, SECOND};
use board::Meter;
use std::io::{self, Stdout};

fn main(rt: HostRuntime) -> io::Result<()> {
    let out = rt.stdout();
    let m = meters::read_by_two();
    reads(out, m)?;
    functions(out, m)?;
    writes(out, m)?;
    view(out, m)?;
    meters::new_meters(out)?;
    meters::refused(out, m)?;
    meters::alike(out, m)
}

// Data, what is wrong with a read, and two that no one hears.
fn reads(out: Stdout, m: Meter) -> io::Result<()> {
    frames::read(out, m, 0x0301, 2, "2 words from 0x0301")?;
    frames::read(out, m, 0x1000, 2, "2 words from 0x1000")?;
    frames::collect(out, m, 0x1000, 2, "  collected: ")?;
    frames::read(out, m, 0x101C, 2, "2 words from 0x101c")?;
    frames::collect(out, m, 0x101C, 2, "  collected: ")?;
    frames::read(out, m, 0x1000, 1, "half of an L")?;
    frames::read(out, m, 0x1001, 2, "a start inside an L")?;
    frames::read(out, m, 0x1000, 0, "no words")?;
    ask::send(out, m, "a read of 7 bytes", b"\x09\x03\x10\x00\x02\x78\x41")?;
    ask::send(out, m, "a wrong CRC", b"\x09\x03\x03\x01\x00\x02\x94\xC6")?;
    ask::send(out, m, "a read to 5", &ask::read(5, 0x0301, 2))?;
    Ok(())
}

// Any function but a read is wrong, however long the frame is. From 0x80 on none is heard.
fn functions(out: Stdout, m: Meter) -> io::Result<()> {
    ask::send(out, m, "function 0x00", b"\x09\x00\x07\xE0")?;
    ask::send(out, m, "function 0x04", b"\x09\x04\x03\x01\x00\x02\x21\x07")?;
    ask::send(out, m, "function 0x10", b"\x09\x10\x06\x2C")?;
    ask::send(out, m, "function 0x7f", b"\x09\x7F\x46\x00")?;
    ask::send(out, m, "function 0x83", b"\x09\x83\x03\x01\x00\x02\x95\x19")?;
    ask::send(out, m, "function 0x90", b"\x09\x90\x07\x8C")?;
    Ok(())
}

// One write to each address: only the tenant's is not stored.
fn writes(out: Stdout, m: Meter) -> io::Result<()> {
    let own = frames::write(out, m, "6 written to the meter", OWN, 6)?;
    let tenant = frames::write(out, own, "7 written by the tenant", SECOND, 7)?;
    let all = frames::write(out, tenant, "8 written to all meters", 0, 8)?;
    frames::write(out, all, "9 written by the tenant", SECOND, 9)?;
    Ok(())
}

// What a tenant sees of the directory: each block up to its end, and no item that only the owner has. The collector knows the whole
// directory, so it is the meter that tells it what is hidden. How many words are asked for is looked at first.
fn view(out: Stdout, m: Meter) -> io::Result<()> {
    frames::read(out, m, 0x0100, 2, "2 words from 0x0100")?;
    frames::read(out, m, 0x0300, 69, "69 words from 0x0300")?;
    frames::read(out, m, 0x0300, 70, "70 words from 0x0300")?;
    frames::read(out, m, 0x037A, 1, "1 word from 0x037a")?;
    frames::read(out, m, 0x037A, 2, "2 words from 0x037a")?;
    frames::read(out, m, 0x1000, 62, "62 words from 0x1000")?;
    frames::read(out, m, 0x1000, 63, "63 words from 0x1000")?;
    frames::read(out, m, 0x103C, 2, "2 words from 0x103c")?;
    frames::read(out, m, 0x103C, 3, "3 words from 0x103c")?;
    frames::read(out, m, 0x103D, 1, "1 word from 0x103d")?;
    frames::read(out, m, 0x1200, 1, "KTA at 0x1200")?;
    frames::collect(out, m, 0x1200, 1, "  collected: ")?;
    frames::read(out, m, 0x1500, 2, "Low at 0x1500")?;
    frames::read(out, m, 0x2000, 16, "setup at 0x2000")?;
    frames::collect(out, m, 0x2000, 16, "  collected: ")?;
    frames::read(out, m, 0x1200, 120, "120 words from 0x1200")?;
    frames::read(out, m, 0x1200, 121, "121 words from 0x1200")
}
