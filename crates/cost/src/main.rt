// Work to count instructions by. docs/COST.md has the figures, each the difference that a thousand more turns make.
#![tactic(auto)]

mod bytes;
mod figures;
mod frames;
mod once;
mod readings;

use arrayvec::ArrayVec;
use std::io::{self, Read};

// The bytes of standard input that are read. Stays beside `ask::REPLY_ROOM`: what is read here is a frame to the meter, no reply.
const ROOM: usize = 256;

fn main(rt: HostRuntime) -> io::Result<()> {
    let out = rt.stdout();
    let mut input = ArrayVec::<u8, ROOM>::new();
    // Stays a cast: a usize has no From to u64.
    io::copy(&mut rt.stdin().take(ROOM as u64), &mut input)?;
    let frame = input.as_slice();
    println!(out; "{:02x}", frames::answered(frame))?;
    println!(out; "{:02x}", readings::collected(frame, readings::one_by_one))?;
    println!(out; "{:02x}", readings::collected(frame, readings::wholly))?;
    let mut buf = [0u8; ROOM];
    buf[..frame.len()].copy_from_slice(frame);
    println!(out; "{:02x}", bytes::sealed(&mut buf, frame.len()))?;
    println!(out; "{:02x}", bytes::hosted(&mut buf, frame.len()))?;
    println!(out; "{}", figures::counted())?;
    println!(out; "{:02x}", once::each())?;
    println!(out; "{:02x}", once::whole())
}
