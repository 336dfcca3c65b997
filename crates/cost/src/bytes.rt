// The CRC of what stands on standard input, again and again: the meter's, put behind the bytes, or the host's, eight bytes at once.
// Each turn changes a byte by the result of the turn before, so that the compiler can leave none out.
// Stays two loops, each with its own turns: the two are counted apart. `n` stays beside the buffer: `crc::put` needs room behind it.
use crate::ROOM;

const CRC_TURNS: u32 = 1000;

const HOST_TURNS: u32 = 1000;

pub fn sealed(buf: &mut [u8; ROOM], n: usize) -> u8 {
    for _ in 0..CRC_TURNS {
        turn(buf, n);
    }
    buf[0]
}

pub fn hosted(buf: &mut [u8; ROOM], n: usize) -> u8 {
    for _ in 0..HOST_TURNS {
        host_turn(buf, n);
    }
    buf[0]
}

fn turn(buf: &mut [u8; ROOM], n: usize) {
    crc::put(buf, n);
    if n < ROOM {
        buf[0] = buf[n];
    }
}

fn host_turn(buf: &mut [u8; ROOM], n: usize) {
    if n <= ROOM {
        let [low, _] = eight::of(&buf[..n]).to_le_bytes();
        buf[0] = low;
    }
}
