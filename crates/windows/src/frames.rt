// Frames to a meter of address 1.

// A read of some words from an address on.
pub fn read(start: u16, words: u8) -> [u8; 8] {
    ask::read(1, start, words)
}

// A write of this code at 0x200a. The word at 0x2003, which has nothing to do with windows, is not a new meter's, so that a write of
// the same code changes the group all the same.
pub fn write(address: u8, code: u8) -> [u8; 41] {
    ask::write(address, 10, code)
}
