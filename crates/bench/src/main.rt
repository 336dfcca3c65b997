// A meter on the bench: a line of standard input is a frame, and a line of standard output what the meter does with it
// (paper 01, the program `bench`).
#![tactic(auto)]

ghost use Rattle.std.specs.Prelude.{◌≡◌, ◌≤◌, length, take, IfOk};
ghost use Rattle.transcript.specs.Transcript.{bench_text};

use std::io::{self, Read, Stdin, Write};

fn main(rt: HostRuntime) -> io::Result<()> {
    let mut input = input_buffer();
    let n = read_full(rt.stdin(), &mut input)?;
    let mut text = text_buffer();
    let end = answer(&input[..n], &mut text);
    rt.stdout().write_all(&text[..end])
}

// Room for what is read: 65,536 bytes of input.
// Stays spelled out, as in `text_buffer`.
fn input_buffer() -> [u8; 65_536]
    ensures { 65536 ≡ length result }
{
    [0; 65_536]
}

// Reads until the buffer is full or the input ends, and answers how many bytes it put at the buffer's start.
// Stays a loop over reads into the whole rest of the buffer: `io::copy` reads 8,192 bytes at a time, and what a packet has beyond
// them would be lost.
fn read_full(mut input: Stdin, buffer: &mut [u8]) -> io::Result<usize>
    ensures { IfOk result (λ n. n ≤ length buffer.new) }
{
    let mut filled = 0;
    while filled < buffer.len() {
        let n = input.read(&mut buffer[filled..])?;
        if n == 0 {
            break;
        }
        filled += n;
    }
    Ok(filled)
}

// Room for the text: 32 characters for each of 65,536 bytes of input.
// Stays spelled out: the contracts of `text_buffer` and `answer` name the number, in digits.
fn text_buffer() -> [u8; 2_097_152]
    ensures { 2097152 ≡ length result }
{
    [0; 2_097_152]
}

// Puts the whole text at the start of the buffer, which has room for it, and answers where it ends.
fn answer(input: &[u8], text: &mut [u8]) -> usize
    requires { (length input.now ≤ 65536) × (2097152 ≡ length text.old) }
    ensures { (result ≤ 2097152) × (take result text.new ≡ bench_text input.now) }
{
    transcript::of(input, text).unwrap()
}
