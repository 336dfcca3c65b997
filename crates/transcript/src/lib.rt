// What the program `bench` writes, of the whole of its input (paper 01, the program `bench`).
#![tactic(auto)]

ghost use Rattle.std.specs.Prelude.{◌≡◌, ℕ, ◌*◌, ◌≤◌, ◌<◌, length};
ghost use Rattle.std.proofs.lemmas.List.Edits.{sets};
ghost use Rattle.transcript.specs.Transcript.{reply_text, line_text, meter_after, bench_text, Transcribed};

use board::Refusal;
use meter::Meter;
use meter::given::Given;
use ratio::Ratios;
use words::Order;

// One byte more than the longest frame. A longer one is cut here; what is left is still too long, and the meter keeps silent on it.
const FRAME_ROOM: usize = modbus::FRAME_MOST + 1;

// Room for any reply. Arrays with a length beside them stay: memory is fixed, and nothing here is on a heap.
const REPLY_ROOM: usize = modbus::FRAME_MOST;

// The characters that one byte of input may lead to. The longest answer for its line is data of 120 words: 735 characters, with the
// line feed, to a request of 23.
const ROOM_A_BYTE: usize = 32;

// Puts the text of the whole input at the start of `text`, and answers its length. Without room for 32 characters a byte of
// the input it changes nothing.
pub fn of(input: &[u8], text: &mut [u8]) -> Option<usize>
    ensures { Transcribed input.now text.old result text.new }
{
    if text.len() / ROOM_A_BYTE < input.len() {
        return None;
    }
    Some(run(input, text))
}

// One meter answers all lines, so that a write lasts. The bytes behind the last line feed, if there are any, are a line too.
fn run(input: &[u8], text: &mut [u8]) -> usize
    requires { 32 * length input.now ≤ length text.old }
    ensures value { result ≡ length (bench_text input.now) }
    ensures text_after { text.new ≡ sets text.old 0 (bench_text input.now) }
{
    let new = Meter::of(Given {
        address: 1,
        second: Given::NO_SECOND,
        ratios: Ratios { kta: 1, ktv: 10 },
        order: Order::UpperFirst,
    });
    let mut meter = new.meter;
    let mut at = 0;
    let mut end = 0;
    // Stays a while loop: the parts of `split_inclusive` hold their line feeds, which a second call would have to take off.
    while at < input.len() {
        let stop = lines::line_end(input, at);
        end += answer(&mut meter, &input[at..stop], &mut text[end..]);
        text[end] = lines::LINE_FEED;
        end += 1;
        at = stop + 1;
    }
    end
}

// Puts the answer to a line at the start of the text, and answers its length.
fn answer(meter: &mut Meter, line: &[u8], text: &mut [u8]) -> usize
    requires { length (line_text meter.old line.now) < length text.old }
    ensures meter_after { meter.new ≡ meter_after meter.old line.now }
    ensures value { result ≡ length (line_text meter.old line.now) }
    ensures text_after { text.new ≡ sets text.old 0 (line_text meter.old line.now) }
{
    let mut frame = [0u8; FRAME_ROOM];
    let Some(n) = lines::frame(line, &mut frame) else {
        return put(b"bad line", text);
    };
    let mut bytes = [0u8; REPLY_ROOM];
    let handled = board::handle(*meter, &frame[..n], &mut bytes);
    *meter = handled.meter;
    tell(handled.reply, &bytes, text)
}

// Puts the reply, or that there is none. The meter refuses nothing here: its record is within limits and the buffer has room.
fn tell(reply: Result<Option<usize>, Refusal>, bytes: &[u8], text: &mut [u8]) -> usize
    requires reply_within { (n : ℕ) → reply ≡ Ok (Some n) → n ≤ length bytes.now }
    requires room { length (reply_text reply bytes.now) < length text.old }
    ensures value { result ≡ length (reply_text reply bytes.now) }
    ensures text_after { text.new ≡ sets text.old 0 (reply_text reply bytes.now) }
{
    let Ok(Some(n)) = reply else {
        return put(b"silent", text);
    };
    lines::text(&bytes[..n], text).unwrap()
}

// Puts characters at the start of the text, and answers how many.
fn put(characters: &[u8], text: &mut [u8]) -> usize
    requires { length characters.now ≤ length text.old }
    ensures value { result ≡ length characters.now }
    ensures text_after { text.new ≡ sets text.old 0 characters.now }
{
    let n = characters.len();
    text[..n].copy_from_slice(characters);
    n
}
