// One frame a line, as hex pairs with single spaces between them (paper 01, the program `bench`).
#![tactic(auto)]

ghost use Rattle.std.specs.Prelude.{◌≡◌, ◌≢◌, ℕ, ◌+◌, ◌*◌, ◌<◌, ◌≤◌, min, true, length, slice_index, take, drop};
ghost use Rattle.std.proofs.lemmas.List.Edits.{sets};
ghost use Rattle.lines.specs.Lines.{line_length, bytes_of, line_ok, FrameRead, text_of, TextPut};

pub const LINE_FEED: u8 = 0x0A;

const SPACE: u8 = 0x20;

// Where the line that begins at `from` ends: at the next line feed, or with the input.
pub fn line_end(input: &[u8], from: usize) -> usize
    ensures { result ≡ from + line_length (drop from input.now) }
{
    match input.get(from..) {
        Some(rest) => from + before_feed(rest),
        None => from,
    }
}

// How many characters stand before the first line feed, or all.
fn before_feed(rest: &[u8]) -> usize
    ensures within { result ≤ length rest.now }
    ensures before { (k : ℕ) → k < result → slice_index rest.now k ≢ 0x0A }
    ensures found { result < length rest.now → slice_index rest.now result ≡ 0x0A }
{
    rest.iter()
        .position(|c| *c == LINE_FEED)
        .unwrap_or(rest.len())
}

// Puts the frame that a line holds at the start of the buffer, as many of its bytes as there is room for, and answers how many these
// are. A bad line changes nothing.
pub fn frame(line: &[u8], buffer: &mut [u8]) -> Option<usize>
    ensures { FrameRead line.now buffer.old result buffer.new }
{
    if line_ok(line) {
        Some(put_bytes(line, buffer))
    } else {
        None
    }
}

// Tests the whole line, before any of its bytes is put.
fn line_ok(line: &[u8]) -> bool
    ensures { result ≡ line_ok line.now }
{
    if line.is_empty() {
        return true;
    }
    let mut rest = line;
    while let [upper, lower, space, others @ ..] = rest {
        if digits::pair_ok(*upper, *lower) & (*space == SPACE) {
            rest = others;
        } else {
            return false;
        }
    }
    match rest {
        [upper, lower] => digits::pair_ok(*upper, *lower),
        _ => false,
    }
}

// Puts the byte of each pair, as many as there is room for, and answers how many. A pair and its space are three characters. Indexes
// the line: of a part that chunks(3) gives the proof did not see its length.
fn put_bytes(line: &[u8], buffer: &mut [u8]) -> usize
    requires { line_ok line.now ≡ true }
    ensures value { result ≡ min (length (bytes_of line.now)) (length buffer.old) }
    ensures buffer_after { buffer.new ≡ sets buffer.old 0 (take (length buffer.old) (bytes_of line.now)) }
{
    let n = ((line.len() + 1) / 3).min(buffer.len());
    for i in 0..n {
        buffer[i] = digits::byte_of(line[3 * i], line[3 * i + 1]);
    }
    n
}

// Puts bytes at the start of the buffer as hex pairs in capitals, and answers how many characters these are. Without room for
// three characters a byte it changes nothing.
pub fn text(bytes: &[u8], buffer: &mut [u8]) -> Option<usize>
    ensures { TextPut bytes.now buffer.old result buffer.new }
{
    let n = bytes.len();
    if buffer.len() / 3 < n {
        return None;
    }
    let Some((last, others)) = bytes.split_last() else {
        return Some(0);
    };
    for (i, b) in others.iter().enumerate() {
        digits::put_digits(buffer, 3 * i, *b);
        buffer[3 * i + 2] = SPACE;
    }
    digits::put_digits(buffer, 3 * others.len(), *last);
    Some(3 * n - 1)
}
