// Words on the line: two bytes, upper byte first; a long is two words, in either order (paper 01, "The directory"; paper 02, request 5).
// The callers see to it that place and width fit the buffer, so nothing is tested again here.
#![tactic(auto)]

ghost use Rattle.std.specs.Prelude.{◌≡◌, ◌+◌, ◌*◌, ◌≤◌, length, ◌++◌};
ghost use Rattle.std.proofs.lemmas.List.Edits.{sets};
ghost use Rattle.words.specs.Words.{word, sent, word_at, value_at};
ghost use Rattle.words.specs.Signed.{twos};

// Which word of a long goes first.
#[derive(Clone, Copy, Debug, PartialEq, Eq)]
pub enum Order {
    UpperFirst,
    LowerFirst,
}

// Puts one word at a place, upper byte first.
fn put_word(buffer: &mut [u8], at: usize, w: u16)
    requires { at + 2 ≤ length buffer.old }
    ensures { buffer.new ≡ sets buffer.old at (word w) }
{
    buffer[at..at + 2].copy_from_slice(&w.to_be_bytes());
}

// Puts two words at a place, one behind the other.
fn put_two(buffer: &mut [u8], at: usize, first: u16, second: u16)
    requires { at + 4 ≤ length buffer.old }
    ensures { buffer.new ≡ sets buffer.old at (word first ++ word second) }
{
    put_word(buffer, at, first);
    put_word(buffer, at + 2, second);
}

// Puts v at a place of the buffer: its lower 16 bits as one word, or all 32 as two in their order. How many words stays a number,
// here and in `value_at`: it stands so in the directory's rows, and the laws of words are over any.
pub fn put(buffer: &mut [u8], at: usize, words: usize, order: Order, v: u32)
    requires { (at + 2 * words ≤ length buffer.old) × ((1 ≤ words) × (words ≤ 2)) }
    ensures { buffer.new ≡ sets buffer.old at (sent order words v) }
{
    // Stays a remainder and a quotient, as in `sent`: out of the four bytes each word would only be put together again.
    let lower = (v % 65536) as u16;
    if words == 1 {
        put_word(buffer, at, lower);
        return;
    }
    let upper = (v / 65536) as u16;
    match order {
        Order::UpperFirst => put_two(buffer, at, upper, lower),
        Order::LowerFirst => put_two(buffer, at, lower, upper),
    }
}

// The word at a place.
pub fn word_at(bytes: &[u8], at: usize) -> u16
    requires { at + 2 ≤ length bytes.now }
    ensures { result ≡ word_at bytes.now at }
{
    u16::from_be_bytes([bytes[at], bytes[at + 1]])
}

// The value at a place: of one word, or of two in their order.
pub fn value_at(bytes: &[u8], at: usize, words: usize, order: Order) -> u32
    requires { (at + 2 * words ≤ length bytes.now) × ((1 ≤ words) × (words ≤ 2)) }
    ensures { result ≡ value_at order words bytes.now at }
{
    let first = u32::from(word_at(bytes, at));
    if words == 1 {
        return first;
    }
    let second = u32::from(word_at(bytes, at + 2));
    // Stays a product and a sum, as in the definition: the words are read by now, and one of them alone has no four bytes.
    match order {
        Order::UpperFirst => first * 65536 + second,
        Order::LowerFirst => second * 65536 + first,
    }
}

// A signed number in one word, as two's complement: the lowest word of it in four. Sign and magnitude stay two arguments, here and
// below: `Signed` stands on a floor above.
pub fn twos_word(negative: bool, magnitude: u16) -> u16
    ensures { result ≡ twos 1 negative magnitude }
{
    (twos_quad(negative, u64::from(magnitude)) % 65_536) as u16
}

// A signed number in two words, as two's complement: the two lowest words of it in four.
#[tactic(auto, using(crate::proofs::Signs::lowest_long))]
pub fn twos_long(negative: bool, magnitude: u32) -> u32
    ensures { result ≡ twos 2 negative magnitude }
{
    (twos_quad(negative, u64::from(magnitude)) % 4_294_967_296) as u32
}

// A signed number in 64 bits, as many as four words have, as two's complement.
pub fn twos_quad(negative: bool, magnitude: u64) -> u64
    ensures { result ≡ twos 4 negative magnitude }
{
    if negative {
        magnitude.wrapping_neg()
    } else {
        magnitude
    }
}
