// Hex digits, and the pairs of them that stand for bytes (paper 01, the program `bench`). The callers of `byte_of` and `put_digits`
// test first, so these do not test again.
#![tactic(auto)]

ghost use Rattle.std.specs.Prelude.{◌≡◌, ◌+◌, ◌≤◌, ◌<◌, true, length};
ghost use Rattle.std.proofs.lemmas.List.Edits.{sets};
ghost use Rattle.digits.specs.Hex.{digit_of, pair_ok, byte_of, capital, pair_of};

// The value of a hex digit, of either case.
fn digit(c: u8) -> Option<u8>
    ensures { result ≡ digit_of c }
{
    match c {
        b'0'..=b'9' => Some(c - b'0'),
        b'A'..=b'F' => Some(c - b'A' + 10),
        b'a'..=b'f' => Some(c - b'a' + 10),
        _ => None,
    }
}

// Whether both characters are hex digits, of either case.
pub fn pair_ok(upper: u8, lower: u8) -> bool
    ensures { result ≡ pair_ok upper lower }
{
    digit(upper).is_some() && digit(lower).is_some()
}

// The byte that two hex digits stand for. With `unwrap`, which leaves a test, a line cost 47 instructions a byte, and 33 so.
pub fn byte_of(upper: u8, lower: u8) -> u8
    requires { pair_ok upper lower ≡ true }
    ensures { result ≡ byte_of upper lower }
{
    16 * digit(upper).unwrap_or(0) + digit(lower).unwrap_or(0)
}

// Puts a byte at a place of the buffer, as two hex digits in capitals. Stays two stores: with copy_from_slice a text cost
// 33 instructions a byte, and 8 so.
pub fn put_digits(buffer: &mut [u8], at: usize, b: u8)
    requires { at + 2 ≤ length buffer.old }
    ensures { buffer.new ≡ sets buffer.old at (pair_of b) }
{
    buffer[at] = capital(b / 16);
    buffer[at + 1] = capital(b % 16);
}

// A digit as a character, in capitals; char::from_digit has small letters, and no digit for some numbers.
fn capital(d: u8) -> u8
    requires { d < 16 }
    ensures { result ≡ capital d }
{
    if d < 10 { b'0' + d } else { b'A' + (d - 10) }
}
