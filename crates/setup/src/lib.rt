// The setup words, and the values that each may hold (paper 01, "The directory": setup ranges).
#![tactic(auto)]

ghost use Rattle.std.specs.Prelude.{◌≡◌};
ghost use Rattle.setup.specs.Ranges.{word_ok, group_ok};

// Whether the setup word at an address may hold a value. Both stay numbers, as the line sends them.
#[tactic(auto, unfolding(crate::specs::Ranges::word_ok))]
pub fn word_ok(address: u16, value: u16) -> bool
    ensures { result ≡ word_ok address value }
{
    match address {
        0x2005 => value <= 1,
        0x200a => value <= 6,
        0x200b => matches!(value, 0 | 3),
        0x200c..=0x200e => value <= 10,
        0x2215 => value <= 5,
        0x2216 => value <= 6,
        0x2217 => value <= 1,
        _ => true,
    }
}

// Whether each of the setup words from 0x2000 on may hold its value. Only the words that have a range are tested.
// Stays word by word: one loop over either group cost 590 instructions more a sample, and a list of the addresses is no plainer.
#[tactic(auto, using(crate::proofs::Groups::standard_is))]
pub fn standard_ok(group: [u16; 16]) -> bool
    ensures { result ≡ group_ok 0x2000 group }
{
    word_ok(0x2005, group[5])
        && word_ok(0x200a, group[10])
        && word_ok(0x200b, group[11])
        && word_ok(0x200c, group[12])
        && word_ok(0x200d, group[13])
        && word_ok(0x200e, group[14])
}

// The same for the setup words from 0x2200 on.
#[tactic(auto, using(crate::proofs::Groups::output_is))]
pub fn output_ok(group: [u16; 24]) -> bool
    ensures { result ≡ group_ok 0x2200 group }
{
    word_ok(0x2215, group[21]) && word_ok(0x2216, group[22]) && word_ok(0x2217, group[23])
}
