// A directory of registers (paper 01, "The directory"): what an item is, how it is found by its address, and which run of items a
// read asks for. It works on any flat table of items, of which only the first ones may be open to reads. Paper 01's own table is in
// the crate `own`.
#![tactic(auto)]

pub mod quantity;

ghost use Rattle.std.specs.Prelude.{◌≡◌, ◌+◌, ◌*◌, ◌≤◌, ◌<◌, true, length, take, drop, get_or, T};
ghost use Rattle.directory.specs.Item.{items, none, is_b};
ghost use Rattle.directory.specs.Order.{ruled, shaped, meant};
ghost use Rattle.directory.specs.Run.{find_in, run_in, run_items};
ghost use Rattle.directory.specs.Views.{view_of, Lent, Asked};

use refusal::ErrorCode;
use std::marker::Model;

#[derive(Clone, Copy, Debug, PartialEq, Eq)]
pub struct Item {
    // Its first address.
    pub start: u16,
    // How many addresses it takes.
    pub fills: u16,
    // How many words it is sent in, 1 or 2. Stays a count, as the table of numbers has it.
    pub words: u16,
    // What it shows, as the module `quantity` numbers it.
    pub quantity: u16,
}

// From here on addresses count words. Below, they count bytes, and an item that fills one is a B.
const WORD_BLOCKS_FROM: u16 = 0x1000;

impl Item {
    // Whether it is a B: one byte, sent as a word whose upper byte is 0.
    pub fn is_b(self) -> bool
        ensures { result ≡ is_b self }
    {
        (self.start < WORD_BLOCKS_FROM) & (self.fills == 1)
    }
}

// A table is flat: four numbers are one item, in the order of the fields of `Item`.
pub const NUMBERS_PER_ITEM: usize = 4;

// The items that a read asks for: `count` of them, from the index `first` on. Stays a struct: a Range is no Copy.
#[derive(Clone, Copy, Debug, PartialEq, Eq)]
pub struct Span {
    pub first: usize,
    pub count: usize,
}

// What a read is judged by: a flat table of items, of which the first ones are seen, and the most words of one read. In contracts it is
// the view that they make.
#[derive(Clone, Drop)]
pub struct Directory<'a> {
    numbers: &'a [u16],
    seen: usize,
    most: u16,
}

impl<'a> Model for Directory<'a> {
    ghost use Rattle.directory.specs.Views.{View, view_of, Lent};

    ghost Value = { View };

    ghost view = { λ d. view_of d.numbers.now d.seen d.most };

    ghost invariant = { λ d. Lent d.numbers.now d.seen d.most };
}

impl<'a> Directory<'a> {
    // Of a table, its first `seen` items, which have to pass the tests.
    pub fn of(numbers: &'a [u16], seen: usize, most: u16) -> Directory<'a>
        requires { Lent numbers.now seen most }
        ensures { result ≡ view_of numbers.now seen most }
    {
        Directory {
            numbers,
            seen,
            most,
        }
    }

    // How many items are seen.
    #[tactic(auto, using(crate::proofs::Views::seen_length))]
    pub fn len(&self) -> usize
        ensures { result ≡ length self.now.seen }
    {
        self.seen
    }

    // The most words of one read.
    pub fn most(&self) -> u16
        ensures { result ≡ self.now.most }
    {
        self.most
    }

    // The item with an index.
    pub fn item(&self, index: usize) -> Item
        requires { index < length self.now.seen }
        ensures { result ≡ get_or self.now.seen index none }
    {
        item_at(self.numbers, index)
    }

    // The run of items for `words` words from the address `start`, or what is wrong with it.
    pub fn run(&self, start: u16, words: u16) -> Result<Span, ErrorCode>
        ensures { result ≡ run_in self.now.seen start words }
    {
        run_in(self.numbers, self.seen, start, words)
    }

    // The items of a span.
    pub fn part(&self, span: Span) -> Items<'a>
        requires { span.first + span.count ≤ length self.now.seen }
        ensures { result ≡ run_items self.now.seen span.first span.count }
    {
        Items {
            numbers: part(self.numbers, span.first, span.count),
        }
    }
}

// Some items of a directory, one behind the other. In contracts they are their list.
#[derive(Clone, Drop)]
pub struct Items<'a> {
    numbers: &'a [u16],
}

impl<'a> Model for Items<'a> {
    ghost use Rattle.std.specs.Prelude.{List};
    ghost use Rattle.directory.specs.declared.Item.{Item};
    ghost use Rattle.directory.specs.Item.{items};
    ghost use Rattle.directory.specs.Views.{Asked};

    ghost Value = { List Item };

    ghost view = { λ a. items a.numbers.now };

    ghost invariant = { λ a. Asked (items a.numbers.now) };
}

impl<'a> Items<'a> {
    // How many there are.
    pub fn len(&self) -> usize
        ensures value { result ≡ length self.now }
        ensures ruled { Asked self.now }
    {
        self.numbers.len() / NUMBERS_PER_ITEM
    }

    // The item at a place among them.
    pub fn at(&self, place: usize) -> Item
        requires { place < length self.now }
        ensures value { result ≡ get_or self.now place none }
        ensures ruled { (shaped result ≡ true) × (meant result ≡ true) }
    {
        item_at(self.numbers, place)
    }
}

// What follows stands beside the methods, since it asks only what it needs of a table: less than the tests of a directory.

// The run of items for `words` words from the address `start`, among the first `seen` items of a table, or what is wrong with it.
// Only the first of the run is searched for: the table ascends, so the item that starts where another ends can only be the next one.
// Stays a `while` over the words that are due: a `for` over the items would ask twice whether any are, in it and behind it.
pub fn run_in(table: &[u16], seen: usize, start: u16, words: u16) -> Result<Span, ErrorCode>
    requires { (4 * seen ≤ length table.now) × T (ruled (take seen (items table.now))) }
    ensures { result ≡ run_in (take seen (items table.now)) start words }
{
    let first = find_in(table, seen, start).ok_or(ErrorCode::Address)?;
    let mut i = first;
    let mut next = u32::from(start);
    let mut due = words;
    while 0 < due {
        if seen <= i {
            return Err(ErrorCode::Address);
        }
        let it = item_at(table, i);
        if u32::from(it.start) != next {
            return Err(ErrorCode::Address);
        }
        if due < it.words {
            return Err(ErrorCode::Data);
        }
        next += u32::from(it.fills);
        due -= it.words;
        i += 1;
    }
    Ok(Span {
        first,
        count: i - first,
    })
}

// The index of the item that starts at an address. The table ascends, so a search by halves finds it.
// Stays a search by hand: the library's take a slice of keys, and the flat table of numbers that the paper names has none.
fn find_in(table: &[u16], seen: usize, address: u16) -> Option<usize>
    requires { (4 * seen ≤ length table.now) × T (ruled (take seen (items table.now))) }
    ensures { result ≡ find_in (take seen (items table.now)) address 0 }
{
    let mut low: usize = 0;
    let mut high: usize = seen;
    while low < high {
        let middle = low + (high - low) / 2;
        let it = item_at(table, middle);
        if it.start == address {
            return Some(middle);
        }
        if it.start < address {
            low = middle + 1;
        } else {
            high = middle;
        }
    }
    None
}

// The part of a table that holds a run of its items.
pub fn part(table: &[u16], first: usize, count: usize) -> &[u16]
    requires { 4 * (first + count) ≤ length table.now }
    ensures { result.now ≡ take (4 * count) (drop (4 * first) table.now) }
{
    let from = NUMBERS_PER_ITEM * first;
    let to = from + NUMBERS_PER_ITEM * count;
    &table[from..to]
}

// The item with index i.
pub fn item_at(table: &[u16], i: usize) -> Item
    requires { 4 * i + 4 ≤ length table.now }
    ensures { result ≡ get_or (items table.now) i none }
{
    let at = NUMBERS_PER_ITEM * i;
    Item {
        start: table[at],
        fills: table[at + 1],
        words: table[at + 2],
        quantity: table[at + 3],
    }
}
