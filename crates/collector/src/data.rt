// The data of a reply that fits its request, and what one item of it reads as.
ghost use Rattle.std.specs.Prelude.{◌≡◌, ◌+◌, ◌*◌, ◌^◌, ◌≤◌, ◌<◌, true, length};
ghost use Rattle.directory.specs.Order.{shaped, meant};
ghost use Rattle.directory.specs.Run.{words_of};
ghost use Rattle.reading.specs.Readings.{reading_of};
ghost use Rattle.collector.specs.Collector.{place_of, item_of};
ghost use Rattle.words.specs.Words.{value_at};

use directory::{Item, Items};
use reading::Answer;
use refusal::Refusal;
use words::Order;

// The items asked for, the reply that has their words, and what these are read by: the order of the words of a long, and the ratio
// of the meter in tenths.
#[derive(Drop)]
pub(crate) struct Data<'a> {
    pub(crate) asked: Items<'a>,
    pub(crate) reply: &'a [u8],
    pub(crate) order: Order,
    pub(crate) tenths: u32,
    ghost fits: { 3 + 2 * words_of asked ≤ length reply.now },
}

impl<'a> Data<'a> {
    // The reading of one item.
    // The clause is spelled out: `items_in` speaks of `Data`, whose ghost field lets no such definition be named in this file.
    pub(crate) fn item(&self, index: usize) -> Answer
        ensures { result ≡ item_of self.now.order self.now.tenths self.now.asked self.now.reply.now index }
    {
        if self.asked.len() <= index {
            return Answer::Refused(Refusal::IndexPastItems);
        }
        let at = self.place(index);
        let it = self.asked.at(index);
        self.reading(it, at)
    }

    // Where the words of an item start in the reply: behind those of the items before it.
    // Stays an index loop: items are lent by index, and a borrowed model hands out no iterator over them.
    fn place(&self, index: usize) -> usize
        requires { index ≤ length self.now.asked }
        ensures { result ≡ place_of self.now.asked index }
    {
        let mut at = modbus::DATA_HEAD;
        for i in 0..index {
            at += 2 * usize::from(self.asked.at(i).words);
        }
        at
    }

    // What an item of the directory reads as whose words start at a place.
    // Inlined: as a call of its own it cost a whole reply of 28 items 50 instructions.
    // The item's width and rules stay clauses: its fields are public, so its type can't promise them.
    #[inline(always)]
    pub(crate) fn reading(&self, it: Item, at: usize) -> Answer
        requires words_there { (at + 2 * it.words ≤ length self.now.reply.now) × ((1 ≤ it.words) × (it.words ≤ 2)) }
        requires item_ruled { (shaped it ≡ true) × (meant it ≡ true) }
        ensures { result ≡ reading_of self.now.tenths it (value_at self.now.order it.words self.now.reply.now at) }
    {
        reading::of(self.tenths, it, value(self.reply, it, at, self.order))
    }
}

// The value of an item's words, which start at a place.
fn value(reply: &[u8], it: Item, at: usize, order: Order) -> u32
    requires words_there { (at + 2 * it.words ≤ length reply.now) × ((1 ≤ it.words) × (it.words ≤ 2)) }
    ensures value { result ≡ value_at order it.words reply.now at }
    ensures fits { result < 65536 ^ it.words }
{
    words::value_at(reply, at, usize::from(it.words), order)
}
