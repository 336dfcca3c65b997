// One call on rows of marks, and what it leaves in every cell.
use ask::{Items, KIND_MARK, VALUE_MARK};
use collector::Nameplate;
use say::Row;
use std::io::{self, Stdout};

// The cells of the longest rows lent: the 9 words from 0x0339 are 8 items.
const CELLS_MOST: usize = 9;

// A request, the reply to it, what the collector is told of the meter, and the cells that each row has, CELLS_MOST at the most.
// Stays flat, with no Exchange inside: so an example names just what differs from another. `polls` counts something else of its own.
#[derive(Clone, Copy)]
pub struct Poll {
    pub name: &'static str,
    pub request: &'static [u8],
    pub reply: &'static [u8],
    pub plate: Nameplate,
    pub values: usize,
    pub kinds: usize,
}

impl Poll {
    // What the call comes to, and every cell after it.
    pub fn read(self, out: Stdout) -> io::Result<()> {
        let mut value_cells = [VALUE_MARK; CELLS_MOST];
        let mut kind_cells = [KIND_MARK; CELLS_MOST];
        let values = &mut value_cells[..self.values.min(CELLS_MOST)];
        let kinds = &mut kind_cells[..self.kinds.min(CELLS_MOST)];
        let whole = collector::read_whole(self.request, self.reply, self.plate, values, kinds);
        println!(out;
            "{}: {}; values{}; kinds{}",
            self.name,
            Items(whole),
            Row(values),
            Row(kinds)
        )
    }
}
