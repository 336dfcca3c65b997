// Paper 01's own directory (paper 01, "The directory"), with request 1's six items: its items as one flat constant table, how much
// of it may be read, and which run of its items a read asks for.
#![tactic(auto)]

pub mod table;

ghost use Rattle.std.specs.Prelude.{◌≡◌};
ghost use Rattle.directory.specs.Run.{run_in};
ghost use Rattle.directory.specs.Tenant.{tenant_of};
ghost use Rattle.own.specs.Table.{directory};
ghost use Rattle.own.specs.Own.{own};

use directory::{Directory, Span};
use refusal::ErrorCode;

// How many items the table has.
pub const ITEMS: usize = 148;

// The most words of one read.
const MOST_WORDS: u16 = 120;

// The whole table.
pub fn directory() -> Directory<'static>
    ensures { result ≡ own }
{
    Directory::of(&table::TABLE, ITEMS, MOST_WORDS)
}

// How many of them a tenant sees (paper 02, request 3): the byte block and the words 0x1000 to 0x103d, which come first.
pub const TENANT_ITEMS: usize = 83;

// A tenant's part of the table, and as many words.
// Stays beside `directory`: one function of both would ask its callers again what `Directory::of` asks of a table and a part of it.
pub fn tenant_directory() -> Directory<'static>
    ensures { result ≡ tenant_of own }
{
    Directory::of(&table::TABLE, TENANT_ITEMS, MOST_WORDS)
}

// The run of items for `words` words from the address `start`. Any number of words is taken: the limit of one read is
// not tested here.
// No meter calls it: it stays a public call for whoever plans reads.
pub fn run(start: u16, words: u16) -> Result<Span, ErrorCode>
    ensures { result ≡ run_in directory start words }
{
    directory().run(start, words)
}
