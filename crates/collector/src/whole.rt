// A whole reply in one call (paper 02, request 4): what asking one by one gives for every index in turn, laid out in two rows.
ghost use Rattle.std.specs.Prelude.{◌≡◌, ◌≤◌, cond, map, length, Ok, Err};
ghost use Rattle.std.proofs.lemmas.List.Edits.{sets};
ghost use Rattle.refusal.specs.declared.Refusal.TheVariants.{ValueImpossible};
ghost use Rattle.directory.specs.Run.{words_of};
ghost use Rattle.reading.specs.Told.{kind_of};
ghost use Rattle.reading.specs.Cells.{cell_of};
ghost use Rattle.collector.specs.Each.{items_in};
ghost use Rattle.collector.specs.Whole.{any_thirteen, readings_in, filled_by, whole_of, Filled};

use crate::Nameplate;
use crate::data::Data;
use reading::Answer;
use refusal::Refusal;
use replies::Unread;

// The words that the longest reply has room for, and so the most items. Values and kinds stay two rows of fixed length: the request
// names two, and nothing here allocates.
const WORDS_MOST: usize = 125;

// Reads every item of a reply, and answers how many there are: from cell 0 on, `values` gets what each reads as (`Quantity::cell`) and
// `kinds` the number of its kind (`Quantity::kind`). Only where all items are read is a cell written.
// Request, reply and plate stay three arguments: the papers give them so, here and to `read`.
// The lemma is for the right twin of a wrong program.
#[tactic(auto, using(crate::proofs::Rows::unread_kept))]
pub fn read_whole(
    request: &[u8],
    reply: &[u8],
    plate: Nameplate,
    values: &mut [u64],
    kinds: &mut [u8],
) -> Result<usize, Unread>
    ensures { Filled (whole_of request.now reply.now plate values.old kinds.old) result values.new kinds.new }
{
    let directory = own::directory();
    let span = replies::judge(&directory, request, reply, plate.ratios)?;
    let data = Data {
        asked: directory.part(span),
        reply,
        order: plate.order,
        tenths: plate.ratios.tenths(),
    };
    fill(&data, values, kinds)
}

// Fills the rows. What is read is kept apart until all of it is: the last item may yet be refused.
fn fill(sent: &Data, values: &mut [u64], kinds: &mut [u8]) -> Result<usize, Unread>
    requires { words_of sent.now.asked ≤ 125 }
    ensures { Filled (filled_by (items_in sent.now) values.old kinds.old) result values.new kinds.new }
{
    let n = sent.asked.len();
    if (values.len() < n) | (kinds.len() < n) {
        return Err(Refusal::RowShort.into());
    }
    let mut cells = [0u64; WORDS_MOST];
    let mut numbers = [0u8; WORDS_MOST];
    all_read(sent, &mut cells, &mut numbers)?;
    values[..n].copy_from_slice(&cells[..n]);
    kinds[..n].copy_from_slice(&numbers[..n]);
    Ok(n)
}

// Reads the items in turn, each behind the words of the one before it. It ends at the first whose value is impossible.
// Stays an index loop: items are lent by index, so a zip of both rows would have to count beside it all the same.
fn all_read(sent: &Data, cells: &mut [u64], numbers: &mut [u8]) -> Result<(), Refusal>
    requires { (length sent.now.asked ≤ length cells.old) × (length sent.now.asked ≤ length numbers.old) }
    ensures value { result ≡ cond (any_thirteen (items_in sent.now)) (Err ValueImpossible) (Ok tt) }
    ensures cells_after { result ≡ Ok tt → cells.new ≡ sets cells.old 0 (map cell_of (readings_in (items_in sent.now))) }
    ensures numbers_after { result ≡ Ok tt → numbers.new ≡ sets numbers.old 0 (map kind_of (readings_in (items_in sent.now))) }
{
    let mut at = modbus::DATA_HEAD;
    for i in 0..sent.asked.len() {
        let it = sent.asked.at(i);
        let Answer::Reading(q) = sent.reading(it, at) else {
            return Err(Refusal::ValueImpossible);
        };
        cells[i] = q.cell();
        numbers[i] = q.kind();
        at += 2 * usize::from(it.words);
    }
    Ok(())
}
