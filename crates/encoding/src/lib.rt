// The polygraph of a log and its times in a setting: planned into tables and numbers that the caller lends, then written to the list that the caller lends.
#![tactic(auto)]

ghost use Rattle.std.specs.Prelude.{◌≡◌, ℕ, ◌≤◌, ◌-◌, ◌++◌, length, replicate, drop};
ghost use Rattle.model.specs.History.{History};
ghost use Rattle.model.specs.Log.{history_of};
ghost use Rattle.model.specs.Times.{times, timed_history};
ghost use Rattle.model.specs.Lent.{no_constraint};
ghost use Rattle.setting.specs.Encodings.{encoding_number};
ghost use Rattle.listing.specs.Candidates.{items_by};
ghost use Rattle.listing.specs.Choosing.{Space};
ghost use Rattle.listing.specs.Listing.{Chosen};
ghost use Rattle.encoding.specs.Writing.{TablesOf, Planned, Writable, Encoded};

use listing::{PLACES, WORDS};
use logs::Log;
use logs::times::TimedLog;
use model::Constraint;
use polygraph::MARKS;
use pruning::Pruned;
use setting::Encoding;

// What is known of a polygraph before anything is written, beside the tables and the numbers of its constraints: the known edges before pruning, and
// the count of constraints before pruning.
#[derive(Clone, Copy)]
pub struct Known {
    pub rows: [u32; 32],
    pub count: u16,
}

// The tables and the numbers of the constraints in an encoding; how many constraints.
fn choose(
    log: Log<'_>,
    n: usize,
    encoding: Encoding,
    writers: &[u32; 32],
    marks: &[u32; MARKS],
    tables: &mut [u32; WORDS],
    chosen: &mut [u16; PLACES],
) -> u16
    requires { TablesOf log.bytes.now n writers.now marks.now × Space tables.old chosen.old }
    ensures { Chosen (history_of log.entry.bytes.now) (encoding_number encoding) tables.new chosen.new result }
{
    match encoding {
        Encoding::Plain => listing::plain::table(log, writers, tables, chosen),
        _ => listing::runs::table(encoding.number(), n as u32, writers, marks, tables, chosen),
    }
}

// Plans the polygraph of a log and its times in an encoding: into the tables and the numbers, and what is known beside them.
pub fn prepare(
    window: TimedLog<'_>,
    encoding: Encoding,
    tables: &mut [u32; WORDS],
    chosen: &mut [u16; PLACES],
) -> Known
    requires { Space tables.old chosen.old }
    ensures { Planned (timed_history window.entry.log.bytes.now (times window.entry.clock.begin.now window.entry.clock.end.now window.entry.clock.drift)) (encoding_number encoding) tables.new chosen.new result.rows result.count }
{
    let log = window.log;
    let mut writers = [0u32; 32];
    let mut reads = [0u32; 256];
    let count = polygraph::decode(log, &mut writers, &mut reads);
    let reads = &reads[..count];
    let mut marks = [0u32; MARKS];
    let mut slots = [0u16; 256];
    polygraph::read_marks(reads, &writers, &mut slots, &mut marks);
    let mut rows = polygraph::known(log, encoding.number(), reads, &slots, &writers, &marks);
    polygraph::clock::add(window.clock, &mut rows);
    let n = log.transactions();
    let count = choose(log, n, encoding, &writers, &marks, tables, chosen);
    Known { rows, count }
}

// The polygraph that was planned goes into the list: the constraints that pruning leaves, in list order, then four zeros up to the count before
// pruning. It gives the known edges as pruning leaves them, and the count left.
pub fn write<'a, 'b>(
    tables: &'a [u32; WORDS],
    chosen: &'a [u16; PLACES],
    rows: [u32; 32],
    n: u16,
    pruning: u8,
    list: &'b mut [Constraint],
) -> Pruned
    requires { Writable n (length list.old) }
    ensures { (h : History) (e : ℕ) → Planned h e tables.now chosen.now rows n → Encoded h e pruning list.old result list.new }
{
    listing::list(tables, chosen, n, list);
    let r = pruning::prune(rows, list, n, pruning);
    pruning::clear(list, r.left, n);
    r
}

// The first constraints of the tables and the numbers go into the list, as many as pruning left, then four zeros up to the count before pruning.
pub fn write_left<'a, 'b>(
    tables: &'a [u32; WORDS],
    chosen: &'a [u16; PLACES],
    left: u16,
    n: u16,
    list: &'b mut [Constraint],
)
    requires { (left ≤ n) × (n ≤ 4096) × (n ≤ length list.old) }
    ensures { list.new ≡ items_by tables.now chosen.now left ++ (replicate (n - left) no_constraint ++ drop n list.old) }
{
    listing::list(tables, chosen, left, list);
    pruning::clear(list, left, n);
}
