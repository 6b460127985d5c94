// The bills of random windows, against the ledger's: each cabinet's mills, cents and travel over the order that Order gives; all mills together against the cost
// of all writes; and all travel together against Table's values less the starting ones. Where there is no order, the refusal.
use crate::bills::mark;
use crate::refused::marked_from;
use crate::windows::Window;
use checker::{Answer, Bill, Case, Refusal};
use ledger::Account;
use lists::Billed;
use samples::clocks::loaded_by;
use samples::lines::{end, number, text};
use samples::tallies::{add, add_if};
use trial::{KINDS, Kind};

// Windows, and those with times; those with an order, and of these those whose order is not the log's; those without one; bills of more than no mills, and
// those with a negative travel; and bills, sums and refusals that are not as they must be. The gates that stood higher in the end, and lower, in some window.
#[derive(Clone, Copy, Default)]
pub struct Tally {
    pub windows: u64,
    pub timed: u64,
    pub orders: u64,
    pub moved: u64,
    pub without: u64,
    pub paid: u64,
    pub negative: u64,
    pub different: u64,
    pub higher: [bool; 16],
    pub lower: [bool; 16],
}

// ---- one window

// What Order and Table write: the reply of Order; T numbers with zeros behind them, and the values.
#[derive(Clone, Copy)]
struct Results {
    reply: Result<(), Refusal>,
    order: [u8; 32],
    table: [u16; 32],
}

fn results_of(c: Case) -> Results {
    let mut order = [0u8; 32];
    let mut table = [0u16; 32];
    let a = c.order(&mut order);
    a.case.table(&mut table);
    Results {
        reply: a.reply,
        order,
        table,
    }
}

// Whether a bill is what the ledger says.
fn agrees(b: &Bill, a: Account) -> bool {
    u64::from(b.mills) == a.mills
        && u64::from(b.cents) == a.cents
        && i64::from(b.travel) == a.travel
}

// Whether each cabinet's bill is, over the log.
fn all_agree(list: &[Bill; 20], log: &[u8], starting: &[u16; 32], order: &[u8; 32]) -> bool {
    (0..16u8).zip(list).all(|(cabinet, b)| agrees(
        b,
        ledger::of_cabinet(log, starting, order, cabinet),
    ))
}

// How much higher the gates stand together than they stood.
fn moved(starting: &[u16; 32], table: &[u16; 32]) -> i64 {
    let mut sum: i64 = 0;
    for (before, after) in starting.iter().zip(table).take(16) {
        sum = sum.saturating_add(i64::from(*after) - i64::from(*before));
    }
    sum
}

// Whether all cabinets together pay for all writes, and moved the gates as far as they stand from where they stood.
fn sums_agree(list: &[Bill; 20], a: Account, starting: &[u16; 32], table: &[u16; 32]) -> bool {
    let mut mills: u64 = 0;
    let mut travel: i64 = 0;
    for b in &list[..16] {
        add(&mut mills, u64::from(b.mills));
        travel = travel.saturating_add(i64::from(b.travel));
    }
    let far = moved(starting, table);
    mills == a.mills && travel == far && a.travel == far
}

// Whether the call gave this reply, and the case as it was.
fn answered(b: Billed, c: Case, reply: Result<(), Refusal>) -> bool {
    b.answer == Answer { case: c, reply }
}

// Whether the bills of a case with an order are as they must be, with 16 places and up to 4 more.
fn bills_agree(c: Case, log: &[u8], places: usize, r: &Results) -> bool {
    let b = lists::bills(c, 16 + places % 5, mark());
    answered(b, c, Ok(()))
        && marked_from(&b.list, 16)
        && all_agree(&b.list, log, &c.starting, &r.order)
        && sums_agree(
            &b.list,
            ledger::of_all(log, &c.starting, &r.order),
            &c.starting,
            &r.table,
        )
}

// Whether they are refused where there is no order.
fn refused_well(c: Case, places: usize) -> bool {
    let b = lists::bills(c, places % 21, mark());
    answered(b, c, Err(Refusal::DecidedWithoutOrder)) && marked_from(&b.list, 0)
}

// ---- the tally

// Whether the first numbers are 0, 1, 2 and on, so many.
fn is_ascending(order: &[u8; 32], n: usize) -> bool {
    order
        .iter()
        .take(n)
        .enumerate()
        .all(|(i, t)| usize::from(*t) == i)
}

// How many of sixteen are so.
fn count_of(list: &[bool; 16]) -> u64 {
    list.iter().filter(|yes| **yes).count() as u64
}

impl Tally {
    // The gates that ended higher and lower.
    fn add_heights(&mut self, starting: &[u16; 32], table: &[u16; 32]) {
        for gate in 0..16 {
            if table[gate] > starting[gate] {
                self.higher[gate] = true;
            }
            if table[gate] < starting[gate] {
                self.lower[gate] = true;
            }
        }
    }

    // The bills that cost something, and those of a negative travel.
    fn add_bills(&mut self, c: Case) {
        let list = lists::bills(c, 16, mark()).list;
        for b in &list[..16] {
            add_if(&mut self.paid, b.mills > 0);
            add_if(&mut self.negative, b.travel < 0);
        }
    }

    // A case that is decided with an order, of the log.
    fn add_order(&mut self, c: Case, log: &[u8], places: usize, r: &Results) {
        let n = usize::from(samples::at(log, 0));
        self.add_heights(&c.starting, &r.table);
        self.add_bills(c);
        add_if(&mut self.orders, true);
        add_if(&mut self.moved, !is_ascending(&r.order, n));
        add_if(&mut self.different, !bills_agree(c, log, places, r));
    }

    // A window.
    fn add_window(&mut self, w: &Window, places: usize) {
        let log = w.log.as_slice();
        let held = loaded_by(log, &w.starting, &w.clock);
        let c = lender::decide(held, w.setting / 2 % 3, w.setting % 2).case;
        add_if(&mut self.windows, true);
        add_if(&mut self.timed, w.clock.count > 0);
        let r = results_of(c);
        if r.reply.is_ok() {
            self.add_order(c, log, places, &r);
        } else {
            add_if(&mut self.without, true);
            add_if(&mut self.different, !refused_well(c, places));
        }
    }
}

// ---- the rounds

// Where the windows come from: small or large histories of a kind, or the two kinds of full windows.
#[derive(Clone, Copy)]
enum Source {
    Small(Kind),
    Large(Kind),
    Wide,
    Chained,
}

fn window_of(source: Source, seed: u64) -> Window {
    match source {
        Source::Small(kind) => crate::windows::small(kind, seed),
        Source::Large(kind) => crate::windows::large(kind, seed),
        Source::Wide => crate::windows::wide(seed),
        Source::Chained => crate::windows::chained(seed),
    }
}

// The line of so many windows, and how many differences they have.
fn show(name: &[u8], source: Source, count: u64) -> u64 {
    let mut t = Tally::default();
    for seed in 0..count {
        t.add_window(&window_of(source, seed), seed as usize);
    }
    text(name);
    text(b": windows");
    number(t.windows);
    text(b", with times");
    number(t.timed);
    text(b"; order");
    number(t.orders);
    text(b", of these not the log's");
    number(t.moved);
    text(b", no order");
    number(t.without);
    text(b"; gates that ended higher");
    number(count_of(&t.higher));
    text(b", lower");
    number(count_of(&t.lower));
    text(b"; bills of some mills");
    number(t.paid);
    text(b", of negative travel");
    number(t.negative);
    text(b"; different");
    number(t.different);
    end();
    t.different
}

pub(crate) fn show_all() {
    let mut different: u64 = 0;
    text(b"up to 6 transactions, 3 keys");
    end();
    for kind in KINDS {
        add(&mut different, show(kind.name(), Source::Small(kind), 1000));
    }
    text(b"7 to 32 transactions, 4 keys");
    end();
    for kind in KINDS {
        add(&mut different, show(kind.name(), Source::Large(kind), 400));
    }
    text(b"32 transactions, 256 operations");
    end();
    add(
        &mut different,
        show(b"writes of all keys", Source::Wide, 100),
    );
    add(
        &mut different,
        show(b"chains with read-backs", Source::Chained, 100),
    );
    text(if different == 0 {
        b"all as the ledger says"
    } else {
        b"not as the ledger says"
    });
    end();
}
