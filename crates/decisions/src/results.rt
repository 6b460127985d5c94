// Order and Table against what is expected of them: with lists that are exactly long enough, longer and too short, and in each state.
use checker::{Answer, Case, Clock, Refusal, Verdict};

// The table that a history of `size` transactions starts from, and its times; its first legal order, with zeros behind it, if it has one; and the table that a
// replay of that order leaves.
#[derive(Clone, Copy)]
pub struct Expected {
    pub starting: [u16; 32],
    pub clock: Clock,
    pub size: usize,
    pub order: Option<[u8; 32]>,
    pub table: [u16; 32],
}

impl Expected {
    // The order as Decide gives it: 32 zeros where there is none.
    pub fn numbers(&self) -> [u8; 32] {
        self.order.unwrap_or([0; 32])
    }

    // What Decide says.
    pub fn verdict(&self) -> Verdict {
        match self.order {
            Some(_) => Verdict::Order,
            None => Verdict::NoOrder,
        }
    }
}

// What stood in the lent places.
const BYTE: u8 = 201;

const VALUE: u16 = 40001;

// Whether the first places hold the first n of a list, and the others what they held.
fn holds<T: Copy + PartialEq>(out: &[T; 36], list: &[T; 32], n: usize, held: T) -> bool {
    match out.strip_prefix(&list[..n.min(32)]) {
        Some(behind) => behind.iter().all(|x| *x == held),
        None => false,
    }
}

// Whether Order with n places, at most 36, gives this reply and the case as it was, and writes the order exactly where that is no refusal.
fn order_agrees(c: Case, n: usize, x: &Expected, reply: Result<(), Refusal>) -> bool {
    let mut out = [BYTE; 36];
    let a = c.order(&mut out[..n.min(36)]);
    let answer = Answer { case: c, reply };
    let written = if reply.is_ok() { x.size } else { 0 };
    a == answer && holds(&out, &x.numbers(), written, BYTE)
}

// The same of Table.
fn table_agrees(c: Case, n: usize, x: &Expected, reply: Result<(), Refusal>) -> bool {
    let mut out = [VALUE; 36];
    let a = c.table(&mut out[..n.min(36)]);
    let answer = Answer { case: c, reply };
    let written = if reply.is_ok() { 32 } else { 0 };
    a == answer && holds(&out, &x.table, written, VALUE)
}

// Whether both give this refusal, also where the lists are too short.
pub fn refuse(c: Case, x: &Expected, refusal: Refusal) -> bool {
    order_agrees(c, 36, x, Err(refusal))
        && order_agrees(c, 0, x, Err(refusal))
        && table_agrees(c, 36, x, Err(refusal))
        && table_agrees(c, 0, x, Err(refusal))
}

// Whether both give what is expected of a decided case.
pub fn agree(c: Case, x: &Expected) -> bool {
    if x.order.is_none() {
        return refuse(c, x, Refusal::DecidedWithoutOrder);
    }
    order_agrees(c, x.size, x, Ok(()))
        && order_agrees(c, x.size.saturating_add(3), x, Ok(()))
        && table_agrees(c, 32, x, Ok(()))
        && table_agrees(c, 36, x, Ok(()))
}

// Whether both refuse of a decided case: after 'no order', or with lists that are too short by one.
pub fn refuse_decided(c: Case, x: &Expected) -> bool {
    if x.order.is_none() {
        return refuse(c, x, Refusal::DecidedWithoutOrder);
    }
    let short = match x.size.checked_sub(1) {
        Some(n) => order_agrees(c, n, x, Err(Refusal::TooFewPlaces)),
        None => true,
    };
    short && table_agrees(c, 31, x, Err(Refusal::TooFewPlaces))
}
