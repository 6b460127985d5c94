// Times of the test programs, as a case keeps them.
use crate::first;
use checker::{Answer, Case, Clock};
use trial::times::{Spans, Times};

// None.
pub fn none() -> Clock {
    Clock {
        count: 0,
        begin: [0; 32],
        end: [0; 32],
        drift: 0,
    }
}

// Times of n transactions, as a case keeps them.
pub fn of_times(x: &Times, n: u8) -> Clock {
    match &x.spans {
        Some(s) => Clock {
            count: usize::from(n % 33),
            begin: s.begin,
            end: s.end,
            drift: x.drift,
        },
        None => Clock {
            drift: x.drift,
            ..none()
        },
    }
}

// What a case keeps, as times.
pub fn times_of(x: &Clock) -> Times {
    let spans = Spans {
        begin: x.begin,
        end: x.end,
    };
    Times {
        spans: if x.count > 0 { Some(spans) } else { None },
        drift: x.drift,
    }
}

// Load of a log beside a starting table and these times: the first `count` of each list, which has no more than 32.
pub fn load_by(c: Case, log: &[u8], starting: &[u16], clock: &Clock) -> Answer {
    let begin = first(&clock.begin, clock.count);
    let end = first(&clock.end, clock.count);
    c.load(log, starting, begin, end, clock.drift)
}

// The case that holds them.
pub fn loaded_by(log: &[u8], starting: &[u16], clock: &Clock) -> Case {
    load_by(Case::fresh(), log, starting, clock).case
}

// A case with another count of times and another drift.
pub fn with_count(c: Case, count: usize, drift: u32) -> Case {
    let clock = Clock {
        count,
        drift,
        ..c.clock
    };
    Case { clock, ..c }
}
