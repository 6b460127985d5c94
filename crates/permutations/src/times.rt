// Random times of four transactions.
use crate::chance;
use trial::times::{Spans, Times};

// The highest second.
const TOP: u64 = 4294967295;

// The drift of history h: none, a second, an hour, or anything up to an hour.
fn drift_of(h: u64) -> u32 {
    match chance(h, 200) % 4 {
        0 => 0,
        1 => 1,
        2 => 3600,
        _ => (chance(h, 201) % 3601) as u32,
    }
}

// The first second of history h: at one end of the range, at the other, or in between. `width` is how many it has behind that.
fn first_of(h: u64, width: u64) -> u64 {
    match chance(h, 202) % 3 {
        0 => 0,
        1 => TOP - width % 65536,
        _ => 70000,
    }
}

// How long a transaction takes: no time, a second, a step, or to the end of the range.
fn length_by(r: u64, step: u64) -> u64 {
    match r % 8 {
        0 | 1 | 2 => 0,
        3 | 4 => 1,
        5 | 6 => step,
        _ => TOP,
    }
}

// The times of history h. Begins and ends stand the drift apart, or a second more or less.
pub(crate) fn drawn(h: u64) -> Times {
    let drift = drift_of(h);
    let step = u64::from(drift) + 1;
    let first = first_of(h, 2 * step + 1);
    let mut spans = Spans::new();
    for t in 0..4 {
        let r = chance(h, 210 + t as u64);
        let begin = first.saturating_add(step * (r % 3) + r / 64 % 2);
        spans.set(t, begin, length_by(r / 4096, step));
    }
    Times {
        spans: Some(spans),
        drift,
    }
}
