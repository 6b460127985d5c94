// The constraints of a history in the three encodings, in document 01's order. A list has four words for each place: A's sources, A's target, B's sources,
// B's target.
use crate::{History, bit, has, without};

// The set of sources and the target of one side of a constraint.
#[derive(Clone, Copy)]
pub struct Side {
    pub from: u32,
    pub to: u32,
}

impl Side {
    // The side with these sources and this target.
    fn new(from: u32, to: usize) -> Side {
        Side {
            from,
            to: (to % 32) as u32,
        }
    }
}

// The constraint at a place of the list: A and B.
pub fn at(list: &[u32; 16384], place: usize) -> [Side; 2] {
    let i = 4 * (place % 4096);
    [
        Side {
            from: list[i],
            to: list[i + 1],
        },
        Side {
            from: list[i + 2],
            to: list[i + 3],
        },
    ]
}

// A constraint goes to the place of the list that comes next.
pub fn push(list: &mut [u32; 16384], count: &mut usize, a: Side, b: Side) {
    let i = 4 * (*count % 4096);
    list[i..i + 4].copy_from_slice(&[a.from, a.to, b.from, b.to]);
    *count = count.saturating_add(1);
}

// The constraints of a good read by t from u, over the other writers of the key.
fn add_plain(list: &mut [u32; 16384], count: &mut usize, t: usize, u: usize, others: u32) {
    for v in 0..32 {
        if has(others, v) {
            push(list, count, Side::new(bit(t), v), Side::new(bit(v), u));
        }
    }
}

// Encoding 0: for every good read, in body order.
fn plain(list: &mut [u32; 16384], h: &History) -> usize {
    let mut count = 0;
    for place in h.reads.iter().take(h.count) {
        let t = usize::from(*place) / 32;
        let key = usize::from(*place) % 32;
        if let Some(name) = h.name(t, key) {
            let u = usize::from(name);
            if h.good(t, key, u) {
                let others = without(without(h.writers_of(key), u), t);
                add_plain(list, &mut count, t, u, others);
            }
        }
    }
    count
}

// The tail of the chain that u is on. A chain has at most 32 writes.
fn tail(h: &History, key: usize, u: usize) -> usize {
    let mut last = u;
    for _ in 0..32 {
        match h.successor(key, last) {
            Some(next) => last = next,
            None => return last,
        }
    }
    last
}

// The heads of the key's chains: the writes that are nobody's successor.
fn heads(h: &History, key: usize) -> u32 {
    let mut set = h.writers_of(key);
    for u in 0..32 {
        if has(h.writers_of(key), u) {
            if let Some(next) = h.successor(key, u) {
                set = without(set, next);
            }
        }
    }
    set
}

// The constraints of a key: between each two of its writers or, where it is chained, between the heads of each two chains, each with the tail of its own.
fn add_key(list: &mut [u32; 16384], count: &mut usize, h: &History, key: usize, chained: bool) {
    let set = if chained {
        heads(h, key)
    } else {
        h.writers_of(key)
    };
    for i in 0..32 {
        for j in i + 1..32 {
            if has(set, i) && has(set, j) {
                let p = if chained { tail(h, key, i) } else { i };
                let q = if chained { tail(h, key, j) } else { j };
                push(
                    list,
                    count,
                    Side::new(h.ends(key, p, j), j),
                    Side::new(h.ends(key, q, i), i),
                );
            }
        }
    }
}

// Encodings 1 and 2: for each key.
fn by_key(list: &mut [u32; 16384], h: &History, chained: bool) -> usize {
    let mut count = 0;
    for key in 0..32 {
        add_key(list, &mut count, h, key, chained);
    }
    count
}

// The constraints of an encoding go to the list; how many they are.
pub fn listed(list: &mut [u32; 16384], h: &History, encoding: u8) -> usize {
    if encoding == 0 {
        return plain(list, h);
    }
    by_key(list, h, encoding == 2)
}
