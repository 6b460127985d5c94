// A sample's log, written from document 01's sentences on the log's layout.
ghost use Rattle.std.specs.Prelude.{◌≤◌};

use crate::{Sample, Use};

// A log in room for the longest: the first `length` bytes.
#[derive(Clone, Copy)]
pub struct Bytes {
    bytes: [u8; 1156],
    length: usize,
    ghost inside: { length ≤ 1156 },
}

impl Bytes {
    // No byte.
    pub fn new() -> Bytes {
        Bytes {
            bytes: [0; 1156],
            length: 0,
        }
    }

    // All bytes of a log of the greatest length.
    pub fn whole(bytes: [u8; 1156]) -> Bytes {
        Bytes {
            bytes,
            length: 1156,
        }
    }

    // The log.
    pub fn as_slice(&self) -> &[u8] {
        &self.bytes[..self.length]
    }

    // Another byte at a place, if it is one of the log's.
    pub fn set(&mut self, i: usize, byte: u8) {
        if i < self.length {
            self.bytes[i] = byte;
        }
    }

    // A byte more.
    fn push(&mut self, byte: u8) {
        if self.length < 1156 {
            self.bytes[self.length] = byte;
            self.length += 1;
        }
    }

    // A two-byte field more, the low byte first.
    pub fn push_pair(&mut self, n: u16) {
        let [low, high] = n.to_le_bytes();
        self.push(low);
        self.push(high);
    }

    // An entry more.
    pub fn push_entry(&mut self, cabinet: u8, count: u16, start: u16) {
        self.push(cabinet);
        self.push((count % 256) as u8);
        self.push_pair(start);
    }

    // A body more.
    pub fn push_body(&mut self, kind: u8, key: u8, argument: u16) {
        self.push(kind);
        self.push(key);
        self.push_pair(argument);
    }

    // The read-back of a key by transaction t more, if there is one.
    fn push_back(&mut self, u: Use, t: u16, key: u8) {
        if u.backs {
            self.push_body(0, key, t);
        }
    }

    // The read and the write of a key by transaction t more.
    fn push_use(&mut self, u: Use, t: u16, key: u8) {
        if u.reads {
            self.push_body(0, key, u.name);
        }
        if u.writes {
            self.push_body(1, key, 100 * (t % 32) + u16::from(key));
        }
    }

    // The bodies of transaction t more. Every second transaction reads back behind all its other operations; otherwise each read-back stands right behind the write.
    fn push_bodies(&mut self, uses: &[Use], t: u16) {
        let late = t % 2 == 1;
        for (key, u) in (0..4u8).zip(uses) {
            self.push_use(*u, t, key);
            if !late {
                self.push_back(*u, t, key);
            }
        }
        if late {
            for (key, u) in (0..4u8).zip(uses) {
                self.push_back(*u, t, key);
            }
        }
    }
}

// How many operations there are in all.
fn operations(uses: &[Use]) -> u16 {
    let mut n: u16 = 0;
    for u in uses {
        n = n.saturating_add(u16::from(u.reads) + u16::from(u.writes) + u16::from(u.backs));
    }
    n
}

// How many operations more a log can have.
pub fn room(s: &Sample) -> u16 {
    256u16.saturating_sub(operations(&s.uses))
}

// The log of a sample.
pub fn of(s: &Sample) -> Bytes {
    let mut l = Bytes::new();
    l.push_pair(u16::from(s.size));
    l.push_pair(operations(&s.uses));
    for (t, cabinet) in s.cabinet.iter().enumerate().take(usize::from(s.size)) {
        let place = 4 * (t % 32);
        let count = operations(&s.uses[place..place + 4]);
        l.push_entry(*cabinet, count, operations(&s.uses[..place]));
    }
    for (t, uses) in (0..32u16).zip(s.uses.chunks(4)) {
        l.push_bodies(uses, t);
    }
    l
}
