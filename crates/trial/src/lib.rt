// Random histories for test programs, and a direct reading of document 01 and cards 1 and 7 over them. Nothing here is shared with the code under test: a
// sample is a table of its own, its log is written from that table (module `log`), its times stand beside it (module `times`), and the first legal order is
// found by going through all permutations (module `orders`). The functions are proved safe and ending, and what they promise is no more than that needs.
#![tactic(auto)]

ghost use Rattle.std.specs.Prelude.{◌-◌, ◌≤◌};

use std::array;
use times::Times;

pub mod log;
pub mod orders;
pub mod times;

// What a transaction does with a key: whether it reads it first, and what that read names; whether it writes it, and whether it reads back what it wrote. A
// read-back names its own transaction.
#[derive(Clone, Copy)]
pub struct Use {
    pub reads: bool,
    pub name: u16,
    pub writes: bool,
    pub backs: bool,
}

// A history of `size` transactions, at most 32, over up to 4 keys. Place 4 * t + k of `uses` says what transaction t does with key k.
#[derive(Clone, Copy)]
pub struct Sample {
    pub size: u8,
    pub cabinet: [u8; 32],
    pub uses: [Use; 128],
    pub times: Times,
}

// The kinds of histories.
#[derive(Clone, Copy, PartialEq)]
pub enum Kind {
    Any,
    Serial,
    Disturbed,
    Blind,
    Chains,
}

pub const KINDS: [Kind; 5] = [
    Kind::Any,
    Kind::Serial,
    Kind::Disturbed,
    Kind::Blind,
    Kind::Chains,
];

// The kind with a number: every number but those of the others is that of serial runs.
impl From<u8> for Kind {
    fn from(number: u8) -> Kind {
        match number {
            0 => Kind::Any,
            2 => Kind::Disturbed,
            3 => Kind::Blind,
            4 => Kind::Chains,
            _ => Kind::Serial,
        }
    }
}

impl Kind {
    // What the test programs call it.
    pub fn name(self) -> &'static [u8] {
        match self {
            Kind::Any => b"any reads",
            Kind::Serial => b"serial runs",
            Kind::Disturbed => b"one read disturbed",
            Kind::Blind => b"blind writes",
            Kind::Chains => b"read-modify-write chains",
        }
    }
}

// What a read of the starting value names.
pub const START: u16 = 65535;

// ---- random numbers

// The next random number.
pub fn next(seed: u64) -> u64 {
    (seed % 2147483648 * 1103515245 + 12345) % 2147483648
}

// A number below n, from a random number; 0 where n is 0.
pub fn below(seed: u64, n: u64) -> u64
    ensures { result ≤ n - 1 }
{
    if n == 0 {
        return 0;
    }
    seed / 65536 % n
}

// The random number of a place: neighbours differ.
pub fn chance(seed: u64, place: u64) -> u64 {
    next(next(seed % 2147483648 + place % 65536 * 7919))
}

// ---- a log's bytes

// A byte of a list, or 0 past its end.
pub fn byte(list: &[u8], i: usize) -> u8 {
    list.get(i).copied().unwrap_or(0)
}

// A two-byte field, the low byte first; or 0 where it does not end in the list.
pub fn pair(list: &[u8], i: usize) -> u16 {
    match list.get(i..) {
        Some([low, high, ..]) => u16::from_le_bytes([*low, *high]),
        _ => 0,
    }
}

// ---- samples

// What a transaction does with a key, without a read-back.
fn use_by(kind: Kind, name: u16, seed: u64) -> Use {
    let code = match kind {
        Kind::Blind => below(seed, 8) % 3,
        Kind::Chains => 3 * below(seed, 2),
        _ => below(seed, 4),
    };
    Use {
        reads: code % 2 == 1,
        name,
        writes: code > 1,
        backs: false,
    }
}

// What a read names: a transaction, its own among them, or the start.
fn name_by(size: u8, seed: u64) -> u16 {
    let n = below(seed, u64::from(size) + 2);
    if n < u64::from(size) { n as u16 } else { START }
}

// The cabinets: each its own, or shared by some.
fn cabinet_by(mode: u64, t: usize, seed: u64) -> u8 {
    match mode {
        0 => (t % 16) as u8,
        1 => below(seed, 16) as u8,
        _ => below(seed, 3) as u8,
    }
}

// A sample with its cabinets and no times, and nothing done yet.
fn empty(seed: u64, size: u8) -> Sample {
    let mode = below(seed, 3);
    let nothing = Use {
        reads: false,
        name: START,
        writes: false,
        backs: false,
    };
    Sample {
        size,
        cabinet: array::from_fn(|t| cabinet_by(mode, t, chance(seed, 100 + (t % 32) as u64))),
        uses: [nothing; 128],
        times: Times::without(0),
    }
}

// A sample of a kind with so many transactions and keys, no read-backs, and reads that name anything.
fn scattered(kind: Kind, size: u8, keys: u8, seed: u64) -> Sample {
    let mut s = empty(chance(seed, 202), size);
    for (p, u) in s.uses.iter_mut().enumerate() {
        if p / 4 < usize::from(size) && p % 4 < usize::from(keys) {
            let place = 2 * (p % 128) as u64;
            let name = name_by(size, chance(seed, place + 1));
            *u = use_by(kind, name, chance(seed, place));
        }
    }
    s
}

impl Sample {
    // Some of what is written is read back, one write of three, as long as the log has room for it. That is drawn apart from all else, so that it alone sets the
    // sample apart from the one without.
    fn read_back(&mut self, seed: u64) {
        let mut room = log::room(self);
        for (p, u) in self.uses.iter_mut().enumerate() {
            if room > 0 && u.writes && below(chance(seed, 400 + (p % 128) as u64), 3) == 0 {
                u.backs = true;
                room -= 1;
            }
        }
    }

    // The sample with other times.
    pub fn with_times(self, times: Times) -> Sample {
        Sample { times, ..self }
    }
}

// A sample of a kind from a random number, of at most 32 transactions: of the kinds but `Any`, what a run in some order would have read, with one
// read changed in `Disturbed`; a read-back never is.
pub fn history<K: Into<Kind>>(kind: K, size: u8, keys: u8, seed: u64) -> Sample {
    let kind = kind.into();
    let mut s = scattered(kind, size, keys, seed);
    s.read_back(seed);
    if kind != Kind::Any {
        orders::read_in_run(&mut s, &times::run_order(size, seed));
    }
    if kind == Kind::Disturbed {
        let p = below(chance(seed, 301), 4 * u64::from(size));
        s.uses[(p % 128) as usize].name = name_by(size, chance(seed, 302));
    }
    s
}

// A small one: up to 6 transactions over 1 to 3 keys.
pub fn small<K: Into<Kind>>(kind: K, seed: u64) -> Sample {
    let size = below(chance(seed, 200), 7) as u8;
    let keys = 1 + below(chance(seed, 201), 3) as u8;
    history(kind, size, keys, seed)
}
