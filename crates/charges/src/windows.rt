// Random windows with all keys and values: random histories whose four keys become others, and whose writes get other values; and full ones, of 32 transactions
// and 256 operations. Other names for the keys and other values of the writes leave the legal orders as they are.
use checker::Clock;
use samples::clocks::of_times;
use samples::tables::drawn;
use trial::log::Bytes;
use trial::times::Manner;
use trial::{Kind, Sample, below, chance, pair};

// A log, the table that it starts from, its times, and the setting to decide it in.
#[derive(Clone, Copy)]
pub struct Window {
    pub log: Bytes,
    pub starting: [u16; 32],
    pub clock: Clock,
    pub setting: u8,
}

// Encoding 2 with pruning, and in one window of four any setting.
fn setting_of(seed: u64) -> u8 {
    if seed % 4 == 3 {
        return (seed / 4 % 6) as u8;
    }
    5
}

// ---- other keys and values

// The new name of a key: no two keys share one. In every second window gates stay gates.
fn renamed(key: u8, seed: u64) -> u8 {
    let first = below(chance(seed, 2000), 32);
    let step = 2 * below(chance(seed, 2001), 16) + 1;
    let n = ((first + step * u64::from(key)) % 32) as u8;
    if seed % 2 == 1 {
        n
    } else if key < 16 {
        n % 16
    } else {
        16 + n % 16
    }
}

// The value of a write, by a random number: the starting one, an end of the range, or any.
fn value_by(r: u64, start: u16) -> u16 {
    match below(r, 6) {
        0 => start,
        1 => 0,
        2 => 65535,
        _ => (trial::next(r) / 1024 % 65536) as u16,
    }
}

impl Window {
    // The window with the body at byte i changed: the m-th.
    fn change(&mut self, i: usize, m: u64, seed: u64) {
        let i = i % 4096;
        let log = self.log.as_slice();
        let writes = trial::byte(log, i) == 1;
        let key = renamed(trial::byte(log, i + 1), seed);
        self.log.set(i + 1, key);
        if writes {
            let r = chance(seed, 1000 + m % 256);
            let [low, high] = value_by(r, self.starting[usize::from(key % 32)]).to_le_bytes();
            self.log.set(i + 2, low);
            self.log.set(i + 3, high);
        }
    }

    // The window with all bodies changed.
    fn changed(mut self, seed: u64) -> Window {
        let log = self.log.as_slice();
        let first = 4 + 4 * usize::from(trial::byte(log, 0));
        for m in 0..pair(log, 2) {
            self.change(first + 4 * usize::from(m), u64::from(m), seed);
        }
        self
    }
}

// ---- histories

// The window of a sample, with times or without. Those of each kind are others.
fn of_sample(s: &Sample, seed: u64) -> Window {
    let order = trial::times::run_order(s.size, seed / 5);
    let times = trial::times::drawn(s.size, &order, seed);
    let w = Window {
        log: trial::log::of(s),
        starting: drawn(seed),
        clock: of_times(&times, s.size),
        setting: setting_of(seed / 5),
    };
    w.changed(seed)
}

// A small one: up to 6 transactions over 1 to 3 keys.
pub(crate) fn small(kind: Kind, seed: u64) -> Window {
    let n = seed % 1000000;
    of_sample(&trial::small(kind, n), n * 5 + kind as u64)
}

// A larger one: 7 to 32 transactions over 4 keys. Where there are enough cabinets, each transaction has one of its own: then only reads and times have a say.
pub(crate) fn large(kind: Kind, seed: u64) -> Window {
    let n = seed % 1000000;
    let size = 7 + below(chance(n, 2002), 26) as u8;
    let mut s = trial::history(kind, size, 4, n);
    if size <= 16 {
        s.cabinet = trial::orders::ascending();
    }
    of_sample(&s, n * 5 + kind as u64)
}

// ---- full windows

// All operations are writes, over all keys. The clock sets the order of the first sixteen transactions, and has the others behind them.
pub(crate) fn wide(seed: u64) -> Window {
    let mut log = Bytes::new();
    log.push_pair(32);
    log.push_pair(256);
    for t in 0..32u16 {
        log.push_entry((t % 16) as u8, 8, 8 * t);
    }
    for m in 0..256u16 {
        let n = u64::from(m);
        let key = 4 * (n % 8) + below(chance(seed, n), 4);
        log.push_body(1, key as u8, 0);
    }
    let order = trial::orders::shuffled(16, chance(seed, 2003));
    let times = trial::times::of_manner(Manner::Run, 32, &order, seed);
    let w = Window {
        log,
        starting: drawn(seed),
        clock: of_times(&times, 32),
        setting: setting_of(seed),
    };
    w.changed(seed)
}

// The full log with read-backs, of other cabinets: each transaction reads what the one before it wrote, so that they stand in the log's order.
pub(crate) fn chained(seed: u64) -> Window {
    let mut bytes = samples::full_backed();
    for t in 0..32 {
        bytes[4 + 4 * t] = below(chance(seed, 2100 + t as u64), 16) as u8;
    }
    let w = Window {
        log: Bytes::whole(bytes),
        starting: drawn(seed),
        clock: samples::clocks::none(),
        setting: setting_of(seed),
    };
    w.changed(seed)
}
