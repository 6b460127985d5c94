// Full windows over many keys: 32 transactions of 8 operations, 256 in all. What each reads is what a run in some order would have read.
use samples::acts::{Act, act_by};
use trial::{below, chance, next};

// A log that is being written, and the last writer of each key so far.
#[derive(Clone, Copy)]
pub struct Window {
    pub bytes: [u8; 1156],
    pub last: [u16; 32],
}

// What a transaction does with its keys: it reads or writes each of eight, one operation of so many reads; it reads and writes each of four; or it reads,
// writes and reads back two, and writes and reads back a third.
#[derive(Clone, Copy)]
pub enum Form {
    Singles(u64),
    Pairs,
    Backs,
}

// What sets windows apart: the form; how many keys there are for an operation to choose from; whether some reads name anything.
#[derive(Clone, Copy)]
pub struct Shape {
    pub form: Form,
    pub width: u64,
    pub loose: bool,
}

// An operation's key, by its number among those of the transaction, and what it does with it.
#[derive(Clone, Copy)]
struct Role {
    slot: u64,
    act: Act,
}

// Operation j of transaction t in the form Backs: the read-back stands right behind the write or, in every second transaction, behind all else.
fn backed(t: u64, j: u64) -> Role {
    let j = j % 8;
    if t % 2 == 0 {
        return Role {
            slot: j / 3,
            act: act_by(if j < 6 { j } else { j - 5 }),
        };
    }
    if j > 4 {
        return Role {
            slot: j - 5,
            act: Act::Back,
        };
    }
    Role {
        slot: j / 2,
        act: if j == 4 { Act::Write } else { act_by(j % 2) },
    }
}

// Operation j of transaction t in a shape, by a random number.
fn role_of(shape: Shape, t: u64, j: u64, r: u64) -> Role {
    match shape.form {
        Form::Singles(sparse) => Role {
            slot: j % 8,
            act: if below(r, sparse) != 0 {
                Act::Write
            } else {
                Act::Read
            },
        },
        Form::Pairs => Role {
            slot: j % 8 / 2,
            act: act_by(j % 2),
        },
        Form::Backs => backed(t, j),
    }
}

// The key of a slot of transaction t: no two slots share one.
fn key_of(shape: Shape, t: u64, slot: u64, seed: u64) -> usize {
    let key = match shape.form {
        Form::Singles(_) => {
            let r = chance(seed, 300 + 8 * (t % 32) + slot % 8);
            4 * (slot % 8) + below(r, shape.width) % 4
        }
        Form::Pairs | Form::Backs => {
            let r = chance(seed, 300 + 4 * (t % 32) + slot % 4);
            8 * (slot % 4) + below(r, shape.width) % 8
        }
    };
    key as usize
}

impl Window {
    // The window with its header and contents: each transaction has 8 operations. In every second one each cabinet is drawn.
    fn new(seed: u64) -> Window {
        let mut bytes = samples::full();
        if seed % 2 == 1 {
            for t in 0..32 {
                bytes[4 + 4 * t] = below(chance(seed, t as u64), 16) as u8;
            }
        }
        Window {
            bytes,
            last: [trial::START; 32],
        }
    }

    // A body.
    fn set(&mut self, place: u64, kind: u8, key: usize, argument: u16) {
        let i = (132 + 4 * (place % 256)) as usize;
        let [low, high] = argument.to_le_bytes();
        self.bytes[i..i + 4].copy_from_slice(&[kind, (key % 32) as u8, low, high]);
    }

    // What a read of the key names.
    fn name_of(&self, shape: Shape, key: usize, r: u64) -> u16 {
        if shape.loose && below(r, 8) == 0 {
            return below(next(r), 32) as u16;
        }
        self.last[key % 32]
    }

    // Operation j of transaction t, after the operations before it in the run.
    fn operate(&mut self, shape: Shape, t: u8, j: u64, seed: u64) {
        let number = u64::from(t % 32);
        let place = 8 * number + j % 8;
        let r = chance(seed, 600 + place);
        let role = role_of(shape, number, j, r);
        let key = key_of(shape, number, role.slot, seed);
        match role.act {
            Act::Read => {
                let name = self.name_of(shape, key, next(r));
                self.set(place, 0, key, name);
            }
            Act::Write => {
                self.set(place, 1, key, (r % 65536) as u16);
                self.last[key % 32] = u16::from(t);
            }
            Act::Back => self.set(place, 0, key, u16::from(t)),
        }
    }
}

// The order of the run: 0, 1, 2 and on, or a random one.
pub fn order_of(seed: u64) -> [u8; 32] {
    if seed / 2 % 2 == 0 {
        return trial::orders::ascending();
    }
    trial::orders::shuffled(32, chance(seed, 900))
}

// The log of a window.
pub fn log_of(shape: Shape, seed: u64) -> [u8; 1156] {
    let mut w = Window::new(seed);
    for t in order_of(seed) {
        for j in 0..8 {
            w.operate(shape, t, j, seed);
        }
    }
    w.bytes
}
