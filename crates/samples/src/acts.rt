// What an operation does: the read before the write, the write, or the read-back.
#[derive(Clone, Copy, PartialEq)]
pub enum Act {
    Read,
    Write,
    Back,
}

impl Act {
    // The kind of its body in a log.
    pub fn kind(self) -> u8 {
        match self {
            Act::Write => 1,
            Act::Read | Act::Back => 0,
        }
    }
}

// The acts in turn.
pub fn act_by(n: u64) -> Act {
    match n % 3 {
        0 => Act::Read,
        1 => Act::Write,
        _ => Act::Back,
    }
}
