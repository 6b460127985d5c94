// The setting of a polygraph: the encoding of its constraints, and whether it is pruned. Document 01's calls and C give both by number.
#![tactic(auto)]

ghost use Rattle.std.specs.Prelude.{◌≡◌};
ghost use Rattle.setting.specs.Encodings.{encoding_number, IsEncoding};

use refusals::Refusal;

// How the writes of a key are set against one another: each read against each write; two writes by one constraint; runs of writes by one.
#[derive(Clone, Copy, Debug, PartialEq, Eq)]
pub enum Encoding {
    Plain,
    Joined,
    Chained,
}

impl Encoding {
    // Its number.
    pub fn number(self) -> u8
        ensures { result ≡ encoding_number self }
    {
        match self {
            Encoding::Plain => 0,
            Encoding::Joined => 1,
            Encoding::Chained => 2,
        }
    }
}

// An encoding, and whether pruning is done.
#[derive(Clone, Copy, Debug, PartialEq, Eq)]
pub struct Setting {
    pub encoding: Encoding,
    pub pruned: bool,
}

impl TryFrom<u8> for Encoding {
    type Error = Refusal;

    ghost try_from_gives = { IsEncoding };

    fn try_from(number: u8) -> Result<Encoding, Refusal> {
        match number {
            0 => Ok(Encoding::Plain),
            1 => Ok(Encoding::Joined),
            2 => Ok(Encoding::Chained),
            _ => Err(Refusal::NoSuchSetting),
        }
    }
}
