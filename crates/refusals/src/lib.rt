// Why a call refuses: one name for each number of document 01 and of the cards that stand. README.md's table says what each means for a log, docs/MANUAL.md for all.
#![tactic(auto)]

ghost use Rattle.std.specs.Prelude.{◌≡◌};
ghost use Rattle.refusals.specs.Numbers.{code, number_of};

// In the order of the tests: of a log, of a window, of a call's arguments, of a case's state, of the writer's notes.
#[derive(Clone, Copy, Debug, PartialEq, Eq)]
pub enum Refusal {
    // the log
    NoHeader,
    CountsTooHigh,
    LogTooShort,
    LogTooLong,
    NoSuchCabinet,
    WrongStart,
    WrongSum,
    NoSuchKind,
    NoSuchKey,
    NoSuchWriter,
    SecondRead,
    SecondWrite,
    NotItsOwnWrite,
    // the window: its starting table and its times
    NotATable,
    WrongCountOfTimes,
    WrongTimes,
    // the call's arguments
    NoSuchSetting,
    NotAnOrder,
    TooFewPlaces,
    // the case's state
    NotFresh,
    NothingLoaded,
    NotDecided,
    DecidedWithoutOrder,
    // the writer's notes
    NoneOpen,
    OneOpen,
    NoLog,
}

impl Refusal {
    // Its number.
    pub fn number(self) -> u8
        ensures { result ≡ code self }
    {
        match self {
            Refusal::NoHeader => 1,
            Refusal::CountsTooHigh => 2,
            Refusal::LogTooShort => 3,
            Refusal::LogTooLong => 35,
            Refusal::NoSuchCabinet => 4,
            Refusal::WrongStart => 5,
            Refusal::WrongSum => 6,
            Refusal::NoSuchKind => 7,
            Refusal::NoSuchKey => 8,
            Refusal::NoSuchWriter => 9,
            Refusal::SecondRead => 10,
            Refusal::SecondWrite => 34,
            Refusal::NotItsOwnWrite => 11,
            Refusal::NotATable => 36,
            Refusal::WrongCountOfTimes => 37,
            Refusal::WrongTimes => 38,
            Refusal::NoSuchSetting => 12,
            Refusal::NotAnOrder => 13,
            Refusal::TooFewPlaces => 25,
            Refusal::NotFresh => 21,
            Refusal::NothingLoaded => 22,
            Refusal::NotDecided => 23,
            Refusal::DecidedWithoutOrder => 24,
            Refusal::NoneOpen => 31,
            Refusal::OneOpen => 32,
            Refusal::NoLog => 33,
        }
    }
}

// The number of an answer: 0 where nothing is refused.
pub fn number_of<T: Drop>(answer: Result<T, Refusal>) -> u8
    ensures { result ≡ number_of answer }
{
    match answer {
        Ok(_) => 0,
        Err(refusal) => refusal.number(),
    }
}
