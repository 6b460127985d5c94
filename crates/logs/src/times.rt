// The times of a window, and a log beside them.
ghost use Rattle.std.specs.Prelude.{◌≡◌};
ghost use Rattle.model.specs.Log.{load_number};
ghost use Rattle.model.specs.Times.{times, timed_number};

use crate::Log;

// A begin and an end for each transaction, in seconds, and the drift; or two empty lists. These are any that are lent.
#[derive(Clone, Copy)]
pub struct Times<'a> {
    pub begin: &'a [u32],
    pub end: &'a [u32],
    pub drift: u32,
}

// A log that Load takes with its times.
#[derive(Clone, Copy)]
pub struct TimedLog<'a> {
    pub log: Log<'a>,
    pub clock: Times<'a>,
    ghost taken: { timed_number log.bytes.now (times clock.begin.now clock.end.now clock.drift) ≡ 0 },
}
