// The calls' tests of notes: with what each call refuses.
ghost use Rattle.std.specs.Prelude.{◌≡◌};
ghost use Rattle.refusals.specs.Numbers.{number_of};
ghost use Rattle.model.specs.Writing.{is_log, has_log};
ghost use Rattle.writer.specs.Held as Held;
ghost use Rattle.writer.specs.Room as Room;
ghost use Rattle.writer.specs.Calls.{open_refusal, note_refusal, close_refusal, write_refusal};

use crate::Notes;
use crate::counts::narrow;
use crate::rows::put_log;
use refusals::Refusal;

// Whether Load takes the bytes.
fn is_log(log: &[u8]) -> bool
    ensures { result ≡ is_log log.now }
{
    logs::test(log).is_ok()
}

impl Notes {
    // Whether a transaction is open.
    #[tactic(auto, unfolding(crate::specs::Held::is_open))]
    fn is_open(&self) -> bool
        ensures { result ≡ Held.is_open self.now }
    {
        self.transactions != 0 && self.opened
    }

    // 32 when one is open, 33 a 33rd transaction.
    #[tactic(auto, unfolding(crate::specs::Calls::open_refusal))]
    pub(crate) fn test_open(&self) -> Result<(), Refusal>
        ensures { number_of result ≡ open_refusal self.now }
    {
        if self.is_open() {
            Err(Refusal::OneOpen)
        } else if self.transactions < 32 {
            Ok(())
        } else {
            Err(Refusal::NoLog)
        }
    }

    // 31 when none is open, 33 a 257th note, or notes beyond 32 transactions, which have no room for one.
    #[tactic(auto, unfolding(crate::specs::Calls::note_refusal))]
    pub(crate) fn test_note(&self) -> Result<(), Refusal>
        ensures { number_of result ≡ note_refusal self.now }
    {
        if !self.is_open() {
            return Err(Refusal::NoneOpen);
        }
        if self.transactions <= 32 && self.noted() < 256 {
            Ok(())
        } else {
            Err(Refusal::NoLog)
        }
    }

    // 31 when none is open.
    #[tactic(auto, unfolding(crate::specs::Calls::close_refusal))]
    pub(crate) fn test_close(&self) -> Result<(), Refusal>
        ensures { number_of result ≡ close_refusal self.now }
    {
        if self.is_open() {
            Ok(())
        } else {
            Err(Refusal::NoneOpen)
        }
    }

    // ---- writing

    // Whether the notes are within the room, and every count has its byte.
    fn in_room(&self) -> bool
        ensures { result ≡ Room.in_room self.now }
    {
        self.transactions <= 32 && self.noted() <= 256 && narrow(&self.counts[..self.transactions])
    }

    // Whether Load would take the log to be written. It is written to an array first, so that a refusal leaves the buffer as it was.
    fn has_log(&self) -> bool
        ensures { result ≡ has_log (Held.held self.now) }
    {
        if !self.in_room() {
            return false;
        }
        let mut bytes = [0u8; 1156];
        let length = put_log(self, &mut bytes);
        is_log(&bytes[..length])
    }

    // 32 when one is open, 33 content that Load would refuse, then 25 a buffer shorter than the log to be written.
    #[tactic(auto, unfolding(crate::specs::Calls::write_refusal))]
    pub(crate) fn test_write(&self, room: usize) -> Result<(), Refusal>
        ensures { number_of result ≡ write_refusal self.now room }
    {
        if self.is_open() {
            return Err(Refusal::OneOpen);
        }
        if !self.has_log() {
            return Err(Refusal::NoLog);
        }
        if room < 4 + 4 * self.transactions + 4 * self.noted() {
            return Err(Refusal::TooFewPlaces);
        }
        Ok(())
    }
}
