// A writer of logs: a transaction is opened with a cabinet, reads and writes are noted, it is closed, and at the end the log is written.
// A refused call leaves the notes as found. Anyone may put notes together; no call requires anything.
#![tactic(auto)]

ghost use Rattle.std.specs.Prelude.{◌≡◌, length};
ghost use Rattle.std.specs.Result.{result_unwrap_or};
ghost use Rattle.writer.specs.Calls.{noted_by, written_by, fresh_notes, opening, noting, closing, writing, buffer_after};
ghost use Rattle.writer.specs.Again.{noting_again};

use logs::Log;
use refusals::Refusal;

mod again;
mod counts;
mod rows;
mod tests;

// The notes: whether a transaction is open, the count of transactions, the cabinet and the count of operations of each, and the operations of all,
// one after another: kind (0 read, 1 write), key and argument. They are tables side by side, since the definitions of specs/ and callers name each of them.
#[derive(Clone, Copy, PartialEq, Eq)]
pub struct Notes {
    pub opened: bool,
    pub transactions: usize,
    pub cabinets: [u8; 32],
    pub counts: [u16; 32],
    pub kinds: [u8; 256],
    pub keys: [u8; 256],
    pub arguments: [u16; 256],
}

impl Notes {
    // Nothing noted.
    #[tactic(auto, unfolding(crate::specs::Calls::fresh_notes))]
    pub fn fresh() -> Notes
        ensures { result ≡ fresh_notes }
    {
        Notes {
            opened: false,
            transactions: 0,
            cabinets: [0u8; 32],
            counts: [0u16; 32],
            kinds: [0u8; 256],
            keys: [0u8; 256],
            arguments: [0u16; 256],
        }
    }

    // Opens a transaction.
    pub fn open(&mut self, cabinet: u8) -> Result<(), Refusal>
        ensures { noted_by result self.new ≡ opening self.old cabinet }
    {
        self.test_open()?;
        let t = self.transactions;
        self.opened = true;
        self.transactions = t + 1;
        self.cabinets[t] = cabinet;
        self.counts[t] = 0;
        Ok(())
    }

    // Notes an operation of the open transaction.
    fn note(&mut self, kind: u8, key: u8, argument: u16) -> Result<(), Refusal>
        ensures { noted_by result self.new ≡ noting self.old kind key argument }
    {
        self.test_note()?;
        let t = self.transactions - 1;
        let i = self.noted();
        self.counts[t] += 1;
        self.kinds[i] = kind;
        self.keys[i] = key;
        self.arguments[i] = argument;
        Ok(())
    }

    // Notes a read: the argument is the number of the transaction whose write it saw, or 65535.
    pub fn note_read(&mut self, key: u8, argument: u16) -> Result<(), Refusal>
        ensures { noted_by result self.new ≡ noting self.old 0 key argument }
    {
        self.note(0, key, argument)
    }

    // Notes a write of a value.
    pub fn note_write(&mut self, key: u8, value: u16) -> Result<(), Refusal>
        ensures { noted_by result self.new ≡ noting self.old 1 key value }
    {
        self.note(1, key, value)
    }

    // Closes the open transaction.
    pub fn close(&mut self) -> Result<(), Refusal>
        ensures { noted_by result self.new ≡ closing self.old }
    {
        self.test_close()?;
        self.opened = false;
        Ok(())
    }

    // Writes the log to the buffer, and gives its length. What stands behind the log is left.
    pub fn write(&self, out: &mut [u8]) -> Result<usize, Refusal>
        ensures result { written_by result self.now ≡ writing self.now (length out.old) }
        ensures list { out.new ≡ buffer_after self.now out.old }
    {
        self.test_write(out.len())?;
        Ok(rows::put_log(self, out))
    }

    // Notes a log again, in its own order, or gives the refusal of Load.
    pub fn again(log: &[u8]) -> Result<Notes, Refusal>
        ensures { noted_by result (result_unwrap_or result fresh_notes) ≡ noting_again log.now }
    {
        let log = Log::load(log)?;
        let mut notes = Notes::fresh();
        for t in 0..log.transactions() {
            again::note_transaction(&mut notes, log, t);
        }
        Ok(notes)
    }
}
