// Logs of any bytes: Load's tests of a log, and readers of a log that it takes.
// `fields` reads two-byte fields; all of a log is read through `view`; `entries` and `bodies` make Load's tests.
#![tactic(auto)]

ghost use Rattle.std.specs.Prelude.{◌≡◌, ℕ, ◌+◌, ◌<◌, ◌≤◌, IfOk};
ghost use Rattle.refusals.specs.Numbers.{number_of};
ghost use Rattle.model.specs.Log.{byte_at, transactions_in, cabinet_at, count_at, start_at, load_number};
ghost use Rattle.logs.specs.Reading.{IsOperation};

use refusals::Refusal;
pub use rules::Body;
use view::LogView;

mod bodies;
mod entries;
pub mod fields;
pub mod times;
mod view;

// What Load tests of a log: the first refusal that applies of 1, 2, 3 or 35; of an entry 4, 5; 6; of a body 7, 8, 9, 10 or 34, 11.
pub fn test(log: &[u8]) -> Result<(), Refusal>
    ensures { number_of result ≡ load_number log.now }
{
    if log.len() < 4 {
        return Err(Refusal::NoHeader);
    }
    let h = LogView { log, t: 0 }.header();
    let t = usize::from(h.transactions);
    let n = usize::from(h.operations);
    if t > 32 || n > 256 {
        return Err(Refusal::CountsTooHigh);
    }
    let said = 4 + 4 * t + 4 * n;
    if log.len() != said {
        if log.len() < said {
            return Err(Refusal::LogTooShort);
        }
        return Err(Refusal::LogTooLong);
    }
    let sum = entries::test(log, t)?;
    if sum != n {
        return Err(Refusal::WrongSum);
    }
    bodies::test(log, t, n)
}

// A log that Load takes. `fits` says of its bytes what a slice by itself says, and a field that is one does not.
#[derive(Clone, Copy)]
pub struct Log<'a> {
    pub bytes: &'a [u8],
    ghost taken: { load_number bytes.now ≡ 0 },
    ghost fits: { (i : ℕ) → byte_at bytes.now i < 256 },
}

impl<'a> Log<'a> {
    // The log of these bytes, or what Load refuses it with.
    pub fn load(bytes: &'a [u8]) -> Result<Log<'a>, Refusal>
        ensures number { number_of result ≡ load_number bytes.now }
        ensures log { IfOk result (λ l. l.bytes.now ≡ bytes.now) }
    {
        test(bytes)?;
        Ok(Log { bytes })
    }

    // The log of bytes that Load is known to take, as those of a case are.
    pub fn of(bytes: &'a [u8]) -> Log<'a>
        requires { load_number bytes.now ≡ 0 }
        ensures { result.bytes.now ≡ bytes.now }
    {
        Log { bytes }
    }

    // The count of transactions.
    #[tactic(auto, using(crate::proofs::Reading::head_in, crate::proofs::Reading::few))]
    pub fn transactions(self) -> usize
        ensures { (result ≡ transactions_in self.entry.bytes.now) × (result ≤ 32) }
    {
        usize::from(
            LogView {
                log: self.bytes,
                t: 0,
            }
            .header()
            .transactions,
        )
    }

    // The cabinet of transaction t.
    pub fn cabinet(self, t: usize) -> usize
        requires { t < transactions_in self.bytes.now }
        ensures { result ≡ cabinet_at self.entry.bytes.now t }
    {
        usize::from(LogView { log: self.bytes, t }.entry().cabinet)
    }

    // The count of operations of transaction t.
    pub fn count(self, t: usize) -> usize
        requires { t < transactions_in self.bytes.now }
        ensures { (result ≡ count_at self.entry.bytes.now t) × (result < 256) }
    {
        usize::from(LogView { log: self.bytes, t }.entry().count)
    }

    // The number of transaction t's first operation.
    pub fn start(self, t: usize) -> usize
        requires { t < transactions_in self.bytes.now }
        ensures { (result ≡ start_at self.entry.bytes.now t) × (result + count_at self.entry.bytes.now t ≤ 256) }
    {
        usize::from(LogView { log: self.bytes, t }.entry().start)
    }

    // Operation m of transaction t.
    pub fn operation(self, t: usize, m: usize) -> Body
        requires { (t < transactions_in self.bytes.now) × (m < count_at self.bytes.now t) }
        ensures { IsOperation self.entry.bytes.now t m result.kind result.key result.argument }
    {
        LogView { log: self.bytes, t }.body(m)
    }
}
