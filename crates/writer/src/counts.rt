// The counts of operations in notes: their sum, and whether each has its byte in a log.
ghost use Rattle.std.specs.Prelude.{◌≡◌, ◌<◌, ◌≤◌, ◌↔◌, IsTrue, EachIndex, sum, length, slice_index};
ghost use Rattle.writer.specs.Held.{noted_in};

use crate::Notes;

// The sum of the counts.
fn total(counts: &[u16]) -> usize
    requires { length counts.now ≤ 32 }
    ensures { result ≡ sum counts.now }
{
    counts.iter().map(|c| usize::from(*c)).sum()
}

// Whether each of the counts has its byte.
pub(crate) fn narrow(counts: &[u16]) -> bool
    ensures { IsTrue result ↔ EachIndex counts.now (λ t. slice_index counts.now t < 256) }
{
    counts.iter().all(|c| *c < 256)
}

impl Notes {
    // How many operations are noted.
    pub(crate) fn noted(&self) -> usize
        requires { self.now.transactions ≤ 32 }
        ensures { result ≡ noted_in self.now }
    {
        total(&self.counts[..self.transactions])
    }
}
