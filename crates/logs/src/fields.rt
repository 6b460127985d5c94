// Two-byte fields of a log, as numbers.
ghost use Rattle.std.specs.Prelude.{◌≡◌, ◌+◌, ◌<◌, length};
ghost use Rattle.model.specs.Log.{pair_at};

// A two-byte field has the low byte first.
#[tactic(auto, unfolding(model::specs::Log::pair_at))]
pub(crate) fn field(log: &[u8], at: usize) -> u16
    requires { at + 1 < length log.now }
    ensures { result ≡ pair_at log.now at }
{
    u16::from_le_bytes([log[at], log[at + 1]])
}

// The same as a number.
pub fn pair(log: &[u8], at: usize) -> usize
    requires { at + 1 < length log.now }
    ensures { (result ≡ pair_at log.now at) × (result < 65536) }
{
    usize::from(field(log, at))
}
