// The stage that a case counts as, from what it says of itself and what it holds.
ghost use Rattle.std.specs.Prelude.{◌≡◌, ◌≤◌};
ghost use Rattle.std.proofs.Math.ListN as ListN;
ghost use Rattle.model.specs.Log.{load_number};
ghost use Rattle.answers.specs.Stages.{holds_window, claims_order, counted};

use crate::windows::load_timed;
use crate::{Clock, Stage};
use logs::Log;
use logs::times::Times;
use replay::orders::is_order;

// Whether Load takes the first `length` bytes with these times, and there are so many of both.
fn holds_window(bytes: &[u8], length: usize, clock: Clock) -> bool
    ensures { result ≡ holds_window bytes.now length clock }
{
    if length > bytes.len() {
        return false;
    }
    let count = clock.count;
    if count > 32 {
        return false;
    }
    let times = Times {
        begin: &clock.begin[..count],
        end: &clock.end[..count],
        drift: clock.drift,
    };
    load_timed(&bytes[..length], times).is_ok()
}

// Whether the first T numbers are an order, of a log that Load takes.
fn claims_order(bytes: &[u8], length: usize, order: &[u8]) -> bool
    requires { (length ≤ ListN.length bytes.now) × (load_number (ListN.take length bytes.now) ≡ 0) × (32 ≤ ListN.length order.now) }
    ensures { result ≡ claims_order bytes.now length order.now }
{
    let n = Log::of(&bytes[..length]).transactions();
    is_order(n as u32, &order[..n])
}

// The stage that a case counts as.
#[tactic(auto, unfolding(crate::specs::Stages::counted))]
pub fn counted_as(says: Stage, bytes: &[u8], length: usize, clock: Clock, order: &[u8]) -> Stage
    requires { 32 ≤ ListN.length order.now }
    ensures { result ≡ counted says (holds_window bytes.now length clock) (claims_order bytes.now length order.now) }
{
    if says == Stage::Fresh || !holds_window(bytes, length, clock) {
        return Stage::Fresh;
    }
    if says == Stage::Ordered && !claims_order(bytes, length, order) {
        return Stage::Loaded;
    }
    says
}
