// Lists of numbers as orders: every number below n once and nothing else.
ghost use Rattle.std.specs.Prelude.{◌≡◌, ◌≤◌};
ghost use Rattle.model.specs.History.{is_order};
ghost use Rattle.replay.specs.Orders.{is_new, Ordered, Places};

use graph::{has, with};

// Whether x is below n and not in the mask.
fn is_new(n: u32, mask: u32, x: u32) -> bool
    requires { n ≤ 32 }
    ensures { result ≡ is_new n mask x }
{
    x < n && !has(mask, x)
}

// Whether the list is an order of the numbers below n: as many numbers, each below n and none of them twice.
pub fn is_order(n: u32, list: &[u8]) -> bool
    requires { n ≤ 32 }
    ensures { result ≡ is_order n list.now }
{
    if list.len() != n as usize {
        return false;
    }
    let mut mask = 0;
    for x in list {
        let x = u32::from(*x);
        if !is_new(n, mask, x) {
            return false;
        }
        mask = with(mask, x);
    }
    true
}

// The place of each number of an order.
pub(crate) fn places(order: &[u8]) -> [u8; 32]
    requires { Ordered order.now }
    ensures { Places order.now result }
{
    let mut out = [0u8; 32];
    for (i, t) in order.iter().enumerate() {
        out[usize::from(*t)] = i as u8;
    }
    out
}
