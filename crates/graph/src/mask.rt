// Sets of nodes below 32, as words: bit v stands for v. A loop through the members of one is `for v in members(set)`.
ghost use Rattle.std.specs.Prelude.{◌≡◌, ℕ, ◌^◌, ◌<◌, not, ◌&&◌, if◌then◌else◌, ◌==◌, bit_or};
ghost use Rattle.std.specs.Int.Count.{count_trailing_zeros};
ghost use Rattle.std.specs.Iterator.{YieldsFirst, item_count};
ghost use Rattle.model.specs.Lists.{bit};
ghost use Rattle.graph.specs.Masks.{put_if};
ghost use Rattle.graph.specs.Members.{members};

// Whether v is in the set `mask`.
pub fn has(mask: u32, v: u32) -> bool
    requires { v < 32 }
    ensures { result ≡ bit mask v }
{
    (mask >> v) & 1 == 1
}

// The same as a number, 1 or 0: where the answer is hard to guess, arithmetic costs less than a branch.
pub fn member(mask: u32, v: u32) -> u32
    requires { v < 32 }
    ensures { result ≡ (if bit mask v then 1 else 0) }
{
    (mask >> v) & 1
}

// The set `mask` with v.
pub fn with(mask: u32, v: u32) -> u32
    requires { v < 32 }
    ensures { result ≡ bit_or mask (2 ^ v) }
{
    mask | (1 << v)
}

// The set `mask`, with v if `put` says so.
pub fn put_if(mask: u32, v: u32, put: bool) -> u32
    requires { v < 32 }
    ensures { result ≡ put_if mask v put }
{
    if put { with(mask, v) } else { mask }
}

// The set `mask` without v.
pub fn without(mask: u32, v: u32) -> u32
    requires { v < 32 }
    ensures { result ≡ Rattle.graph.specs.Masks.without mask v }
{
    mask ^ (mask & (1 << v))
}

// The set without its lowest member.
pub fn clear_low(set: u32) -> u32
    requires { (set ≡ 0) → ⊥ }
    ensures { (result < set) × ((s : ℕ) → bit result s ≡ (bit set s && not (s == (count_trailing_zeros 32 set)))) }
{
    set & (set - 1)
}

// What is left of a set whose members come one after another, lowest first.
#[derive(Drop)]
pub struct LowestFirst {
    pub left: u32,
}

impl Iterator for LowestFirst {
    type Item = u32;

    ghost next_gives = { YieldsFirst (λ s. members s.left) };

    ghost remaining = { item_count (λ s. members s.left) };

    fn next(&mut self) -> Option<u32> {
        if self.left == 0 {
            return None;
        }
        let v = u32::trailing_zeros(self.left);
        self.left = clear_low(self.left);
        Some(v)
    }
}

// The members of a set, lowest first.
pub fn members(set: u32) -> LowestFirst
    ensures { result.left ≡ set }
{
    LowestFirst { left: set }
}

// The lowest member of a set, as a set; of none, none.
pub fn lowest(set: u32) -> u32
    ensures { (s : ℕ) → bit result s ≡ (bit set s && s == (count_trailing_zeros 32 set)) }
{
    set ^ (set & std::num::wrapping_sub_u32(set, 1))
}
