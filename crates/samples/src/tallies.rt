// Counts of the test programs, which none of them brings near the highest number.

// So many more.
pub fn add(n: &mut u64, by: u64) {
    *n = n.saturating_add(by);
}

// One more, if it is so.
pub fn add_if(n: &mut u64, yes: bool) {
    add(n, u64::from(yes));
}
