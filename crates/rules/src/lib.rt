// Load's rules for one body, over numbers and masks: 7, 8, 9, 10 or 34, 11. The keys that a transaction has read, written and read back so far are three masks.
// The loops over a log's bodies are in `logs`.
#![tactic(auto)]

ghost use Rattle.std.specs.Prelude.{◌≡◌, Bool, cond, ◌<◌};
ghost use Rattle.refusals.specs.Numbers.{number_of};
ghost use Rattle.rules.specs.Tests.{named, back_by, read_by, write_by, body_by, after_by, faults_by, mark_by, mark_back, keep_word};

use graph::{has, with};
use refusals::Refusal;

// The body of an operation: kind 0 is a read and 1 a write. It is a number and no enum, since `faults` computes with whatever a log has there.
#[derive(Clone, Copy)]
pub struct Body {
    pub kind: usize,
    pub key: usize,
    pub argument: usize,
}

// The keys that a transaction has read, written and read back so far: none, as it starts.
#[derive(Clone, Copy, Default)]
pub struct Seen {
    pub reads: u32,
    pub writes: u32,
    pub backs: u32,
}

// The mask with the key, where the body is of the kind that is marked.
#[tactic(auto, unfolding(crate::specs::Tests::mark_by))]
pub fn mark(mask: u32, kind: usize, which: usize, key: u32) -> u32
    requires { key < 32 }
    ensures { result ≡ mark_by mask kind which key }
{
    if kind == which { with(mask, key) } else { mask }
}

// The mask of the keys written, with the key where a body of kind 0 or 1 is a write: the key's bit, unless it is a read's. It asks for the kind's test that
// `faults` has made already, where `mark` would make a second one.
pub fn mark_write(mask: u32, kind: usize, key: u32) -> u32
    requires { (kind < 2) × (key < 32) }
    ensures { result ≡ mark_by mask kind 1 key }
{
    mask | (with(0, key) ^ mark(0, kind, 0, key))
}

// The mask of the keys read back, with the key where the body reads it after a write of it.
#[tactic(auto, unfolding(crate::specs::Tests::mark_back))]
fn mark_back(backs: u32, writes: u32, kind: usize, key: u32) -> u32
    requires { key < 32 }
    ensures { result ≡ mark_back backs writes kind key }
{
    if has(writes, key) {
        mark(backs, kind, 0, key)
    } else {
        backs
    }
}

// Whether a read's argument is below n, or 65535.
#[tactic(auto, unfolding(crate::specs::Tests::named))]
fn names(argument: usize, n: usize) -> bool
    ensures { result ≡ named n argument }
{
    (argument < n) | (argument == 65535)
}

// ---- body by body

// A read-back by t: 10 where it is the second of its key, 11 where it names anything but t.
#[tactic(auto, unfolding(crate::specs::Tests::back_by))]
fn read_back(argument: usize, t: usize, second: bool) -> Result<(), Refusal>
    ensures { number_of result ≡ back_by t second argument }
{
    if second {
        return Err(Refusal::SecondRead);
    }
    if argument != t {
        return Err(Refusal::NotItsOwnWrite);
    }
    Ok(())
}

impl Seen {
    // A read by t: 9, 10, 11.
    #[tactic(auto, unfolding(crate::specs::Tests::read_by))]
    fn read(self, argument: usize, n: usize, t: usize, key: u32) -> Result<(), Refusal>
        requires { key < 32 }
        ensures { number_of result ≡ read_by n t self.reads self.writes self.backs key argument }
    {
        if !names(argument, n) {
            return Err(Refusal::NoSuchWriter);
        }
        if has(self.writes, key) {
            return read_back(argument, t, has(self.backs, key));
        }
        if has(self.reads, key) {
            Err(Refusal::SecondRead)
        } else {
            Ok(())
        }
    }

    // A write: 34 where it is the second of its key.
    #[tactic(auto, unfolding(crate::specs::Tests::write_by))]
    fn write(self, key: u32) -> Result<(), Refusal>
        requires { key < 32 }
        ensures { number_of result ≡ write_by self.writes key }
    {
        if has(self.writes, key) {
            Err(Refusal::SecondWrite)
        } else {
            Ok(())
        }
    }

    // A body of t, in a log of n transactions: 7, 8, then what a read or a write is refused with.
    #[tactic(auto, unfolding(crate::specs::Tests::body_by))]
    pub fn test(self, o: Body, n: usize, t: usize) -> Result<(), Refusal>
        ensures { number_of result ≡ body_by o n t self.reads self.writes self.backs }
    {
        if o.kind > 1 {
            return Err(Refusal::NoSuchKind);
        }
        if o.key > 31 {
            return Err(Refusal::NoSuchKey);
        }
        if o.kind == 0 {
            self.read(o.argument, n, t, o.key as u32)
        } else {
            self.write(o.key as u32)
        }
    }

    // The keys after a body.
    pub fn after(self, o: Body) -> Seen
        requires { o.key < 32 }
        ensures { result ≡ after_by self o }
    {
        let key = o.key as u32;
        Seen {
            reads: mark(self.reads, o.kind, 0, key),
            writes: mark(self.writes, o.kind, 1, key),
            backs: mark_back(self.backs, self.writes, o.kind, key),
        }
    }
}

// ---- all bodies at once

// A read's bit where its argument names nothing, else 0. In 16 bits 65535 and 1 are 0, so that one test does for both ways to name something.
fn unnamed(argument: usize, n: usize, read: u32) -> u32
    requires { argument < 65536 }
    ensures { result ≡ cond (named n argument) 0 read }
{
    if (argument + 1) % 65536 <= n { 0 } else { read }
}

// Bits of which one is set where a body is refused or a read-back, with no branch.
pub fn faults(o: Body, n: usize, reads: u32, writes: u32) -> usize
    requires { o.argument < 65536 }
    ensures { result ≡ faults_by o n reads writes }
{
    let key = (o.key % 32) as u32;
    let read = mark(0, o.kind, 0, key);
    let before = (reads & read) | (writes & with(0, key));
    let wrong = unnamed(o.argument, n, read);
    (o.kind / 2) | (o.key / 32) | before as usize | wrong as usize
}

// The mask where `keep` has all bits, or none where it has none, as where a transaction starts.
pub fn kept(mask: u32, keep: u32) -> u32
    ensures { (stays : Bool) → keep ≡ keep_word stays → result ≡ cond stays mask 0 }
{
    mask & keep
}
