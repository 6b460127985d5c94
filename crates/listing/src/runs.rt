// The tables of runs of writes, for encodings 1 and 2.
ghost use Rattle.std.specs.Prelude.{◌≡◌, ◌<◌, ◌≤◌, ◌+◌, length, get_or};
ghost use Rattle.graph.specs.Members.{members};
ghost use Rattle.polygraph.specs.Edges.{successors_by};
ghost use Rattle.listing.specs.Choosing.{Chose};
ghost use Rattle.listing.specs.Runs.{head_by, first_by, tail_by, last_by, word_by, words_by, pairs_in, is_few, key_words, key_numbers, run_words, run_numbers};

use crate::{ENCODING, PLACES, WORDS};
use graph::mask::{clear_low, lowest};
use polygraph::MARKS;

// The runs of writes of key k, of a log of n transactions: in encoding 1 each write alone, in encoding 2 the chains.
// Methods take it by value: behind a & the encoding is read anew in each loop, which is slower.
#[derive(Clone, Copy)]
struct Runs<'a> {
    encoding: u8,
    n: u32,
    k: usize,
    writers: &'a [u32; 32],
    marks: &'a [u32; MARKS],
    ghost few: { n ≤ 32 },
    ghost is_key: { k < 32 },
}

impl Runs<'_> {
    // The heads: those that are nobody's successor.
    fn head(self) -> u32
        ensures { result ≡ head_by (get_or self.entry.writers.now self.entry.k 0) self.entry.marks.now self.entry.k }
    {
        let own = self.writers[self.k];
        let mut nexts: u32 = 0;
        let mut m = own;
        while m != 0 {
            let u = m.trailing_zeros() as usize;
            nexts |= lowest(self.marks[self.k * 32 + u] & own);
            m = clear_low(m);
        }
        own ^ (own & nexts)
    }

    // Those that stand for a run of writes of the key.
    #[tactic(auto, unfolding(crate::specs::Runs::first_by))]
    fn first(self) -> u32
        ensures { result ≡ first_by self.entry.encoding self.entry.writers.now self.entry.marks.now self.entry.k }
    {
        if self.encoding == 2 {
            self.head()
        } else {
            self.writers[self.k]
        }
    }

    // The end of the chain from u, by at most n steps.
    fn tail(self, u: u32) -> u32
        requires { u < 32 }
        ensures { (result ≡ tail_by self.entry.n (successors_by self.entry.n self.entry.writers.now self.entry.marks.now) self.entry.k self.entry.n u) × (result < 32) }
    {
        let mut at = u;
        for _ in 0..self.n {
            let s = polygraph::next_at(self.n, self.writers, self.marks, self.k, at as usize);
            if s >= self.n {
                return at;
            }
            at = s;
        }
        at
    }

    // The last write of the run that g stands for.
    #[tactic(auto, unfolding(crate::specs::Runs::last_by))]
    fn last(self, g: u32) -> u32
        requires { g < 32 }
        ensures { (result ≡ last_by self.entry.encoding self.entry.n (successors_by self.entry.n self.entry.writers.now self.entry.marks.now) self.entry.k g) × (result < 32) }
    {
        if self.encoding == 2 { self.tail(g) } else { g }
    }

    // The word of the run that g stands for: the readers of its last write; in encoding 2, where none of them writes the key, the sources of every
    // side from the run.
    #[tactic(auto, using(graph::proofs::Rows::one_shl), unfolding(crate::specs::Runs::word_by, crate::specs::Runs::sources_by))]
    fn word(self, g: u32) -> u32
        requires { g < 32 }
        ensures { result ≡ word_by self.entry.encoding self.entry.n self.entry.writers.now self.entry.marks.now self.entry.k g }
    {
        let p = self.last(g);
        let readers = self.marks[self.k * 32 + p as usize];
        if self.encoding == 2 && readers == 0 {
            1 << p
        } else {
            readers
        }
    }

    // The words of the runs of the key.
    fn words(self, firsts: u32, out: &mut [u32; WORDS])
        ensures { out.new ≡ words_by self.entry.encoding self.entry.n self.entry.writers.now self.entry.marks.now self.entry.k out.old (members firsts) }
    {
        let mut m = firsts;
        while m != 0 {
            let g = m.trailing_zeros();
            out[self.k * 32 + g as usize] = self.word(g);
            m = clear_low(m);
        }
    }

    // The candidates of the key: each two of its runs, after `from` others.
    fn pairs(self, firsts: u32, from: u16, chosen: &mut [u16; PLACES]) -> u16
        requires { from + length (pairs_in self.k (members firsts)) ≤ 4096 }
        ensures { Chose (pairs_in self.entry.k (members firsts)) from chosen.old result chosen.new }
    {
        let mut n = from;
        let mut m = firsts;
        while m != 0 {
            let i = m.trailing_zeros() as usize;
            m = clear_low(m);
            n = crate::choose(m, self.k * 32 + i, n, chosen);
        }
        n
    }

    // The words and the candidates of the key, after `from` candidates. One run alone has neither.
    fn list(self, from: u16, out: &mut [u32; WORDS], chosen: &mut [u16; PLACES]) -> u16
        requires { from + length (key_numbers self.encoding self.writers.now self.marks.now self.k) ≤ 4096 }
        ensures { (out.new ≡ key_words self.entry.encoding self.entry.n self.entry.writers.now self.entry.marks.now out.old self.entry.k)
            × Chose (key_numbers self.entry.encoding self.entry.writers.now self.entry.marks.now self.entry.k) from chosen.old result chosen.new }
    {
        if few(self.writers[self.k]) {
            return from;
        }
        let firsts = self.first();
        if few(firsts) {
            return from;
        }
        self.words(firsts, out);
        self.pairs(firsts, from, chosen)
    }
}

// Whether a set has fewer than two members.
fn few(set: u32) -> bool
    ensures { result ≡ is_few set }
{
    set == 0 || clear_low(set) == 0
}

// The tables of runs, and their candidates; how many. The encoding is a number here: `run_words` puts it into the tables, and speaks of every number.
pub fn table(
    encoding: u8,
    n: u32,
    writers: &[u32; 32],
    marks: &[u32; MARKS],
    out: &mut [u32; WORDS],
    chosen: &mut [u16; PLACES],
) -> u16
    requires { (n ≤ 32) × (length (run_numbers encoding writers.now marks.now) ≤ 4096) }
    ensures { (out.new ≡ run_words encoding n writers.now marks.now out.old)
        × Chose (run_numbers encoding writers.now marks.now) 0 chosen.old result chosen.new }
{
    let mut count: u16 = 0;
    for k in 0..32 {
        let runs = Runs {
            encoding,
            n,
            k,
            writers,
            marks,
        };
        count = runs.list(count, out, chosen);
    }
    out[ENCODING] = u32::from(encoding);
    count
}
