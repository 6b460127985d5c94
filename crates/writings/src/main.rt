// The writer of logs through its calls: document 01's example (module `example`); each number at its first and last place, with notes and buffer compared
// after it, and what stands at the limits (`numbers`); notes put together outside the calls (`outside`); random histories (`random`); and every log of the
// repository's folder samples, which standard input has one after another (`again`; samples/pack.py makes it).
#![tactic(auto)]

mod again;
mod example;
mod notes;
mod numbers;
mod outside;
mod random;

fn main() {
    example::show();
    numbers::show();
    outside::show();
    random::show();
    again::show();
}
