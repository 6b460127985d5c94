// Bills, card 8: what each cabinet pays for the gates that it moved. First bills worked out by hand from the card's rates: each gate in each direction (module
// `gates`), and where a bill could go wrong (`edges`). Then the refusals (`refused`), and random windows against a second, naive bill (`random`).
#![tactic(auto)]

mod bills;
mod edges;
mod gates;
mod random;
mod refused;
mod windows;
mod writes;

fn main() {
    gates::show_all();
    edges::show_all();
    refused::show_all();
    random::show_all();
}
