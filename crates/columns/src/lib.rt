// The 64 sets of a word, bit i for the set 64 w + i: which of them have an action, which are offered, and which enable a rule.
#![tactic(auto)]

ghost use Rattle.std.specs.Prelude.{◌≡◌, ◌<◌};
ghost use Rattle.mask.specs.Mask.{has};
ghost use Rattle.columns.specs.Sets.{column_of, is_shut, offered_of, holding_of};

use policy::MOST_ACTIONS;

mod reach;
mod word;

pub use reach::{Reach, needed};
pub use word::WordNumber;

// The number of words that have every set of 16 actions.
pub const WORDS: usize = 1024;

// For each of the lowest six actions, the places whose number has it.
pub const LOW: [u64; 6] = [
    0xAAAAAAAAAAAAAAAA,
    0xCCCCCCCCCCCCCCCC,
    0xF0F0F0F0F0F0F0F0,
    0xFF00FF00FF00FF00,
    0xFFFF0000FFFF0000,
    0xFFFFFFFF00000000,
];

// Whether the i-th set is in the word. It is `mask::has` for words: one function for both would take `impl Into<u64>`, and its contract
// would speak of what `into` gives.
pub fn has(word: u64, i: u16) -> bool
    requires { i < 64 }
    ensures { result ≡ has word i }
{
    (word >> (i as usize)) & 1 == 1
}

// The sets that have action a.
fn column(a: usize, w: u16) -> u64
    ensures { result ≡ column_of w a }
{
    if a < 6 {
        return LOW[a];
    }
    if mask::has(w, a - 6) { u64::MAX } else { 0 }
}

// Whether no offered set has action a.
fn shut(a: usize, actions: u8, done: u16) -> bool
    ensures { result ≡ is_shut actions done a }
{
    a >= actions as usize || mask::has(done, a)
}

// The sets that are offered: they share nothing with done, and are masks of the actions. The loops' numbers, here and below, are actions.
// A filter and a fold were tried: with them, and in `covers`, `clear` took up to a tenth longer.
pub fn offered(actions: u8, done: u16, w: WordNumber) -> u64
    ensures { result ≡ offered_of actions done w.w }
{
    let mut sets = u64::MAX;
    for a in 0..MOST_ACTIONS {
        if shut(a, actions, done) {
            sets ^= sets & column(a, w.w);
        }
    }
    sets
}

// The sets that contain the set. The number w is any, here and in `Reach`: no promise needs a bound of it, as that of `offered` does.
pub fn holding(set: u16, w: u16) -> u64
    ensures { result ≡ holding_of set w }
{
    let mut sets = u64::MAX;
    for a in 0..MOST_ACTIONS {
        if mask::has(set, a) {
            sets &= column(a, w);
        }
    }
    sets
}
