// A table of marks in words, bit i of word w for the set 64 w + i: which sets have a subset in a family, and which are its
// minimal members. The table is filled from the first word on.
#![tactic(auto)]

ghost use Rattle.std.specs.Prelude.{◌≡◌, ◌^◌, ◌≤◌, ◌<◌};
ghost use Rattle.covers.specs.Covers.{word_count, moved, closed_of, less_of, low_of, covered_of, slim_of};
ghost use Rattle.policy.specs.Record.{most_actions};

use columns::{WORDS, WordNumber};

// Adds action a, one of the lowest six, to each marked set that lacks it.
fn added(marks: u64, a: usize) -> u64
    requires { a < 6 }
    ensures { result ≡ moved marks a }
{
    let lacking = marks ^ (marks & columns::LOW[a]);
    lacking << (1u32 << a)
}

// Those of the 64 sets that have a marked subset among them. The loops' numbers, here and below, are actions. Folds were tried: with
// them, and in `columns`, `clear` took up to a tenth longer.
#[tactic(auto, unfolding(crate::specs::Covers::closed_of))]
pub fn closed(marks: u64) -> u64
    ensures { result ≡ closed_of marks 6 }
{
    let mut all = marks;
    for a in 0..6 {
        all |= added(all, a);
    }
    all
}

// Those of the 64 sets that are a marked one of them and an action more.
#[tactic(auto, unfolding(crate::specs::Covers::less_of))]
fn larger(marks: u64) -> u64
    ensures { result ≡ less_of marks 6 }
{
    let mut all: u64 = 0;
    for a in 0..6 {
        all |= added(marks, a);
    }
    all
}

// Those of the sets of w that are marked without one of the actions from 6 on.
#[tactic(auto, unfolding(columns::specs::Sets::picked), using(mask::proofs::Bits::worth))]
pub fn low(table: &[u64; WORDS], w: WordNumber) -> u64
    ensures { result ≡ low_of table.now w.w }
{
    let mut word = 0;
    for b in 0..10 {
        if mask::has(w.w, b) {
            word |= table[(w.w - (1 << b)) as usize];
        }
    }
    word
}

// Of the 64 sets of a word those with a subset in the family, and the minimal members.
#[derive(Clone, Copy)]
pub struct Both {
    pub covered: u64,
    pub slim: u64,
}

// Works both from the members among the sets of a word, and from those of its sets that are marked without one of the actions from 6 on.
pub fn step(members: u64, low: u64) -> Both
    ensures covered_value { result.covered ≡ covered_of members low }
    ensures slim_value { result.slim ≡ slim_of members low }
{
    let covered = closed(members | low);
    let under = low | larger(covered);
    Both {
        covered,
        slim: members ^ (members & under),
    }
}

// The number of sets of so many actions.
pub fn sets_of(actions: u8) -> usize
    requires { actions ≤ most_actions }
    ensures { result ≡ 2 ^ actions }
{
    1 << actions
}

// The number of words that hold them.
pub fn words_of(actions: u8) -> usize
    requires { actions ≤ most_actions }
    ensures { result ≡ word_count actions }
{
    sets_of(actions).div_ceil(64)
}
