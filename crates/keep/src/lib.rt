// What not to touch beside a set that is enough: the keep-off mask with the fewest actions. For the engine alone: it has asked the
// questions that these functions require.
#![tactic(auto)]

ghost use Rattle.std.specs.Prelude.{◌≡◌};
ghost use Rattle.mask.specs.Laws.Minimal.{covered};
ghost use Rattle.model.specs.Clears.{clears};
ghost use Rattle.covers.specs.Covers.{word_count, Members, Table};
ghost use Rattle.keep.specs.Keep.{spoilt, keep_of};
ghost use Rattle.keep.specs.Search.{some_unless};

use columns::{WORDS, WordNumber};
use policy::Policy;
use words::Words;

mod search;

use search::Search;

// Whether some rule has an unless entry: where none has, more actions do no harm.
#[tactic(auto, unfolding(crate::specs::Search::some_unless))]
pub fn some_unless(policy: &Policy) -> bool
    ensures { result ≡ some_unless policy.now }
{
    policy.rules().iter().any(|rule| rule.unless.count != 0)
}

// Those of the sets of w that contain the set, are offered and are not enough; such as are in `low` are left out.
fn spoilt(words: &Words, set: u16, w: WordNumber, low: u64) -> u64
    ensures { let plan = words.now.plan in
        Members (spoilt (clears plan.policy plan.query) plan.policy.actions set plan.query.done) w.w low result }
{
    let larger = columns::offered(words.plan.policy.actions, words.plan.query.done, w)
        & columns::holding(set, w.w);
    let fresh = larger ^ (larger & low);
    if fresh == 0 {
        return 0;
    }
    fresh ^ (fresh & words.recalled(w))
}

// A table that marks the sets of which some subset contains the set, is offered and is not enough. It goes by the word's number, since
// `covers::low` reads other entries of the table that is written.
#[tactic(auto, using(covers::specs::Laws::Marks::words_few))]
fn marks(words: &Words, set: u16) -> [u64; WORDS]
    ensures { let plan = words.now.plan in
        Table (covered (spoilt (clears plan.policy plan.query) plan.policy.actions set plan.query.done))
        (word_count plan.policy.actions) result }
{
    let mut table = [0; WORDS];
    for n in 0..covers::words_of(words.plan.policy.actions) {
        let w = WordNumber { w: n as u16 };
        let low = covers::low(&table, w);
        table[n] = covers::closed(spoilt(words, set, w, low) | low);
    }
    table
}

// The best keep-off mask of the set; 0 where there is none, as `keep_of` has it: for a set that is enough there is one. The words and the set are two parameters, here and above: the words are there
// before the set is found.
pub fn keep_off(words: &Words, set: u16) -> u16
    ensures { let plan = words.now.plan in
        result ≡ keep_of (clears plan.policy plan.query) plan.policy.actions set plan.query.done }
{
    let table = marks(words, set);
    let search = Search {
        table: &table,
        actions: words.plan.policy.actions,
        set,
        done: words.plan.query.done,
    };
    search.fewest().unwrap_or(0)
}
