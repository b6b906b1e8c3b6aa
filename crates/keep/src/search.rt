// The search for a set's keep-off mask with the fewest actions.
ghost use Rattle.std.specs.Prelude.{◌≡◌, ◌^◌, ◌≤◌};
ghost use Rattle.std.specs.Int.Count.{ones};
ghost use Rattle.mask.specs.Family.{lightest};
ghost use Rattle.policy.specs.Record.{most_actions};
ghost use Rattle.covers.specs.Covers.{marked_in};
ghost use Rattle.keep.specs.Search.{Stands, no_fewer, rest_of, unmarked};

use columns::WORDS;

// Whether the set is marked.
#[tactic(auto, unfolding(covers::specs::Covers::marked_in))]
fn marked(table: &[u64; WORDS], set: u16) -> bool
    ensures { result ≡ marked_in table.now set }
{
    columns::has(table[(set / 64) as usize], set % 64)
}

// Whether k has as many actions as the best mask so far, or more.
fn no_fewer(best: Option<u16>, k: u16) -> bool
    ensures { result ≡ no_fewer best k }
{
    best.is_some_and(|b| b.count_ones() <= k.count_ones())
}

// What the keep-off masks of a set are looked for in: the marks, the number of actions, the set, and what is done.
#[derive(Clone, Copy)]
pub(crate) struct Search<'a> {
    pub table: &'a [u64; WORDS],
    pub actions: u8,
    pub set: u16,
    pub done: u16,
    ghost within: { actions ≤ most_actions },
}

impl<'a> Search<'a> {
    // The largest set that shares nothing with k or done.
    #[tactic(auto, unfolding(crate::specs::Search::rest_of))]
    fn rest(&self, k: u16) -> u16
        ensures { result ≡ rest_of self.now.actions self.now.done k }
    {
        let all = (covers::sets_of(self.actions) - 1) as u16;
        all ^ (all & mask::join(k, self.done))
    }

    // Whether k shares nothing with the set or done, and the largest set that shares nothing with k or done is not marked.
    #[tactic(auto, unfolding(crate::specs::Search::unmarked))]
    fn unmarked(&self, k: u16) -> bool
        ensures { result ≡ unmarked self.now.table.now self.now.actions self.now.set self.now.done k }
    {
        mask::disjoint(k, mask::join(self.set, self.done)) && !marked(self.table, self.rest(k))
    }

    // Of the masks that `unmarked` takes the one with the fewest actions, and of those the one with the lowest number. A mask with no
    // fewer actions than the best so far is passed over with all that follow it up to its lowest action's worth, since they contain it;
    // no range has such steps.
    pub fn fewest(&self) -> Option<u16>
        ensures { let takes = unmarked self.now.table.now self.now.actions self.now.set self.now.done in
            Stands result (lightest takes ones (2 ^ self.now.actions)) }
    {
        let sets = covers::sets_of(self.actions);
        let mut best = None;
        let mut s = 0;
        while s < sets {
            let k = s as u16;
            if no_fewer(best, k) {
                s += 1 << k.trailing_zeros();
            } else {
                if self.unmarked(k) {
                    best = Some(k);
                }
                s += 1;
            }
        }
        best
    }
}
