// At which places decisions are asked for.
ghost use Rattle.std.specs.Prelude.{ℕ, ◌≤◌, ◌<◌, get_or};
ghost use mathlib.Core.List.{Memᴰ};
ghost use Rattle.policy.specs.Record.{most_decisions, listed};
ghost use Rattle.policy.specs.Laws.{ListFits};
ghost use Rattle.order.specs.Order.{Used, Below};

use super::Ranged;
use policy::{Decisions, MOST_DECISIONS, MOST_RULES};

// Notes that each decision of the list is asked for at place j. That its entries are decisions is required: a type for a list that
// fits would be a second one beside document 01's.
fn note(list: &Decisions, j: u16, uses: &mut [u16; MOST_DECISIONS])
    requires list_fits { ListFits most_decisions list.now }
    ensures by_index { (d : ℕ) → Memᴰ d (listed list.now) → get_or uses.new d 0 ≤ j }
    ensures below { Below uses.new uses.old }
{
    for d in list.listed() {
        let first = &mut uses[*d as usize];
        *first = (*first).min(j);
    }
}

impl Ranged<'_> {
    // The first place at which each decision is asked for as an if. Where no rule asks for it, 256: it lies past every place, so `min`
    // and `<=` need no case for none.
    pub(crate) fn noted(&self, order: &[u8; MOST_RULES]) -> [u16; MOST_DECISIONS]
        requires { (j : ℕ) → j < self.now.policy.now.rules → get_or order.now j 0 < self.now.policy.now.rules }
        ensures { Used self.now.policy.now order.now result }
    {
        let mut uses = [MOST_RULES as u16; MOST_DECISIONS];
        let rules = policy::front(order, self.policy.rules as usize);
        for (j, k) in rules.iter().enumerate() {
            note(&self.policy.rule[*k as usize].ifs, j as u16, &mut uses);
        }
        uses
    }
}
