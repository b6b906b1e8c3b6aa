// The decisions "at least j of the first i", and their rules.
ghost use Rattle.std.specs.Prelude.{◌<◌, ◌≤◌, [], ◌∷◌, ◌≡◌};
ghost use Rattle.format.specs.Format.{decisions_of};
ghost use Rattle.threshold.specs.AtLeast.{There, decisions_to, fewer, having, number, decisions_about, without};

use format::list_of_none;
use policy::{Decisions, Rule};

// How many decisions there are about the first i actions.
pub(crate) fn decisions_about(i: u8) -> u8
    ensures { result ≡ decisions_about i }
{
    i.min(8)
}

// How many decisions there are about the first 1, 2 .. i actions. With `sum` the proof that it fits a byte did not close.
fn decisions_to(i: u8) -> u8
    requires { i ≤ 16 }
    ensures { result ≡ decisions_to i }
{
    let mut n = 0;
    for k in 0..i {
        n += decisions_about(k + 1);
    }
    n
}

// A list of one.
#[tactic(auto, unfolding(format::specs::Format::decisions_of, base::specs::Lists::filled))]
fn one(d: u8) -> Decisions
    ensures { result ≡ decisions_of (d ∷ []) }
{
    Decisions {
        count: 1,
        at: [d, 0, 0, 0, 0, 0, 0, 0],
    }
}

// At least j of the first i actions.
#[derive(Clone, Copy)]
pub(crate) struct AtLeast {
    pub(crate) i: u8,
    pub(crate) j: u8,
    ghost there: { There i j },
}

impl AtLeast {
    // Its number.
    #[tactic(auto, unfolding(crate::specs::AtLeast::number))]
    pub(crate) fn number(self) -> u8
        ensures { result ≡ number self.i self.j }
    {
        decisions_to(self.i - 1) + (self.j - 1)
    }

    // Its rule without the i-th action.
    #[tactic(auto, unfolding(crate::specs::AtLeast::without))]
    pub(crate) fn without(self) -> Rule
        requires { self.j < self.i }
        ensures { result ≡ without self.i self.j }
    {
        let before = AtLeast {
            i: self.i - 1,
            j: self.j,
        };
        Rule {
            head: self.number(),
            needs: 0,
            ifs: one(before.number()),
            unless: list_of_none(),
        }
    }

    // What its rule with the i-th action asks of the actions before it: one fewer, and nothing where j is 1.
    #[tactic(auto, unfolding(crate::specs::AtLeast::fewer))]
    fn fewer(self) -> Decisions
        ensures { result ≡ decisions_of (fewer self.i self.j) }
    {
        if self.j == 1 {
            return list_of_none();
        }
        let before = AtLeast {
            i: self.i - 1,
            j: self.j - 1,
        };
        one(before.number())
    }

    // Its rule with the i-th action.
    #[tactic(auto, unfolding(crate::specs::AtLeast::having))]
    pub(crate) fn having(self) -> Rule
        ensures { result ≡ having self.i self.j }
    {
        Rule {
            head: self.number(),
            needs: 1u16 << (self.i - 1),
            ifs: self.fewer(),
            unless: list_of_none(),
        }
    }
}
