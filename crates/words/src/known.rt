// The words that are worked already, so that none is worked twice.
ghost use Rattle.std.specs.Prelude.{◌≡◌};
ghost use Rattle.words.specs.Models.{word_of};
ghost use Rattle.words.specs.Known.{Known};
ghost use Rattle.words.specs.Laws.Props.{Known-prop};

use super::Plan;
use columns::{WORDS, WordNumber};

// A plan, and of each word, once it is known, the sets that clear the decision wanted. They are one struct, since `right` ties the words to
// the plan. A call that changes them promises that the plan stays as it was: even a reference to it could be exchanged behind a `&mut`.
#[derive(Drop)]
pub struct Words {
    pub plan: Plan,
    pub known: [Option<u64>; WORDS],
    ghost right: { Known plan.policy plan.query known } by { Known-prop plan.policy plan.query known },
}

impl Words {
    // None is known yet.
    pub fn new(plan: Plan) -> Words
        ensures { result.plan ≡ plan }
    {
        Words {
            plan,
            known: [None; WORDS],
        }
    }

    // The sets of the word w that clear the decision wanted.
    pub fn recalled(&self, w: WordNumber) -> u64
        ensures { result ≡ word_of self.now.plan.policy self.now.plan.query w.w self.now.plan.query.want }
    {
        self.known[w.w as usize].unwrap_or_else(|| self.plan.wanted(w))
    }

    // The same sets, which are known from then on. `get_or_insert_with` was tried: the borrow checker does not cover a call that keeps a
    // `&mut` of one field while another is lent.
    pub fn wanted(&mut self, w: WordNumber) -> u64
        ensures value { result ≡ word_of self.old.plan.policy self.old.plan.query w.w self.old.plan.query.want }
        ensures same_plan { self.new.plan ≡ self.old.plan }
    {
        let word = self.recalled(w);
        self.known[w.w as usize] = Some(word);
        word
    }
}
