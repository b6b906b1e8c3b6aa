// What `reprice` prints for the bytes of two files: a refusal, that they are not comparable, or for each query of the first what it
// costs by both policies.
#![tactic(auto)]

ghost use Rattle.std.specs.Prelude.{◌≡◌};
ghost use Rattle.policy.specs.Questions.{refused_or};
ghost use Rattle.pairs.specs.Texts.{price_text, query_text, refusal_of, reprice_texts};

use policy::{Policy, Query};
use reader::Reading;
use text::{Bytes, EntryText, Pen, Refused, Text, Texts};

// No text is longer.
pub const LONGEST_PRICES: usize = 64;

// A cost, or none.
#[derive(Drop)]
struct Cost(Option<u32>);

impl Text for Cost {
    ghost text = { λ c. price_text c.0 };

    #[tactic(auto, unfolding(crate::specs::Texts::price_text))]
    fn put(&self, pen: &mut Pen<'_>) {
        match self.0 {
            None => pen.put(b"none"),
            Some(n) => n.put(pen),
        }
    }
}

// Two policies, with each query's text: what it wants, and its least costs by both. It is not the `Pair` of `pairprobe`, which writes
// lines as it goes: a shared struct would be a public type of a library that has no use for it.
#[derive(Drop)]
struct Both<'a> {
    before: &'a Policy,
    after: &'a Policy,
}

impl EntryText<Query> for Both<'_> {
    ghost entry_text = { λ b q. query_text b.before.now b.after.now q };

    #[tactic(auto, using(text::specs::Laws::Pens::with_both), unfolding(crate::specs::Texts::prices_text))]
    fn put_entry(&self, query: &Query, pen: &mut Pen<'_>) {
        pen.line(b"want", &query.want);
        pen.line(
            b"before",
            &Cost(repricing::least_cost(*self.before, *query)),
        );
        pen.line(b"after", &Cost(repricing::least_cost(*self.after, *query)));
    }
}

// The number of the first question answered no, if one is: the files', and those of the second's policy with the first's queries. It is
// a number, as a `Reading` has one.
fn refusal(first: &Reading, second: &Reading) -> Option<u8>
    ensures { result ≡ refused_or (refusal_of first.now second.now) Some None }
{
    if first.refusal != 0 {
        return Some(first.refusal);
    }
    if second.refusal != 0 {
        return Some(second.refusal);
    }
    engine::check_record(second.policy, first.queries)
        .err()
        .map(u8::from)
}

// What `reprice` prints for two files.
#[derive(Drop)]
pub struct Pair<'a> {
    pub before: &'a [u8],
    pub after: &'a [u8],
}

impl Texts<LONGEST_PRICES> for Pair<'_> {
    ghost use Rattle.std.proofs.Common.{lit<};
    ghost use Rattle.pairs.specs.Laws.Fits.{reprice_fits, few_texts};

    ghost texts = { λ p. reprice_texts p.before.now p.after.now };

    fn text(&self, i: usize, buffer: &mut [u8]) -> Option<usize> {
        let first = reader::read(self.before);
        let second = reader::read(self.after);
        if let Some(number) = refusal(&first, &second) {
            return text::only(&Refused(number), i, buffer);
        }
        if !alike::comparable(first.policy, second.policy) {
            return text::only(&Bytes(b"not comparable\n"), i, buffer);
        }
        let both = Both {
            before: &first.policy,
            after: &second.policy,
        };
        text::one_each(&both, first.queries.asked(), i, buffer)
    }

    ghost small = { lit< tt };

    ghost fit = { λ p. reprice_fits p.before.now p.after.now };

    ghost few = { λ p. few_texts p.before.now p.after.now };
}
