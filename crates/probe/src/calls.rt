// What each call of the engine returns, written as text with no line end.
ghost use Rattle.std.specs.Prelude.{◌≡◌, length};
ghost use Rattle.engine.specs.Sets.{most_slim};

use engine::MOST_SLIM;
use policy::{Policy, Query};
use probing::{keyed, refused, text};
use std::array;

// A query put to a policy.
#[derive(Clone, Copy)]
pub(crate) struct Asked<'a> {
    pub(crate) policy: &'a Policy,
    pub(crate) query: Query,
}

// Writes numbers with a comma between each two.
fn numbers<N: Copy + Into<u64>>(numbers: &[N]) {
    for (i, n) in numbers.iter().enumerate() {
        if i != 0 {
            text(b",");
        }
        keyed(b"", *n);
    }
}

// Writes the entries below the count, and how many of the others are not 0.
fn counted<N: Copy + Into<u64>>(entries: &[N], count: u8) {
    let (below, past) = entries.split_at((count as usize).min(entries.len()));
    numbers(below);
    let tail = past.iter().filter(|n| (**n).into() != 0).count();
    keyed(b" tail=", tail as u64);
}

// Writes what check returns: the number of the refusal, or 0 where there is none.
pub(crate) fn check(policy: &Policy) {
    keyed(b"check=", engine::check(*policy).err().map_or(0, u8::from));
}

// Writes what levels returns.
pub(crate) fn levels(policy: &Policy) {
    let found = engine::levels(*policy);
    keyed(b"refusal=", found.refusal);
    text(b" level=");
    numbers(&found.level);
}

// The number so far, mixed with a word.
fn mixed(n: u64, word: u64) -> u64 {
    let mut mix = n ^ word;
    mix ^= mix << 13;
    mix ^= mix >> 7;
    mix ^ mix << 17
}

// Places of which place i holds 50000 + i.
pub(crate) fn places() -> [u16; MOST_SLIM]
    ensures { most_slim ≡ length result }
{
    array::from_fn(|i| 50000 + i as u16)
}

// Writes a name and what is written after it, between a start and an end.
fn between<F: FnOnce()>(start: &[u8], end: &[u8], name: &[u8], write: F)
    requires { F.IsAlwaysCallable write }
{
    text(start);
    text(name);
    text(b" ");
    write();
    text(end);
}

impl Asked<'_> {
    // Another query put to the policy.
    pub(crate) fn with(&self, query: Query) -> Asked<'_> {
        Asked {
            policy: self.policy,
            query,
        }
    }

    // Writes what judge returns.
    pub(crate) fn judge(&self, offered: u16) {
        match engine::judge(*self.policy, self.query, offered) {
            Err(refusal) => refused(refusal),
            Ok(judgement) => {
                keyed(b"enough=", judgement.enough);
                keyed(b" cost=", judgement.cost);
            }
        }
    }

    // Writes what fire returns.
    pub(crate) fn fire(&self, offered: u16) {
        let firing = engine::fire(*self.policy, self.query, offered);
        keyed(b"refusal=", firing.refusal);
        keyed(b" count=", firing.count);
        text(b" rules=");
        counted(&firing.rules, firing.count);
    }

    // Writes what words returns.
    pub(crate) fn words(&self, w: u16) {
        let found = engine::words(*self.policy, self.query, w);
        keyed(b"refusal=", found.refusal);
        text(b" word=");
        counted(&found.word, self.policy.decisions);
    }

    // A number made from the words of every w.
    pub(crate) fn digest(&self) -> u64 {
        (0..1024).fold(0, |n, w| {
            let words = engine::words(*self.policy, self.query, w).word;
            words.iter().fold(n, |n, word| mixed(n, *word))
        })
    }

    // Writes what choose returns, and hands back the number of slim sets, where a set is chosen.
    pub(crate) fn choose(&self) -> Option<u32> {
        match engine::choose(*self.policy, self.query) {
            Err(refusal) => {
                refused(refusal);
                None
            }
            Ok(None) => {
                text(b"none");
                None
            }
            Ok(Some(choice)) => {
                keyed(b"mask=", choice.mask);
                keyed(b" keep=", choice.keep);
                keyed(b" cost=", choice.cost);
                keyed(b" slim=", choice.slim);
                Some(choice.slim)
            }
        }
    }

    // Writes what list returns, and the places lent to it.
    pub(crate) fn list(&self, places: &mut [u16]) {
        match engine::list(*self.policy, self.query, places) {
            Err(refusal) => refused(refusal),
            Ok(n) => keyed(b"count=", n),
        }
        text(b" places=");
        numbers(places);
    }

    // Writes what each call returns, for no offered action, four places and the word 0, each between a start and an end.
    pub(crate) fn calls(&self, start: &[u8], end: &[u8]) {
        between(start, end, b"judge", || self.judge(0));
        between(start, end, b"fire", || self.fire(0));
        between(start, end, b"choose", || {
            self.choose();
        });
        between(start, end, b"list", || self.list(&mut places()[..4]));
        between(start, end, b"words", || self.words(0));
    }
}
