// The lines of one query.
use crate::calls::{Asked, places};
use engine::MOST_SLIM;
use policy::Query;
use probing::{keyed, named, text};

// The first mask that is no set of so many actions, or with 16 the last mask.
pub(crate) fn past(actions: u8) -> u16 {
    1u16.checked_shl(actions as u32).unwrap_or(u16::MAX)
}

// Writes a line: a text, a number, and what is written after them.
pub(crate) fn line<N: Into<u64>, F: FnOnce()>(key: &[u8], n: N, write: F)
    requires { F.IsAlwaysCallable write }
{
    keyed(key, n);
    text(b" ");
    write();
    text(b"\n");
}

// Writes the lines of an offered set.
fn offer(asked: &Asked, offered: u16) {
    line(b"judge ", offered, || asked.judge(offered));
    line(b"fire ", offered, || asked.fire(offered));
}

// Writes the lines of each set of the actions, and of two masks that are none.
fn offers(asked: &Asked) {
    for offered in 0..=past(asked.policy.actions) {
        offer(asked, offered);
    }
    offer(asked, 65535);
}

// Writes the line of a list with these places.
fn list(asked: &Asked, places: &mut [u16]) {
    line(b"list ", places.len() as u64, || asked.list(places));
}

// Writes the lines of the lists with at most one place more than there are slim sets.
fn lists(asked: &Asked, slim: u32) {
    for n in 0..=(slim as usize + 1).min(MOST_SLIM) {
        list(asked, &mut places()[..n]);
    }
}

// Writes the line of the word w.
fn word(asked: &Asked, w: u16) {
    line(b"words ", w, || asked.words(w));
}

// Writes the lines of each w that has sets of the policy, of the next one, and at the end of the range of w.
fn words(asked: &Asked) {
    let last = past(asked.policy.actions) / 64;
    for w in 0..=last.max(1) {
        word(asked, w);
    }
    for w in [1023, 1024, 65535] {
        word(asked, w);
    }
}

// Writes the line of the best set, and hands back the number of slim sets, where a set is chosen. With none, the lists are as with
// 0 slim sets (PROBE.md).
fn choose(asked: &Asked) -> Option<u32> {
    text(b"choose ");
    let slim = asked.choose();
    text(b"\n");
    slim
}

// Writes the lines of a query of a policy with many actions: the best set, the lists with a place for every slim set and with
// one place fewer, some words, and the digest of all.
#[inline(never)]
pub(crate) fn of_many(asked: &Asked) {
    named(asked.query);
    let slim = (choose(asked).unwrap_or(0) as usize).min(MOST_SLIM);
    for n in slim.saturating_sub(1)..=slim {
        list(asked, &mut places()[..n]);
    }
    for w in [0, 1, 1023, 1024] {
        word(asked, w);
    }
    keyed(b"digest=", asked.digest());
    text(b"\n");
}

// Writes the lines of a query.
#[inline(never)]
pub(crate) fn of(asked: &Asked) {
    let Asked { policy, query } = *asked;
    named(query);
    offers(asked);
    let slim = choose(asked);
    lists(asked, slim.unwrap_or(0));
    words(asked);
    let want = Query {
        want: policy.decisions,
        ..query
    };
    asked.with(want).calls(b"want over ", b"\n");
    let done = Query {
        done: past(policy.actions),
        ..query
    };
    asked.with(done).calls(b"done over ", b"\n");
}
