// The lines of policies swapped, with other entries past their counts, and spoilt so that a question is answered no.
use crate::query_lines::Pair;
use policy::{Policy, Query};
use probing::{Change, text};

// A change, with its name in a line.
type Way = (&'static [u8], Change);

// The ways to spoil a policy.
const WAYS: [Way; 4] = [
    (b"count", Change::TooManyDecisions),
    (b"falling", Change::Falling),
    (b"own", Change::OwnUnless),
    (b"itself", Change::DoesItself),
];

// The policy with the change, or as it is where it has no entry to change.
fn changed(policy: &Policy, change: Change) -> Policy {
    change.of(policy).unwrap_or(*policy)
}

// Writes the name of the way, and hands back the policy spoilt so, or as it is where there is no way.
fn spoilt(policy: &Policy, way: Option<Way>) -> Policy {
    let Some((name, change)) = way else {
        text(b"- ");
        return *policy;
    };
    text(name);
    text(b" ");
    changed(policy, change)
}

// Writes the line with the policies spoilt in these ways.
fn spoilt_pair(pair: &Pair, query: Query, first: Option<Way>, second: Option<Way>) {
    let before = spoilt(pair.before, first);
    let after = spoilt(pair.after, second);
    let pair = Pair {
        before: &before,
        after: &after,
    };
    pair.reprice(query);
}

// Writes the lines of other pairs of these policies, repriced for the query: swapped, the first twice, and with changed ones.
pub(crate) fn lines(pair: &Pair, query: Query) {
    let Pair { before, after } = *pair;
    text(b"swapped ");
    Pair {
        before: after,
        after: before,
    }
    .reprice(query);
    text(b"same ");
    Pair {
        before,
        after: before,
    }
    .reprice(query);
    text(b"past ");
    let unused = changed(after, Change::Unused);
    Pair {
        before,
        after: &unused,
    }
    .reprice(query);
    for way in WAYS {
        spoilt_pair(pair, query, Some(way), None);
        spoilt_pair(pair, query, None, Some(way));
    }
    for first in WAYS {
        for second in WAYS {
            spoilt_pair(pair, query, Some(first), Some(second));
        }
    }
}
