// The lines of spoilt queries: the queries with something changed, written with the policy.
use crate::query_lines::past;
use crate::written::{stars, write};
use policy::{Policy, Queries, Query};
use probing::{Change, text, with_last};
use records::File;

// Writes the line of a lent buffer. It takes the parts of a `File`: tried with one, which the borrow checker does not cover when it is
// made in `lines` (a reference at an intersection of lifetimes); from a function of the two parts it proves, and the calls are longer.
fn spoilt_file<'a>(name: &[u8], policy: &'a Policy, queries: &'a Queries, buffer: &mut [u8]) {
    text(b"spoilt ");
    text(name);
    text(b" write ");
    write(&File { policy, queries }, buffer);
    text(b"\n");
}

// The queries with another one for the last that is asked.
fn with_last_asked(queries: &Queries, query: Query) -> Queries {
    let mut q = *queries;
    let place = q.count.saturating_sub(1) as usize;
    if let Some(last) = q.at.get_mut(place) {
        *last = query;
    }
    q
}

// The queries with another entry past their count.
fn unused_queries(queries: &Queries) -> Queries {
    let sevens = Query { want: 7, done: 7 };
    Queries {
        at: with_last(queries.at, queries.count as usize, sevens),
        ..*queries
    }
}

// Writes the lines with a count out of range, the last query out of range, and unused entries changed.
#[inline(never)]
pub(crate) fn lines(file: &File) {
    let File { policy, queries } = *file;
    let Some(last) = queries.asked().last() else {
        return;
    };
    let count = Queries {
        count: 65,
        ..*queries
    };
    spoilt_file(b"count", policy, &count, &mut stars());
    spoilt_file(b"short", policy, &count, &mut []);
    let want = with_last_asked(
        queries,
        Query {
            want: policy.decisions,
            ..*last
        },
    );
    spoilt_file(b"want", policy, &want, &mut stars());
    if let Some(own) = Change::OwnUnless.of(policy) {
        spoilt_file(b"both", &own, &want, &mut stars());
    }
    let done = with_last_asked(
        queries,
        Query {
            done: past(policy.actions),
            ..*last
        },
    );
    spoilt_file(b"done", policy, &done, &mut stars());
    if let Some(unused) = Change::Unused.of(policy) {
        spoilt_file(b"unused", &unused, &unused_queries(queries), &mut stars());
    }
}
