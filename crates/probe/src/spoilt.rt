// The lines of spoilt policies: the policy with one thing changed, a query put to it, and the policy written with the queries.
use crate::calls::{self, Asked};
use crate::written::{stars, write};
use policy::Query;
use probing::{Change, text};
use records::File;

// The changes, with the names of their lines.
const CHANGES: [(&[u8], Change); 12] = [
    (b"decisions", Change::TooManyDecisions),
    (b"actions", Change::TooManyActions),
    (b"rules", Change::TooManyRules),
    (b"level", Change::LevelTooHigh),
    (b"past", Change::LastLevel),
    (b"weight", Change::Weightless),
    (b"also", Change::DoesAll),
    (b"itself", Change::DoesItself),
    (b"head", Change::Head),
    (b"list", Change::NineIfs),
    (b"falling", Change::Falling),
    (b"own", Change::OwnUnless),
];

// Writes what the calls return where another question is answered no too: of w, which comes before 4 to 6, of a set that shares
// with done, and of a list with no place, which come after them.
fn late(asked: &Asked) {
    text(b" late ");
    asked.words(1024);
    let shared = asked.with(Query {
        done: 1,
        ..asked.query
    });
    text(b" shared judge ");
    shared.judge(1);
    text(b" fire ");
    shared.fire(1);
    text(b" short ");
    asked.list(&mut []);
}

// Writes the line of a spoilt policy.
fn spoilt_policy(name: &[u8], file: &File, query: Query) {
    let asked = Asked {
        policy: file.policy,
        query,
    };
    text(b"spoilt ");
    text(name);
    text(b" ");
    calls::check(file.policy);
    asked.calls(b" ", b"");
    late(&asked);
    text(b" levels ");
    calls::levels(file.policy);
    text(b" write ");
    write(file, &mut stars());
    text(b"\n");
}

// Writes the lines of each spoilt policy, where there is a query to put to it.
#[inline(never)]
pub(crate) fn lines(file: &File) {
    let Some(first) = file.queries.asked().first() else {
        return;
    };
    for (name, change) in CHANGES {
        if let Some(policy) = change.of(file.policy) {
            let spoilt = File {
                policy: &policy,
                queries: file.queries,
            };
            spoilt_policy(name, &spoilt, *first);
        }
    }
}
