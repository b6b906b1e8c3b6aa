// The program `pairprobe`: reads two files, the first from standard input and the second from descriptor 3, and writes what the calls
// that reprice return for their policies and the first's queries.
#![tactic(auto)]

use format::MOST_BYTES;
use policy::Queries;
use probing::{keyed, refused, text};
use query_lines::Pair;

mod query_lines;
mod spoilt;

// Writes the lines of two policies and the queries of the first.
fn answer(pair: &Pair, queries: &Queries) {
    keyed(b"comparable=", alike::comparable(*pair.before, *pair.after));
    text(b"\n");
    let asked = queries.asked();
    for &query in asked {
        query_lines::of(pair, query);
    }
    if let Some(first) = asked.first() {
        spoilt::lines(pair, *first);
    }
}

fn main() {
    let mut first = [0u8; MOST_BYTES + 1];
    let mut second = [0u8; MOST_BYTES + 1];
    let m = io::read_full(0, &mut first);
    let n = io::read_full(3, &mut second);
    let before = reader::draft(&first[..m]);
    let after = reader::draft(&second[..n]);
    if before.refusal != 0 {
        refused(before.refusal);
        text(b"\n");
    } else if after.refusal != 0 {
        refused(after.refusal);
        text(b"\n");
    } else {
        let pair = Pair {
            before: &before.policy,
            after: &after.policy,
        };
        answer(&pair, &before.queries);
    }
}
