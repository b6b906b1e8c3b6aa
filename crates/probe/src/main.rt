// The program `probe`: reads a file from standard input, and writes what the engine's
// calls and the writer return for its policy and queries.
#![tactic(auto)]

use calls::Asked;
use format::MOST_BYTES;
use probing::{refused, text};
use records::File;

mod calls;
mod query_lines;
mod spoilt;
mod spoilt_queries;
mod written;

// Writes the lines of a file. What writes many lines has a frame of its own (`inline(never)`): the buffers of all would else lie on the
// stack at once.
fn answer(file: &File) {
    let File { policy, queries } = *file;
    calls::check(policy);
    text(b"\nlevels ");
    calls::levels(policy);
    text(b"\n");
    written::lines(file);
    for &query in queries.asked() {
        query_lines::of(&Asked { policy, query });
    }
    spoilt::lines(file);
    spoilt_queries::lines(file);
}

// Writes the lines of a file with more than 8 actions: those of each query, and few of these.
fn answer_many(file: &File) {
    let File { policy, queries } = *file;
    for &query in queries.asked() {
        query_lines::of_many(&Asked { policy, query });
    }
}

fn main() {
    let mut input = [0u8; MOST_BYTES + 1];
    let n = io::read_full(0, &mut input);
    let reading = reader::read(&input[..n]);
    if reading.refusal != 0 {
        refused(reading.refusal);
        text(b"\n");
        return;
    }
    let file = File {
        policy: &reading.policy,
        queries: &reading.queries,
    };
    if reading.policy.actions > 8 {
        answer_many(&file);
    } else {
        answer(&file);
    }
}
