// What `probe` and `pairprobe` need: changed policies, and texts with numbers after them.
// What is written to a descriptor is in no contract.
#![tactic(auto)]

use policy::Query;

mod change;
mod unused;

pub use change::Change;
pub use unused::with_last;

// Writes a text to standard output.
pub fn text(bytes: &[u8]) {
    io::write_all(1, bytes);
}

// Writes a text and a number after it. Not by `text::Text`, as `Commas` there and `Cost` of `pairs`: a pen needs a lent buffer that
// is long enough, and nothing bounds these lines.
pub fn keyed<N: Into<u64>>(key: &[u8], n: N) {
    text(key);
    io::print_decimal(1, n.into());
}

// Writes a refusal, or its number.
pub fn refused<N: Into<u8>>(refusal: N) {
    keyed(b"refused=", refusal.into());
}

// Writes the line that names a query.
pub fn named(query: Query) {
    keyed(b"query want=", query.want);
    keyed(b" done=", query.done);
    text(b"\n");
}
