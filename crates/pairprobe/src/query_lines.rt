// The lines of a query.
use policy::{Policy, Query};
use probing::{keyed, named, refused, text};

// Two policies, before a change and after it. A query that is put to both is a parameter of its own, as there are many.
#[derive(Clone, Copy)]
pub(crate) struct Pair<'a> {
    pub(crate) before: &'a Policy,
    pub(crate) after: &'a Policy,
}

// Writes a text and a cost or none after it.
fn price(key: &[u8], price: Option<u32>) {
    match price {
        None => {
            text(key);
            text(b"none");
        }
        Some(n) => keyed(key, n),
    }
}

impl Pair<'_> {
    // Writes what `reprice` returns, and ends the line.
    pub(crate) fn reprice(&self, query: Query) {
        match repricing::reprice(*self.before, *self.after, query) {
            Err(refusal) => refused(refusal),
            Ok(None) => text(b"not comparable"),
            Ok(Some(prices)) => {
                price(b"before=", prices.before);
                price(b" after=", prices.after);
            }
        }
        text(b"\n");
    }
}

// Writes the lines of a query.
pub(crate) fn of(pair: &Pair, query: Query) {
    named(query);
    text(b"reprice ");
    pair.reprice(query);
    price(b"price before=", repricing::least_cost(*pair.before, query));
    price(b" after=", repricing::least_cost(*pair.after, query));
    text(b"\n");
}
