// The file that states a policy and its queries.
#![tactic(auto)]

ghost use Rattle.format.specs.Written.{entries_text, file_of};

use policy::{Policy, Queries};
use text::{Pen, Text};

// A policy and its queries, by the file that states them.
#[derive(Clone, Copy)]
pub struct File<'a> {
    pub policy: &'a Policy,
    pub queries: &'a Queries,
}

impl Text for File<'_> {
    ghost text = { λ f. file_of f.policy.now f.queries.now.count f.queries.now.at };

    #[tactic(auto, using(text::specs::Laws::Pens::with_both), unfolding(format::specs::Written::file_of))]
    fn put(&self, pen: &mut Pen<'_>) {
        pen.line(b"decisions", &self.policy.decisions);
        pen.line(b"actions", &self.policy.actions);
        Entries(self.policy).put(pen);
        pen.line(b"queries", &self.queries.count);
        pen.each(self.queries.asked());
    }
}

// A policy, by its lines after the two counts.
#[derive(Drop)]
struct Entries<'a>(&'a Policy);

impl Text for Entries<'_> {
    ghost text = { λ e. entries_text e.0.now };

    #[tactic(auto, using(text::specs::Laws::Pens::with_both), unfolding(format::specs::Written::entries_text, format::specs::Written::level_text))]
    fn put(&self, pen: &mut Pen<'_>) {
        pen.lines(b"level", self.0.levels());
        pen.each(self.0.actions());
        pen.line(b"rules", &self.0.rules);
        pen.each(self.0.rules());
    }
}
