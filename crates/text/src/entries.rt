// The lines of a record's entries.
#![tactic(auto)]

ghost use Rattle.format.specs.Written.{letter_of, action_text, rule_text, query_text};

use crate::{Pen, Text};
use policy::{Action, Kind, Query, Rule};

// A kind, by its letter.
impl Text for Kind {
    ghost text = { letter_of };

    #[tactic(auto, unfolding(format::specs::Written::letter_of))]
    fn put(&self, pen: &mut Pen<'_>) {
        match self {
            Kind::Provision => pen.put(b"p"),
            Kind::Obligation => pen.put(b"o"),
        }
    }
}

impl Text for Action {
    ghost text = { action_text };

    #[tactic(auto, using(crate::specs::Laws::Pens::with_both), unfolding(format::specs::Written::action_text))]
    fn put(&self, pen: &mut Pen<'_>) {
        pen.line(b"kind", &self.kind);
        pen.line(b"weight", &self.weight);
        pen.line(b"also", &self.also);
    }
}

impl Text for Rule {
    ghost text = { rule_text };

    #[tactic(auto, using(crate::specs::Laws::Pens::with_both), unfolding(format::specs::Written::rule_text, format::specs::Written::commas))]
    fn put(&self, pen: &mut Pen<'_>) {
        pen.line(b"head", &self.head);
        pen.line(b"needs", &self.needs);
        pen.list(b"if", self.ifs.listed());
        pen.list(b"unless", self.unless.listed());
    }
}

impl Text for Query {
    ghost text = { query_text };

    #[tactic(auto, using(crate::specs::Laws::Pens::with_both), unfolding(format::specs::Written::query_text))]
    fn put(&self, pen: &mut Pen<'_>) {
        pen.line(b"want", &self.want);
        pen.line(b"done", &self.done);
    }
}
