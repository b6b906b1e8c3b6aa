// The bounds of a file, and the entries of zeros that stand past the counts of its record. The entries are functions, and
// no constants or `Default`, since each promises the value that a definition of the format names.
#![tactic(auto)]

ghost use Rattle.std.specs.Prelude.{[], ◌≡◌};
ghost use Rattle.policy.specs.Record.{no_action};
ghost use Rattle.format.specs.Format.{decisions_of};
ghost use Rattle.format.specs.Entries.{zero_query, zero_rule};

use policy::{Action, Decisions, Kind, MOST_LISTED, Query, Rule};

// A file has at most so many bytes.
pub const MOST_BYTES: usize = 32768;

// No accepted record has a longer file.
pub const LONGEST_FILE: usize = 27294;

// A list of no decision.
#[tactic(auto, unfolding(crate::specs::Format::decisions_of, base::specs::Lists::filled))]
pub fn list_of_none() -> Decisions
    ensures { result ≡ decisions_of [] }
{
    Decisions {
        count: 0,
        at: [0; MOST_LISTED],
    }
}

// A rule of zeros.
#[tactic(auto, unfolding(crate::specs::Entries::zero_rule))]
pub fn zero_rule() -> Rule
    ensures { result ≡ zero_rule }
{
    Rule {
        head: 0,
        needs: 0,
        ifs: list_of_none(),
        unless: list_of_none(),
    }
}

// An action of zeros, kind p.
pub fn zero_action() -> Action
    ensures { result ≡ no_action }
{
    Action {
        kind: Kind::Provision,
        weight: 0,
        also: 0,
    }
}

// A query of zeros.
pub fn zero_query() -> Query
    ensures { result ≡ zero_query }
{
    Query { want: 0, done: 0 }
}
