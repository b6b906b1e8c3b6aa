// What `clear` prints for a file's bytes: the refusal, or for each query what the calls return for it.
#![tactic(auto)]

ghost use Rattle.std.specs.Prelude.{◌≡◌, ◌++◌, length, take};
ghost use Rattle.format.specs.Text.{ascii, decimal};
ghost use Rattle.format.specs.Written.{line_of, commas};
ghost use Rattle.text.specs.Put.{with_text};
ghost use Rattle.results.specs.Laws.Worked.{Answered, Worked, worked_text};
ghost use Rattle.results.specs.Printed.{written, answer_text, result_text, clear_texts};

use engine::{Choice, Firing, MOST_SLIM};
use policy::{Policy, Query, Refusal};
use text::{Bytes, EntryText, Pen, Refused, Text, Texts};

// No query's text is longer.
pub const LONGEST_RESULT: usize = 80000;

// What the calls return for the best set of a query: the choice, how many sets are listed, and the rules fired. The sets themselves stay
// in the lent array, as List hands back their number alone.
#[derive(Clone, Copy)]
struct Best {
    choice: Choice,
    listing: Result<u32, Refusal>,
    firing: Firing,
}

// What the calls return for a query. Document 01 has each query's result hold the choice.
#[derive(Clone, Copy)]
struct QueryResult {
    want: u8,
    answer: Result<Option<Best>, Refusal>,
}

// What the calls answer for a query; its slim sets are written into the lent list, where there is a best.
fn answer(
    policy: &Policy,
    query: &Query,
    places: &mut [u16; MOST_SLIM],
) -> Result<Option<Best>, Refusal>
    ensures { Answered policy.now query.now result places.old places.new }
{
    let Some(choice) = engine::choose(*policy, *query)? else {
        return Ok(None);
    };
    Ok(Some(Best {
        choice,
        listing: engine::list(*policy, *query, places),
        firing: engine::fire(*policy, *query, choice.mask),
    }))
}

// Works a query, and writes its slim sets into the lent list.
fn work(policy: &Policy, query: &Query, places: &mut [u16; MOST_SLIM]) -> QueryResult
    ensures { Worked policy.now query.now result places.old places.new }
{
    QueryResult {
        want: query.want,
        answer: answer(policy, query, places),
    }
}

// How many sets are listed.
#[tactic(auto, unfolding(crate::specs::Printed::written))]
fn listed(listing: Result<u32, Refusal>) -> usize
    ensures { result ≡ written listing }
{
    listing.unwrap_or(0) as usize
}

// Puts the lines of a choice.
#[tactic(auto, using(text::specs::Laws::Pens::with_both))]
fn put_choice(pen: &mut Pen<'_>, choice: &Choice)
    ensures { pen.new ≡ with_text
        (line_of (ascii "best") (decimal choice.now.mask)
        ++ (line_of (ascii "keep") (decimal choice.now.keep)
        ++ (line_of (ascii "cost") (decimal choice.now.cost)
        ++ line_of (ascii "slim") (decimal choice.now.slim)))) pen.old }
{
    pen.line(b"best", &choice.mask);
    pen.line(b"keep", &choice.keep);
    pen.line(b"cost", &choice.cost);
    pen.line(b"slim", &choice.slim);
}

// Puts the line of the slim sets.
#[tactic(auto, unfolding(format::specs::Written::commas))]
fn put_list(pen: &mut Pen<'_>, listing: Result<u32, Refusal>, places: &[u16; MOST_SLIM])
    ensures { pen.new ≡ with_text
        (line_of (ascii "list") (commas (take (written listing) places.now))) pen.old }
{
    pen.list(b"list", policy::front(places, listed(listing)));
}

// Puts the line of the rules fired.
#[tactic(auto, unfolding(format::specs::Written::commas))]
fn put_fired(pen: &mut Pen<'_>, firing: &Firing)
    ensures { pen.new ≡ with_text
        (line_of (ascii "fired") (commas (take firing.now.count firing.now.rules))) pen.old }
{
    pen.list(b"fired", firing.listed());
}

// Puts the lines of a result after its first.
#[tactic(auto, using(text::specs::Laws::Pens::with_both), unfolding(crate::specs::Printed::answer_text))]
fn put_answer(pen: &mut Pen<'_>, res: &QueryResult, places: &[u16; MOST_SLIM])
    ensures { pen.new ≡ with_text (worked_text res.now.answer places.now) pen.old }
{
    match &res.answer {
        Err(refusal) => refusal.put(pen),
        Ok(None) => pen.line(b"best", &Bytes(b"none")),
        Ok(Some(best)) => {
            put_choice(pen, &best.choice);
            put_list(pen, best.listing, places);
            put_fired(pen, &best.firing);
        }
    }
}

// A policy, with each query's text by what the calls return for it.
#[derive(Drop)]
struct Asked<'a>(&'a Policy);

impl EntryText<Query> for Asked<'_> {
    ghost entry_text = { λ a q. result_text a.0.now q };

    fn put_entry(&self, query: &Query, pen: &mut Pen<'_>) {
        let mut places = [0u16; MOST_SLIM];
        let result = work(self.0, query, &mut places);
        pen.line(b"want", &result.want);
        put_answer(pen, &result, &places);
    }
}

// What `clear` prints for a file: its refusal, or one text for each query.
#[derive(Drop)]
pub struct Cleared<'a>(pub &'a [u8]);

impl Texts<LONGEST_RESULT> for Cleared<'_> {
    ghost use Rattle.std.proofs.Common.{lit<};
    ghost use Rattle.results.specs.Laws.Texts.{clear_fits, few_texts};

    ghost texts = { λ f. clear_texts f.0.now };

    fn text(&self, i: usize, buffer: &mut [u8]) -> Option<usize> {
        let reading = reader::read(self.0);
        if reading.refusal != 0 {
            return text::only(&Refused(reading.refusal), i, buffer);
        }
        text::one_each(&Asked(&reading.policy), reading.queries.asked(), i, buffer)
    }

    ghost small = { lit< tt };

    ghost fit = { λ f. clear_fits f.0.now };

    ghost few = { λ f. few_texts f.0.now };
}
