// What `levels`, `rewrite` and `longest` print: one text each, none longer than LONGEST_LEVELS or `format::LONGEST_FILE`.
#![tactic(auto)]

ghost use Rattle.std.proofs.Common.{lit<};
ghost use Rattle.printing.specs.Texts.{levels_text, rewrite_text, longest_text};
ghost use Rattle.printing.specs.Laws.Fits.{levels_fit_lem, rewrite_fits};
ghost use Rattle.printing.specs.Laws.Longest.{longest_fits};

use format::LONGEST_FILE;
use records::File;
use text::{BoundedText, Pen, Refused, Text};

// No text of `levels` is longer.
pub const LONGEST_LEVELS: usize = 2176;

// What `levels` prints for a file: the levels found for it, or the refusal.
#[derive(Drop)]
pub struct Levelled<'a>(pub &'a [u8]);

impl Text for Levelled<'_> {
    ghost text = { λ f. levels_text f.0.now };

    fn put(&self, pen: &mut Pen<'_>) {
        let draft = reader::draft(self.0);
        if draft.refusal != 0 {
            return Refused(draft.refusal).put(pen);
        }
        let found = engine::levels(draft.policy);
        if found.refusal != 0 {
            return Refused(found.refusal).put(pen);
        }
        pen.lines(
            b"level",
            policy::front(&found.level, draft.policy.decisions as usize),
        );
    }
}

impl BoundedText<LONGEST_LEVELS> for Levelled<'_> {
    ghost small = { lit< tt };

    ghost fit = { λ f. levels_fit_lem f.0.now 0 };
}

// What `rewrite` prints for a file: what the writer makes of its record, or the refusal. The reader asks questions 1 to 4, and the writer
// 5 and 6.
#[derive(Drop)]
pub struct Rewritten<'a>(pub &'a [u8]);

impl Text for Rewritten<'_> {
    ghost text = { λ f. rewrite_text f.0.now };

    fn put(&self, pen: &mut Pen<'_>) {
        let read = reader::draft(self.0);
        if read.refusal != 0 {
            return Refused(read.refusal).put(pen);
        }
        let mut whole = [0u8; LONGEST_FILE];
        match writer::write(read.policy, read.queries, &mut whole) {
            Err(refusal) => refusal.put(pen),
            Ok(n) => pen.put(&whole[..n]),
        }
    }
}

impl BoundedText<LONGEST_FILE> for Rewritten<'_> {
    ghost small = { lit< tt };

    ghost fit = { λ f. rewrite_fits f.0.now 0 };
}

// What `longest` prints: the file whose query has the most slim sets.
#[derive(Drop)]
pub struct Longest;

impl Text for Longest {
    ghost text = { λ _. longest_text };

    #[tactic(auto, unfolding(crate::specs::Texts::longest_text))]
    fn put(&self, pen: &mut Pen<'_>) {
        let policy = threshold::policy();
        let queries = threshold::queries();
        let file = File {
            policy: &policy,
            queries: &queries,
        };
        file.put(pen);
    }
}

impl BoundedText<LONGEST_FILE> for Longest {
    ghost small = { lit< tt };

    ghost fit = { λ _. longest_fits 0 };
}
