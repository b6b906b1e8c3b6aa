// Texts that are handed out one at a time into a lent buffer.
#![tactic(auto)]

ghost use Rattle.std.specs.Prelude.{ℕ, ◌^◌, ◌<◌, ◌≤◌, ◌≡◌, List, [], ◌∷◌, length, map};
ghost use Rattle.policy.specs.Record.{most_queries};
ghost use Rattle.text.specs.Put.{Puts, with_text};
ghost use Rattle.text.specs.Handing.{text_at, handed_out, held_after, Hands};

use crate::{Pen, Text};

// What hands out texts, none of them longer than N bytes.
pub trait Texts<const N: usize> {
    // its texts
    ghost texts: { Self → List (List ℕ) };

    // Hands out text i at the start of the buffer: how many bytes of it stand there, or `None` where no text is left. The two are
    // no struct, here and in what hands out below: the number is the caller's, and the buffer is lent anew for each text.
    fn text(&self, i: usize, buffer: &mut [u8]) -> Option<usize>
        ensures value { result ≡ handed_out (texts self.now) i (length buffer.old) }
        ensures buffer_after { buffer.new ≡ held_after (texts self.now) i buffer.old }
        ensures hands { Hands (texts self.now) i buffer.old buffer.new result };

    // a buffer may have N bytes, each text has room there, and there are at most as many texts as queries
    ghost small: { N < 2 ^ 63 };

    ghost fit: { (x : Self) (i : ℕ) → length (text_at (texts x) i) ≤ N };

    ghost few: { (x : Self) → length (texts x) ≤ most_queries };
}

// A text of at most N bytes.
pub trait BoundedText<const N: usize>: Text {
    // a buffer may have N bytes, and the text has room there
    ghost small: { N < 2 ^ 63 };

    ghost fit: { (x : Self) → length (Self.text x) ≤ N };
}

// What prints one text.
#[derive(Drop)]
pub struct One<T>(pub T);

impl<const N: usize, T: BoundedText<N>> Texts<N> for One<T> {
    ghost use Rattle.std.proofs.Common.{lit≤};
    ghost use Rattle.text.specs.Laws.Handed.{only_fits};

    ghost texts = { λ one. T.text one.0 ∷ [] };

    fn text(&self, i: usize, buffer: &mut [u8]) -> Option<usize> {
        only(&self.0, i, buffer)
    }

    ghost small = { T.small };

    ghost fit = { λ one i. only_fits N (T.text one.0) i (T.fit one.0) };

    ghost few = { λ _. lit≤ tt };
}

// What has a text for each entry of a list, as a policy has for a query.
pub trait EntryText<E> {
    // the text of an entry
    ghost entry_text: { Self → E → List ℕ };

    fn put_entry(&self, entry: &E, pen: &mut Pen<'_>)
        ensures { pen.new ≡ with_text (entry_text self.now entry.now) pen.old };
}

// Puts a text at the start of the buffer, and answers where it ends.
#[tactic(auto, unfolding(crate::specs::Put::with_text))]
pub fn start<T: Text>(text: &T, buffer: &mut [u8]) -> usize
    ensures { Puts buffer.old 0 (T.text text.now) buffer.new result }
{
    let mut pen = Pen::new(buffer);
    text.put(&mut pen);
    pen.at
}

// Hands out a text, and no other.
pub fn only<T: Text>(text: &T, i: usize, buffer: &mut [u8]) -> Option<usize>
    ensures value { result ≡ handed_out (T.text text.now ∷ []) i (length buffer.old) }
    ensures buffer_after { buffer.new ≡ held_after (T.text text.now ∷ []) i buffer.old }
    ensures hands { Hands (T.text text.now ∷ []) i buffer.old buffer.new result }
{
    if i != 0 {
        return None;
    }
    Some(start(text, buffer))
}

// Hands out a text for each entry: text i is that of entry i.
pub fn one_each<E, T: EntryText<E>>(
    of: &T,
    entries: &[E],
    i: usize,
    buffer: &mut [u8],
) -> Option<usize>
    ensures value { result ≡ handed_out (map (T.entry_text of.now) entries.now) i (length buffer.old) }
    ensures buffer_after { buffer.new ≡
        held_after (map (T.entry_text of.now) entries.now) i buffer.old }
    ensures hands { Hands (map (T.entry_text of.now) entries.now) i
        buffer.old buffer.new result }
{
    let entry = entries.get(i)?;
    let mut pen = Pen::new(buffer);
    of.put_entry(entry, &mut pen);
    Some(pen.at)
}

// Writes text i, and answers whether all of it was taken.
fn write<const N: usize, T: Texts<N>>(text: &[u8], texts: &T, i: usize) -> bool
    requires { text.now ≡ text_at (T.texts texts.now) i }
{
    io::write_all(1, text)
}

// Writes the texts in turn until none is left, or one was not taken; i is the number of the text. `print` promises nothing, since nothing
// is promised of `write_all`: that it writes texts, whole, is what `write` requires.
pub fn print<const N: usize, T: Texts<N>>(texts: &T) -> bool {
    let mut buffer = [0u8; N];
    for i in 0.. {
        let Some(end) = texts.text(i, &mut buffer) else {
            break;
        };
        if !write(&buffer[..end], texts, i) {
            return false;
        }
    }
    true
}
