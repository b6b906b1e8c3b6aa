// Text put into a lent buffer with a pen. Its modules put the lines of a record's entries and lists of texts, and hand texts out one at a
// time.
#![tactic(auto)]

ghost use Rattle.std.specs.Prelude.{ℕ, ◌≡◌, List};
ghost use Rattle.policy.specs.Refusal.{number_of};
ghost use Rattle.format.specs.Text.{decimal};
ghost use Rattle.format.specs.Written.{line_of};
ghost use Rattle.text.specs.Put.{with_text, refused_text};

use policy::Refusal;

mod entries;
mod lists;
mod texts;

pub use texts::{BoundedText, EntryText, One, Texts, one_each, only, print, start};

// A lent buffer, and where the text in it ends. Bytes that do not fit are dropped.
#[derive(Drop)]
pub struct Pen<'a> {
    pub buffer: &'a mut [u8],
    pub at: usize,
}

// What can be put with a pen. It is not `Display`, which for the record's types would have to stand in `policy`, below the definitions
// of their texts; and a pen cuts what does not fit, where a formatter stops with an error.
pub trait Text {
    // its text
    ghost text: { Self → List ℕ };

    fn put(&self, pen: &mut Pen<'_>)
        ensures { pen.new ≡ with_text (text self.now) pen.old };
}

// A number, by its digits: an impl for each width, since one for all of them would overlap those for `Bytes`, `Refused` and `Refusal`.
impl Text for u32 {
    ghost text = { decimal };

    fn put(&self, pen: &mut Pen<'_>) {
        pen.number(*self);
    }
}

impl Text for u16 {
    ghost text = { decimal };

    fn put(&self, pen: &mut Pen<'_>) {
        pen.number(*self as u32);
    }
}

impl Text for u8 {
    ghost text = { decimal };

    fn put(&self, pen: &mut Pen<'_>) {
        pen.number(*self as u32);
    }
}

// Bytes, as they are.
#[derive(Clone, Copy)]
pub struct Bytes<'a>(pub &'a [u8]);

impl Text for Bytes<'_> {
    ghost text = { λ b. b.0.now };

    fn put(&self, pen: &mut Pen<'_>) {
        pen.put(self.0);
    }
}

// A refusal, by the line of its number, which is what a reading and a levelling hand back.
#[derive(Clone, Copy)]
pub struct Refused(pub u8);

impl Text for Refused {
    ghost text = { λ r. refused_text r.0 };

    #[tactic(auto, unfolding(crate::specs::Put::refused_text))]
    fn put(&self, pen: &mut Pen<'_>) {
        pen.line(b"refused", &self.0);
    }
}

impl Text for Refusal {
    ghost text = { λ r. refused_text (number_of r) };

    fn put(&self, pen: &mut Pen<'_>) {
        Refused(u8::from(*self)).put(pen);
    }
}

impl<'a> Pen<'a> {
    // A pen at the start of the buffer.
    fn new(buffer: &'a mut [u8]) -> Pen<'a>
        ensures same_reference { result.buffer.ghost_name ≡ buffer.entry.ghost_name }
        ensures same { result.buffer.now ≡ buffer.old }
        ensures at { result.at ≡ 0 }
    {
        Pen { buffer, at: 0 }
    }

    // Puts a text.
    #[tactic(auto, using(crate::proofs::Copied::put_copied))]
    pub fn put(&mut self, text: &[u8])
        ensures { self.new ≡ with_text text.now self.old }
    {
        if self.at < self.buffer.len() {
            let n = text.len().min(self.buffer.len() - self.at);
            let end = self.at + n;
            self.buffer[self.at..end].copy_from_slice(&text[..n]);
            self.at = end;
        }
    }

    // Puts a line: a key, the = sign and a text.
    #[tactic(auto, using(crate::specs::Laws::Pens::with_line))]
    pub fn line<T: Text>(&mut self, key: &[u8], text: &T)
        ensures { self.new ≡ with_text (line_of key.now (T.text text.now)) self.old }
    {
        self.put(key);
        self.put(b"=");
        text.put(self);
        self.put(b"\n");
    }

    // Puts the digits of a number.
    fn number(&mut self, n: u32)
        ensures { self.new ≡ with_text (decimal n) self.old }
    {
        let mut text = [0u8; 20];
        let k = io::decimal(n as u64, &mut text);
        self.put(&text[..k]);
    }
}
