// Lists of texts, put with a pen.
#![tactic(auto)]

ghost use Rattle.std.specs.Prelude.{◌≡◌, map};
ghost use Rattle.format.specs.Written.{each, joined, line_of};
ghost use Rattle.text.specs.Put.{with_text};

use crate::{Pen, Text};

impl Pen<'_> {
    // Puts a line for each text, with one key.
    pub fn lines<T: Text>(&mut self, key: &[u8], texts: &[T])
        ensures { self.new ≡
            with_text (each (λ x. line_of key.now (T.text x)) texts.now) self.old }
    {
        for text in texts {
            self.line(key, text);
        }
    }

    // Puts texts one after the other.
    #[tactic(auto, using(crate::specs::Laws::Pens::with_none, crate::specs::Laws::Entries::one_text), unfolding(format::specs::Written::each))]
    pub fn each<T: Text>(&mut self, texts: &[T])
        ensures { self.new ≡ with_text (each T.text texts.now) self.old }
    {
        for text in texts {
            text.put(self);
        }
    }

    // Puts the line of a list: texts with one comma between.
    pub fn list<T: Text>(&mut self, key: &[u8], texts: &[T])
        ensures { self.new ≡
            with_text (line_of key.now (joined (map T.text texts.now))) self.old }
    {
        self.line(key, &Commas(texts));
    }
}

// Texts with one comma between.
#[derive(Drop)]
struct Commas<'a, T>(&'a [T]);

impl<T: Text> Text for Commas<'_, T> {
    ghost text = { λ c. joined (map T.text c.0.now) };

    #[tactic(auto, using(crate::specs::Laws::Entries::no_entry, crate::specs::Laws::Entries::first_entry, crate::specs::Laws::Entries::next_entry))]
    fn put(&self, pen: &mut Pen<'_>) {
        for (i, entry) in self.0.iter().enumerate() {
            if i != 0 {
                pen.put(b",");
            }
            entry.put(pen);
        }
    }
}
