// The number of a word.
ghost use Rattle.std.specs.Prelude.{◌≤◌};

// The sets from 64 w to 64 w + 63 are those of a word; 1,024 words have every set of 16 actions.
#[derive(Clone, Copy)]
pub struct WordNumber {
    pub w: u16,
    ghost within: { w ≤ 1023 },
}
