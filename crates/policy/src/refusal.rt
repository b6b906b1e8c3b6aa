// What a call answers where a question is answered no.
ghost use Rattle.std.specs.Prelude.{◌≡◌};
ghost use Rattle.policy.specs.Refusal.{number_of};

// The first question that is answered no, by documents 01's and 02's numbers.
#[derive(Clone, Copy, PartialEq, Eq)]
pub enum Refusal {
    // the input is longer than a file may be
    TooLong = 1,
    // a line is not as the format has it, or something follows the last
    Malformed = 2,
    // a number, a mask, a decision or a list is out of range
    OutOfRange = 3,
    // a list does not rise strictly
    NotRising = 4,
    // a level does not fit a rule
    LevelsUnfit = 5,
    // an action weighs no more than one in its also mask
    WeightsUnfit = 6,
    // the offered set shares an action with done
    SharesWithDone = 7,
    // the lent list has no place for every slim set
    ListTooShort = 8,
    // no levels from 0 to 15 fit the rules
    NoLevels = 9,
    // the lent buffer is shorter than the file
    BufferTooShort = 10,
}

impl From<Refusal> for u8 {
    ghost from_gives = { λ r n. n ≡ number_of r };

    fn from(refusal: Refusal) -> u8 {
        refusal as u8
    }
}
