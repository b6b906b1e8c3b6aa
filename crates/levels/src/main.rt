// The program `levels`: reads a file from standard input whose levels may be wrong, and writes the lowest that fit its rules.
#![tactic(auto)]

ghost use Rattle.std.specs.Prelude.{◌≡◌};
ghost use Rattle.printing.specs.Texts.{levels_texts};

use format::MOST_BYTES;
use printing::{LONGEST_LEVELS, Levelled};
use text::{One, Texts};

// What is printed for a file: the texts of `levels`.
fn printed(file: &[u8]) -> One<Levelled<'_>>
    ensures { ⟦<One<Levelled<'static>> as Texts<LONGEST_LEVELS>>⟧.texts result ≡ levels_texts file.now }
{
    One(Levelled(file))
}

// One function for the programs would take the type of the texts and the message: no plainer than these lines.
fn main() {
    let mut input = [0u8; MOST_BYTES + 1];
    let n = io::read_full(0, &mut input);
    if !text::print(&printed(&input[..n])) {
        io::write_all(2, b"levels: the output could not be written\n");
    }
}
