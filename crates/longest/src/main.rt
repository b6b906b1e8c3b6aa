// The program `longest`: writes the file whose query has the most slim sets.
#![tactic(auto)]

ghost use Rattle.std.specs.Prelude.{◌≡◌};
ghost use Rattle.printing.specs.Texts.{longest_texts};

use format::LONGEST_FILE;
use printing::Longest;
use text::{One, Texts};

// What is printed: the texts of `longest`.
fn printed() -> One<Longest>
    ensures { ⟦<One<Longest> as Texts<LONGEST_FILE>>⟧.texts result ≡ longest_texts }
{
    One(Longest)
}

// One function for the programs would take the type of the texts and the message: no plainer than these lines.
fn main() {
    if !text::print(&printed()) {
        io::write_all(2, b"longest: the output could not be written\n");
    }
}
