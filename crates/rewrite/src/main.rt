// The program `rewrite`: reads a file from standard input, and writes the file that the writer makes of its record.
#![tactic(auto)]

ghost use Rattle.std.specs.Prelude.{◌≡◌};
ghost use Rattle.printing.specs.Texts.{rewrite_texts};

use format::{LONGEST_FILE, MOST_BYTES};
use printing::Rewritten;
use text::{One, Texts};

// What is printed for a file: the texts of `rewrite`.
fn printed(file: &[u8]) -> One<Rewritten<'_>>
    ensures { ⟦<One<Rewritten<'static>> as Texts<LONGEST_FILE>>⟧.texts result ≡ rewrite_texts file.now }
{
    One(Rewritten(file))
}

// One function for the programs would take the type of the texts and the message: no plainer than these lines.
fn main() {
    let mut input = [0u8; MOST_BYTES + 1];
    let n = io::read_full(0, &mut input);
    if !text::print(&printed(&input[..n])) {
        io::write_all(2, b"rewrite: the output could not be written\n");
    }
}
