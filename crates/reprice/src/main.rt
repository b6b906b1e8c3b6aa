// The program `reprice`: reads two files, the first from standard input and the second from descriptor 3, and writes what is to be
// printed for them, text by text.
#![tactic(auto)]

ghost use Rattle.std.specs.Prelude.{◌≡◌};
ghost use Rattle.pairs.specs.Texts.{reprice_texts};

use format::MOST_BYTES;
use pairs::{LONGEST_PRICES, Pair};
use text::Texts;

// What is printed for two files: the texts of `reprice`.
fn printed<'a>(before: &'a [u8], after: &'a [u8]) -> Pair<'a>
    ensures { ⟦<Pair<'static> as Texts<LONGEST_PRICES>>⟧.texts result ≡ reprice_texts before.now after.now }
{
    Pair { before, after }
}

// One function for the programs would take the type of the texts and the message: no plainer than these lines.
fn main() {
    let mut first = [0u8; MOST_BYTES + 1];
    let mut second = [0u8; MOST_BYTES + 1];
    let m = io::read_full(0, &mut first);
    let n = io::read_full(3, &mut second);
    if !text::print(&printed(&first[..m], &second[..n])) {
        io::write_all(2, b"reprice: the output could not be written\n");
    }
}
