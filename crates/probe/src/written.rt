// What the writer returns, and the buffer lent to it.
ghost use Rattle.std.specs.Prelude.{◌≤◌, ◌≡◌, All, IfSome, length};
ghost use Rattle.format.specs.Bounds.{longest_file};

use crate::query_lines::line;
use format::LONGEST_FILE;
use probing::{keyed, refused, text};
use records::File;

// So many bytes are lent; no accepted file is longer.
const LENT: usize = 27300;

// The bytes that are lent, all stars.
pub(crate) fn stars() -> [u8; LENT]
    ensures { 27300 ≡ length result }
{
    [b'*'; LENT]
}

// Writes what write returns, and the bytes lent to it: how many are still stars, or those of the file and three more.
pub(crate) fn write(file: &File, buffer: &mut [u8]) {
    match writer::write(*file.policy, *file.queries, buffer) {
        Err(refusal) => {
            let kept = buffer.iter().filter(|b| **b == b'*').count();
            refused(refusal);
            keyed(b" kept=", kept as u64);
        }
        Ok(n) => {
            keyed(b"length=", n as u64);
            text(b" bytes=");
            text(&buffer[..n.saturating_add(3).min(buffer.len())]);
        }
    }
}

// The length of the file, or none where it is refused.
fn file_length(file: &File) -> Option<usize>
    ensures { IfSome result (λ n. (1 ≤ n) × (n ≤ longest_file)) }
{
    writer::write(*file.policy, *file.queries, &mut [0; LONGEST_FILE]).ok()
}

// The lengths of the buffers to lend: too short for the file, just long enough, and longer; any few, where it is refused.
fn lengths(file: &File) -> [usize; 4]
    ensures { All (λ n. n ≤ 27300) result }
{
    match file_length(file) {
        Some(n) => [0, n - 1, n, n + 3],
        None => [0, 0, 1, 4],
    }
}

// Writes the line of a lent buffer.
fn lent(file: &File, buffer: &mut [u8]) {
    line(b"write ", buffer.len() as u64, || write(file, buffer));
}

// Writes the lines of buffers of these lengths.
#[inline(never)]
pub(crate) fn lines(file: &File) {
    for length in lengths(file) {
        lent(file, &mut stars()[..length]);
    }
}
