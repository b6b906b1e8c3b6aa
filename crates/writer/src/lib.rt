// The writer of a file: from a policy and its queries to the bytes that state them.
#![tactic(auto)]

ghost use Rattle.std.specs.Prelude.{◌≡◌, length};
ghost use Rattle.writer.specs.Writing.{write_of, write_after, Writes};

use format::LONGEST_FILE;
use policy::{Policy, Queries, Refusal};
use records::File;

// Writes the file at the start of the lent buffer, and returns its length; bytes past it keep what they held.
pub fn write(policy: Policy, queries: Queries, buffer: &mut [u8]) -> Result<usize, Refusal>
    ensures value { result ≡ write_of policy queries (length buffer.old) }
    ensures buffer_after { buffer.new ≡ write_after policy queries buffer.old }
    ensures writes { Writes policy queries buffer.old buffer.new result }
{
    engine::check_record(policy, queries)?;
    let mut whole = [0u8; LONGEST_FILE];
    let file = File {
        policy: &policy,
        queries: &queries,
    };
    let end = text::start(&file, &mut whole);
    if buffer.len() < end {
        return Err(Refusal::BufferTooShort);
    }
    buffer[..end].copy_from_slice(&whole[..end]);
    Ok(end)
}
