// Reading a file line by line.
#![tactic(auto, using(crate::proofs::Bytes::line_parts), unfolding(crate::specs::Outcomes::outcome_by, crate::specs::Outcomes::passed, crate::specs::Outcomes::cut_outcome, crate::specs::Outcomes::list_in, format::specs::Parser::ask, format::specs::Parser::onward, format::specs::Parser::end, format::specs::Format::line, format::specs::Format::number_line, format::specs::Format::kind_line, format::specs::Format::list_line))]

ghost use Rattle.std.specs.Prelude.{◌≡◌, ◌≤◌, ◌==◌, IfErr, IfOk};
ghost use Rattle.std.specs.List.{position};
ghost use Rattle.format.specs.Parser.{exactly, end};
ghost use Rattle.format.specs.Format.{line, number_line, kind_line, list_line};
ghost use Rattle.lines.specs.Outcomes.{cut_outcome, outcome, passed};

use policy::{Decisions, Kind, Refusal};
use std::marker::Model;

mod contents;

// The bytes of a file that are left to read. A line that is refused stays left.
#[derive(Drop)]
pub struct Lines<'a> {
    rest: &'a [u8],
}

impl<'a> Model for Lines<'a> {
    ghost use Rattle.std.specs.Prelude.{List, ℕ};

    ghost Value = { List ℕ };

    ghost view = { λ s. s.rest.now };
}

// The place of the first LF.
fn line_end(s: &[u8]) -> Option<usize>
    ensures { result ≡ position (λ b. b == 10) s.now }
{
    s.iter().position(|b| *b == b'\n')
}

// The contents of a line, and the bytes after it.
#[derive(Clone, Copy)]
struct Cut<'a> {
    content: &'a [u8],
    after: &'a [u8],
}

// The bytes after these.
fn pass<'a>(rest: &'a [u8], key: &[u8]) -> Result<&'a [u8], Refusal>
    ensures { passed result ≡ exactly key.now rest.now }
{
    rest.strip_prefix(key).ok_or(Refusal::Malformed)
}

// The line with this key in front.
fn line<'a>(rest: &'a [u8], key: &[u8]) -> Result<Cut<'a>, Refusal>
    ensures { cut_outcome result ≡ line key.now rest.now }
{
    let [b'=', content @ ..] = pass(rest, key)? else {
        return Err(Refusal::Malformed);
    };
    let end = line_end(content).ok_or(Refusal::Malformed)?;
    Ok(Cut {
        content: &content[..end],
        after: &content[end + 1..],
    })
}

impl<'a> Lines<'a> {
    // All bytes are left.
    pub fn new(bytes: &'a [u8]) -> Lines<'a>
        ensures { result ≡ bytes.now }
    {
        Lines { rest: bytes }
    }

    // A number from lo to hi.
    pub fn number(&mut self, key: &[u8], lo: u16, hi: u16) -> Result<u16, Refusal>
        ensures read { outcome result self.new ≡ number_line key.now lo hi self.old }
        ensures kept { IfErr result (λ e. self.new ≡ self.old) }
        ensures in_range { IfOk result (λ v. (lo ≤ v) × (v ≤ hi)) }
    {
        let cut = line(self.rest, key)?;
        let number = contents::number(cut.content)?;
        if !(lo as u32..=hi as u32).contains(&number) {
            return Err(Refusal::OutOfRange);
        }
        self.rest = cut.after;
        Ok(number as u16)
    }

    // A kind, p or o.
    pub fn kind(&mut self) -> Result<Kind, Refusal>
        ensures read { outcome result self.new ≡ kind_line self.old }
        ensures kept { IfErr result (λ e. self.new ≡ self.old) }
    {
        let cut = line(self.rest, b"kind")?;
        let kind = contents::kind(cut.content)?;
        self.rest = cut.after;
        Ok(kind)
    }

    // A list of rising decisions below n.
    pub fn decisions(&mut self, key: &[u8], n: u8) -> Result<Decisions, Refusal>
        ensures read { outcome result self.new ≡ list_line key.now n self.old }
        ensures kept { IfErr result (λ e. self.new ≡ self.old) }
    {
        let cut = line(self.rest, key)?;
        let list = contents::list(cut.content, n)?;
        if !list.rises() {
            return Err(Refusal::NotRising);
        }
        self.rest = cut.after;
        Ok(list)
    }

    // Nothing is left.
    pub fn end(&self) -> Result<(), Refusal>
        ensures { outcome result self.now ≡ end self.now }
    {
        if self.rest.is_empty() {
            Ok(())
        } else {
            Err(Refusal::Malformed)
        }
    }
}
