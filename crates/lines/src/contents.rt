// The contents of a line: a number, a kind, a list of decisions.
#![tactic(auto)]

ghost use Rattle.std.specs.Prelude.{◌≡◌, if◌then◌else◌};
ghost use Rattle.std.specs.List.{list_all};
ghost use Rattle.policy.specs.declared.refusal.Refusal.TheVariants.{Malformed};
ghost use Rattle.format.specs.Format.{is_digit, is_number, spelt, is_letter, kind_of, parts};
ghost use Rattle.lines.specs.Outcomes.{with, list_in};

use policy::{Decisions, Kind, Refusal};

// Whether each byte is a digit.
#[tactic(auto, unfolding(format::specs::Format::is_digit))]
fn all_digits(c: &[u8]) -> bool
    ensures { result ≡ list_all is_digit c.now }
{
    c.iter().all(|b| b.is_ascii_digit())
}

// Whether contents are 1 to 5 digits, with no leading zero but 0 itself.
#[tactic(auto, unfolding(format::specs::Format::is_number))]
fn is_number(c: &[u8]) -> bool
    ensures { result ≡ is_number c.now }
{
    all_digits(c) && matches!(c.len(), 1..=5) && (c.len() == 1 || c[0] != b'0')
}

// The number that contents spell. By hand, since `parse` is of a `str`, which `from_utf8` would first have to make of the bytes, with an
// error that cannot occur.
#[tactic(auto, using(crate::proofs::Numbers::spelling), unfolding(format::specs::Format::spelt))]
pub(crate) fn number(c: &[u8]) -> Result<u32, Refusal>
    ensures { result ≡ (if is_number c.now then Ok (spelt 0 c.now) else Err Malformed) }
{
    if !is_number(c) {
        return Err(Refusal::Malformed);
    }
    let mut number = 0;
    for b in c {
        number = number * 10 + (b - b'0') as u32;
    }
    Ok(number)
}

// The kind that a letter means.
#[tactic(auto, unfolding(format::specs::Format::is_letter, format::specs::Format::kind_of))]
pub(crate) fn kind(c: &[u8]) -> Result<Kind, Refusal>
    ensures { result ≡ (if is_letter c.now then Ok (kind_of c.now) else Err Malformed) }
{
    match c {
        [b'p'] => Ok(Kind::Provision),
        [b'o'] => Ok(Kind::Obligation),
        _ => Err(Refusal::Malformed),
    }
}

// The list with one decision more, where it is below n and there is a place for it; `None` is a list that did not fit.
#[tactic(auto, unfolding(crate::specs::Outcomes::with))]
fn with(list: Option<Decisions>, d: u32, n: u8) -> Option<Decisions>
    ensures { result ≡ with n list d }
{
    let mut more = list?;
    let place = more.count as usize;
    if more.at.len() <= place || n as u32 <= d {
        return None;
    }
    more.at[place] = d as u8;
    more.count += 1;
    Some(more)
}

// The decisions below n that contents state.
pub(crate) fn list(c: &[u8], n: u8) -> Result<Decisions, Refusal>
    ensures { result ≡ list_in n (parts c.now) }
{
    let none = format::list_of_none();
    if c.is_empty() {
        return Ok(none);
    }
    let mut list = Some(none);
    for part in c.split(|b| *b == b',') {
        let d = number(part)?;
        list = with(list, d, n);
    }
    list.ok_or(Refusal::OutOfRange)
}
