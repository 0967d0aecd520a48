// The text check: is what the caller lends a list in the text form, and where does its last record end?

#![tactic(auto)]

ghost use Rattle.std.specs.Prelude.{◌≡◌, ◌+◌, ◌≤◌, length, drop};
ghost use Rattle.answers.specs.Outcomes.{outcome_of};
ghost use Rattle.text.specs.Text.{verdict, rest_at};
ghost use Rattle.scan.specs.Outcomes.{Scans, Foresees, answered_as, Sized};
ghost use Rattle.scan.specs.Places.{outlook, over_at};

use crate::step::Place;
use answers::{Outcome, Refusal};
use records::Record;

pub mod limits;
pub mod octals;
pub mod step;

// What a scan finds: the bytes taken, and the extent of the list.
#[derive(Clone, Copy)]
pub struct Scanned {
    pub taken: u32,
    pub extent: u32,
}

// The fill behind the last ")".
fn ending(text: &[u8], from: usize, elements: u32) -> Result<Scanned, Refusal>
    requires sized { Sized text.now }
    requires from_in_bounds { from ≤ length text.now }
    ensures { Foresees (outlook (elements + 1) (over_at from) (drop from text.now)) result }
{
    let end = from.next_multiple_of(Record::BYTES);
    for b in &text[from..end] {
        if *b != b' ' {
            return Err(Refusal::NotAList);
        }
    }
    Ok(Scanned {
        taken: end as u32,
        extent: elements,
    })
}

// Text of a right size: the earliest fault, or the bytes taken and the extent.
pub fn scan(text: &[u8]) -> Result<Scanned, Refusal>
    requires { Sized text.now }
    ensures { Scans text.now result }
{
    if text[0] != b'(' {
        return Err(Refusal::NotAList);
    }
    let mut p = Place::opened();
    while p.at < text.len() {
        let read = step::take(text, p);
        // document 01 has it taken apart so
        let Ok(next) = read else {
            return Err(read.unwrap_err());
        };
        p = next;
        if p.depth == 0 {
            return ending(text, p.at, p.elements);
        }
    }
    Err(Refusal::NotAList)
}

// The bytes that the check takes.
fn taken(text: &[u8]) -> Result<u32, Refusal>
    ensures { outcome_of result ≡ answered_as (verdict text.now) }
{
    records::size_fault(text)?;
    Ok(scan(text)?.taken)
}

pub fn check(text: &[u8]) -> Outcome
    ensures { result ≡ answered_as (verdict text.now) }
{
    Outcome::from(taken(text))
}

fn rest_start(text: &[u8]) -> usize
    ensures { (result ≡ rest_at text.now) × (result ≤ length text.now) }
{
    let Ok(taken) = taken(text) else {
        return text.len();
    };
    let start = taken as usize;
    if records::at_end(text, start) {
        text.len()
    } else {
        start
    }
}

// The part of the lent text behind the record in which its first list ends. It is empty, at the text's end, where the
// check refuses or only blanks are left.
pub fn rest(text: &[u8]) -> &[u8]
    ensures result_value { result.now ≡ drop (rest_at text.now) text.now }
    ensures own { (result.ref_ptr.0 ≡ text.entry.ref_ptr.0) ×
        (result.ref_ptr.1 ≡ text.entry.ref_ptr.1 + rest_at text.now) }
{
    let start = rest_start(text);
    &text[start..]
}

// Where that part begins, told by the part itself: so many bytes of the text stand before it.
pub fn rest_at(text: &[u8]) -> usize
    ensures { result ≡ rest_at text.now }
{
    let left = rest(text);
    text.len() - left.len()
}
