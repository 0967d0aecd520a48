// One reading step: from a place where an element is to begin to the next such place, by a mark or with a fault.
// A step takes along what follows its element: ",", or every ")" up to the "," behind them or to the end of the list.
ghost use Rattle.std.specs.Prelude.{◌≡◌, true, false, ◌≤◌, ◌<◌, get_or, length};
ghost use Rattle.text.specs.Limits.{text_most};
ghost use Rattle.text.specs.ListText.{is_digit_byte};
ghost use Rattle.scan.specs.Places.{placed, open_of, too_long_atom, AtomEnd, Inside, Closing, Closed, Taken, opened};

use crate::limits::{Digits, Level};
use crate::octals;
use answers::Refusal;

// Bytes behind, levels open, elements begun; `first`: behind a "(", where a ")" may stand too. No level is open behind
// the whole list. A bool and no state of its own: one step asks for it once.
#[derive(Clone, Copy)]
pub struct Place {
    pub at: usize,
    pub depth: u32,
    pub elements: u32,
    pub first: bool,
}

impl Place {
    // behind the outermost "("
    pub fn opened() -> Place
        ensures { result ≡ opened }
    {
        Place {
            at: 1,
            depth: 1,
            elements: 0,
            first: true,
        }
    }

    // behind a "," or the last ")"
    fn behind(at: usize, depth: u32, elements: u32) -> Place
        ensures { result ≡ placed at depth elements false }
    {
        Place {
            at,
            depth,
            elements,
            first: false,
        }
    }
}

// What follows a ")".
fn closed(text: &[u8], depth: u32, elements: u32, at: usize) -> Result<Place, Refusal>
    requires { Closing text.now depth elements at }
    ensures { Closed text.now depth elements at result }
{
    // no range counts both, since levels fall as bytes rise
    let mut d = depth;
    let mut i = at;
    while d > 0 {
        if i >= text.len() {
            return Err(Refusal::NotAList);
        }
        match text[i] {
            b',' => return Ok(Place::behind(i + 1, d, elements)),
            b')' => {}
            _ => return Err(Refusal::NotAList),
        }
        i += 1;
        d -= 1;
    }
    Ok(Place::behind(i, 0, elements))
}

// "("
fn open(depth: u32, elements: u32, at: usize) -> Result<Place, Refusal>
    requires elements_le_at { elements ≤ at }
    requires at_lt_text_most { at < text_most }
    ensures { result ≡ open_of depth elements at }
{
    if depth >= Level::MOST {
        return Err(Refusal::Deep);
    }
    Ok(Place {
        at: at + 1,
        depth: depth + 1,
        elements: elements + 1,
        first: true,
    })
}

// Eleven digits are below 2^32 where the first is at most 3.
fn too_long(digits: usize, first: u8) -> bool
    ensures { result ≡ too_long_atom digits first }
{
    digits > Digits::MOST - usize::from(first > b'3')
}

// Where the digits of an atom end, unless they are too many, as sixteen behind the first are. Nearly every atom ends within
// eight, and is not too long.
fn atom_end(text: &[u8], first: usize) -> Option<usize>
    requires { first < length text.now }
    ensures { AtomEnd text.now first result }
{
    if let Some(end) = octals::near_end(text, first + 1) {
        return Some(end);
    }
    let end = octals::near_end(text, first + 9)?;
    if too_long(end - first, text[first]) {
        return None;
    }
    Some(end)
}

// An atom of any number of digits, and what follows it.
fn digits(text: &[u8], p: Place) -> Result<Place, Refusal>
    requires inside { Inside text.now p }
    requires at_value { is_digit_byte (get_or text.now p.at 0) ≡ true }
    ensures { Taken text.now p result }
{
    let Some(end) = atom_end(text, p.at) else {
        return Err(Refusal::Atom);
    };
    if end >= text.len() {
        return Err(Refusal::NotAList);
    }
    match text[end] {
        b',' => Ok(Place::behind(end + 1, p.depth, p.elements + 1)),
        b')' => closed(text, p.depth - 1, p.elements + 1, end + 1),
        _ => Err(Refusal::NotAList),
    }
}

// An atom, and what follows it. One digit and a "," are looked for first: they are the quickest to take. The end of the
// text is a test of its own: with `get` in its place a text of one digit takes 2.3 times as long. Where it is met, `digits`
// says so: with a return here a digit takes an instruction more.
fn atom(text: &[u8], p: Place) -> Result<Place, Refusal>
    requires inside { Inside text.now p }
    requires at_value { is_digit_byte (get_or text.now p.at 0) ≡ true }
    ensures { Taken text.now p result }
{
    let second = p.at + 1;
    if second < text.len() && text[second] == b',' {
        return Ok(Place::behind(second + 1, p.depth, p.elements + 1));
    }
    digits(text, p)
}

// That a place is inside ties it to its text: with the text in it, what goes round the loop would be two words longer.
pub fn take(text: &[u8], p: Place) -> Result<Place, Refusal>
    requires { Inside text.now p }
    ensures { Taken text.now p result }
{
    let at = p.at;
    match text[at] {
        b if octals::is_octal(b) => atom(text, p),
        b'(' => open(p.depth, p.elements, at),
        b')' if p.first => closed(text, p.depth - 1, p.elements, at + 1),
        _ => Err(Refusal::NotAList),
    }
}
