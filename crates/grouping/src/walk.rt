// The way through a list, from its first number to the last, and the bytes of those numbers.
ghost use Rattle.std.specs.Prelude.{◌≡◌, ◌<◌, ◌≤◌};
ghost use Rattle.cells.specs.Views.{pool_of};
ghost use Rattle.grouping.specs.Steps.{bottom, MayTurn, Turns};
ghost use Rattle.grouping.specs.Measures.{Measures};
ghost use Rattle.pool.specs.Operations.{Stands};
ghost use Rattle.text.specs.Limits.{text_most};

use crate::sizes;
use answers::Refusal;
use cells::seen::Seen;
use scan::limits::Level;
use walks::{Kept, Met, Walk};

// The bytes of a list and its elements.
#[derive(Clone, Copy)]
pub struct Measured {
    pub size: usize,
    pub elements: usize,
}

// The number of an element, or the end of a list.
fn step(t: Seen, after: &mut Kept, w: Walk) -> Walk
    requires { MayTurn t.shape (pool_of t).cells w }
    ensures { Turns (pool_of t.entry).cells after.old w after.new result }
{
    match Met::at(t, w.at) {
        Met::End => w.shut(after),
        Met::Atom(v) => w.pass(t, w.size + sizes::of_atom(v)),
        Met::List(x) => w.open(t, after, w.size + sizes::of_list(t, x)),
    }
}

// 1 for a turn on the outermost level.
fn bottom(w: Walk) -> usize
    ensures { (result ≡ bottom w) × (result ≤ 1) }
{
    usize::from(w.depth == 1)
}

// The bytes and the elements of the list at x, unless it is too deep or the usable bytes do not hold it. `writing` says why
// text has a function of its own for this.
pub fn measure(t: Seen, x: usize, usable: usize) -> Result<Measured, Refusal>
    requires stands { Stands (pool_of t).cells x }
    requires usable_le_text_most { usable ≤ text_most }
    ensures { Measures (pool_of t.entry).cells x usable result }
{
    let first = sizes::of_list(t, x);
    if first > usable {
        return Err(Refusal::Output);
    }
    let mut after = [0; Level::MOST as usize];
    let mut w = Walk::started(x, first);
    // an element takes a turn on the outermost level, and its end takes one
    let mut turns = 0;
    while w.depth > 0 {
        if walks::too_deep(t, w.at, w.depth) {
            return Err(Refusal::Deep);
        }
        turns += bottom(w);
        w = step(t, &mut after, w);
        if w.size > usable {
            return Err(Refusal::Output);
        }
    }
    Ok(Measured {
        size: w.size,
        elements: turns - 1,
    })
}
