// The way through a list, from the first character of its text to the last, and the size of that text. At null the next
// character is ")".
ghost use Rattle.std.specs.Prelude.{◌≡◌, ◌<◌, ◌≤◌, length};
ghost use Rattle.text.specs.Limits.{levels, text_most};
ghost use Rattle.cells.specs.Views.{pool_of};
ghost use Rattle.table.specs.View.{IsCell};
ghost use Rattle.writing.specs.Steps.{comma, shut_at, pass_at, MayTurn, Turns};
ghost use Rattle.pool.specs.Operations.{Stands};
ghost use Rattle.writing.specs.Measures.{Measures};

use answers::Refusal;
use cells::seen::Seen;
use scan::limits::Level;
use walks::{Kept, Met, Walk};

// A further element has "," before it.
fn commas(x: usize) -> usize
    ensures { (result ≡ length (comma x)) × (result ≤ 1) }
{
    usize::from(x != 0)
}

// ")"
pub fn shut(after: &Kept, w: Walk) -> Walk
    requires { (1 ≤ w.depth) × (w.depth ≤ levels) × (w.size ≤ text_most) }
    ensures { result ≡ shut_at after.now w }
{
    let r = w.shut(after);
    Walk {
        size: r.size + 1 + commas(r.at),
        ..r
    }
}

// An atom.
pub fn pass(t: Seen, w: Walk) -> Walk
    requires cell { IsCell t.shape w.at }
    requires size_le_text_most { w.size ≤ text_most }
    ensures { result ≡ pass_at (pool_of t.entry).cells w }
{
    let digits = octal::count(t.elem_of(w.at));
    let r = w.pass(t, w.size + digits);
    Walk {
        size: r.size + commas(r.at),
        ..r
    }
}

// The next character, or the digits of an atom, with "," if an element follows.
fn step(t: Seen, after: &mut Kept, w: Walk) -> Walk
    requires { MayTurn t.shape (pool_of t).cells w }
    ensures { Turns (pool_of t.entry).cells after.old w after.new result }
{
    match Met::at(t, w.at) {
        Met::End => shut(after, w),
        Met::Atom(_) => pass(t, w),
        Met::List(_) => w.open(t, after, w.size + 1),
    }
}

// The size of the text of the list at x, unless it is too deep or the usable bytes do not hold it. Not one with `grouping`'s,
// as `put` is not: text is judged by characters and groups by numbers, and laws for both would be as long as the two proofs.
// That a list stands at x ties two values: a type of its own would have to hold the pool too, which is there as `t`.
pub fn measure(t: Seen, x: usize, usable: usize) -> Result<usize, Refusal>
    requires stands { Stands (pool_of t).cells x }
    requires usable_le_text_most { usable ≤ text_most }
    ensures { Measures (pool_of t.entry).cells x usable result }
{
    if usable == 0 {
        return Err(Refusal::Output);
    }
    let mut after = [0; Level::MOST as usize];
    let mut w = Walk::started(x, 1);
    while w.depth > 0 {
        if walks::too_deep(t, w.at, w.depth) {
            return Err(Refusal::Deep);
        }
        w = step(t, &mut after, w);
        if w.size > usable {
            return Err(Refusal::Output);
        }
    }
    Ok(w.size)
}
