// The bytes of a text whose size is known, each in its place.
ghost use Rattle.std.specs.Prelude.{◌≡◌, ◌-◌, ◌≤◌, length};
ghost use Rattle.text.specs.Limits.{levels, text_most};
ghost use Rattle.cells.specs.Views.{pool_of};
ghost use Rattle.table.specs.View.{IsCell};
ghost use Rattle.writing.specs.Put.{Put, PutShut, PutPass, PutTurn, Roomy};
ghost use Rattle.writing.specs.Steps.{comma, shut_at, pass_at, MayTurn};
ghost use Rattle.pool.specs.Operations.{Stands};
ghost use Rattle.writing.specs.Measures.{Fitting, text_at};

use crate::{atoms, walk};
use cells::seen::Seen;
use scan::limits::Level;
use walks::{Kept, Met, Walk};

// "," before a further element: the last character so far.
fn part(out: &mut [u8], w: Walk)
    requires { (length (comma w.at) ≤ w.size) × (w.size ≤ length out.old) }
    ensures { Put out.old out.new (w.size - length (comma w.at)) (length out.old) (comma w.at) }
{
    if w.at != 0 {
        out[w.size - 1] = b',';
    }
}

// ")"
fn put_shut(after: &Kept, out: &mut [u8], w: Walk) -> Walk
    requires le_depth { (1 ≤ w.depth) × (w.depth ≤ levels) × (w.size ≤ text_most) }
    requires w_bound { (shut_at after.now w).size ≤ length out.old }
    ensures { PutShut after.now w out.old out.new (length out.old) result }
{
    out[w.size] = b')';
    let r = walk::shut(after, w);
    part(out, r);
    r
}

// An atom.
fn put_pass(t: Seen, out: &mut [u8], w: Walk) -> Walk
    requires cell { IsCell t.shape w.at }
    requires size_le_text_most { (w.size ≤ text_most) × ((pass_at (pool_of t).cells w).size ≤ length out.old) }
    ensures { PutPass (pool_of t.entry).cells w out.old out.new (length out.old) result }
{
    let v = t.elem_of(w.at);
    let r = walk::pass(t, w);
    atoms::put_atom(out, w.size, v);
    part(out, r);
    r
}

// As much of the text as a turn of the walk passes.
fn put_step(t: Seen, after: &mut Kept, out: &mut [u8], w: Walk) -> Walk
    requires may_turn { MayTurn t.shape (pool_of t).cells w }
    requires roomy { Roomy (pool_of t).cells after.old w (length out.old) }
    ensures { PutTurn (pool_of t.entry).cells after.old w after.new result
        out.old out.new (length out.old) }
{
    match Met::at(t, w.at) {
        Met::End => put_shut(after, out, w),
        Met::Atom(_) => put_pass(t, out, w),
        Met::List(_) => {
            out[w.size] = b'(';
            w.open(t, after, w.size + 1)
        }
    }
}

// The text of the list at x, which fills `out`.
pub fn put(t: Seen, x: usize, out: &mut [u8])
    requires stands { Stands (pool_of t).cells x }
    requires fitting { Fitting (pool_of t).cells x (length out.old) }
    ensures { out.new ≡ text_at (pool_of t.entry).cells x }
{
    out[0] = b'(';
    let mut after = [0; Level::MOST as usize];
    let mut w = Walk::started(x, 1);
    while w.depth > 0 {
        w = put_step(t, &mut after, out, w);
    }
}
