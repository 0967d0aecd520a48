// The bytes of a list that has room, each number in its place.
ghost use Rattle.std.specs.Prelude.{◌≡◌, length};
ghost use Rattle.calls.specs.Entry.{over};
ghost use Rattle.cells.specs.Views.{pool_of};
ghost use Rattle.groups.specs.Groups.{groups_of};
ghost use Rattle.grouping.specs.Measures.{Writable};
ghost use Rattle.grouping.specs.Putting.{Roomy, PutTurn};
ghost use Rattle.grouping.specs.Steps.{MayTurn};
ghost use Rattle.lists.specs.Lst.{len};
ghost use Rattle.pool.specs.Operations.{list_at, Stands};

use cells::seen::Seen;
use scan::limits::Level;
use walks::{Kept, Met, Walk};

// As much as a turn of the walk passes.
fn put_step(t: Seen, after: &mut Kept, out: &mut [u8], w: Walk) -> Walk
    requires may_turn { MayTurn t.shape (pool_of t).cells w }
    requires roomy { Roomy (pool_of t).cells w (length out.old) }
    ensures { PutTurn (pool_of t.entry).cells after.old w after.new result
        out.old out.new }
{
    match Met::at(t, w.at) {
        Met::End => w.shut(after),
        Met::Atom(v) => {
            let end = numbers::put(out, w.size, 2 * u64::from(v));
            w.pass(t, end)
        }
        Met::List(x) => {
            let n = levels::walk::length_at(t, x);
            let end = numbers::put(out, w.size, 2 * n as u64 + 1);
            w.open(t, after, end)
        }
    }
}

// The groups of the list at x, which has n elements.
pub fn put(t: Seen, x: usize, n: usize, out: &mut [u8])
    requires stands { Stands (pool_of t).cells x }
    requires writable { Writable (pool_of t).cells x (length out.old) }
    requires n_value { n ≡ len (list_at (pool_of t).cells x) }
    ensures { out.new ≡ over (groups_of (list_at (pool_of t.entry).cells x)) out.old }
{
    let first = numbers::put(out, 0, 2 * n as u64 + 1);
    let mut after = [0; Level::MOST as usize];
    let mut w = Walk::started(x, first);
    while w.depth > 0 {
        w = put_step(t, &mut after, out, w);
    }
}
