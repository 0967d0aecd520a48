// The second pass over a text that is a list and has room: the marks between each two places go into cells.
ghost use Rattle.std.specs.Prelude.{◌≡◌, ◌-◌, ◌≤◌, ◌<◌};
ghost use Rattle.building.specs.Underway.{Coming};
ghost use Rattle.lists.specs.Lst.{extent};
ghost use Rattle.pool.specs.Operations.{read};
ghost use Rattle.pool.specs.Pool.{frees, Sound};
ghost use Rattle.scan.specs.Places.{shuts};
ghost use Rattle.table.specs.View.{holder_count, view, Table, Shows};
ghost use Rattle.text.specs.Limits.{levels};
ghost use Rattle.text.specs.Marks.{list_in};
ghost use Rattle.reading.specs.Accepting.{Taken};
ghost use Rattle.reading.specs.Adding.{stack, ShutTo, Adding, Added};

use crate::{digits, next};
use building::hook::Hook;
use scan::limits::{Level, PerLevel};
use scan::step::Place;
use table::Shape;

// The cell of each open list, the outermost first, which has none.
type Lists = PerLevel<u32>;

// The lists of the levels above `to` end.
fn shut(s: Shape, t: &mut [u32], h: usize, k: Hook, lists: &Lists, from: u32, to: u32) -> Hook
    requires table { Table s t.old }
    requires h_bound { h < holder_count s }
    requires from_le_levels { (from ≤ levels) × (to ≤ from) }
    requires coming { Coming (view s t.old) h k (stack lists.now from) (shuts (from - to)) }
    ensures { ShutTo s h t.old k lists.now from to t.new result }
{
    let mut at = k;
    for level in (to..from).rev() {
        at = building::shut_list(s, t, h, at, lists[level as usize] as usize);
    }
    at
}

// What stands between two places of the text: a list begins, or an atom of the value v or nothing stands before the
// ends of lists.
fn add(
    s: Shape,
    t: &mut [u32],
    h: usize,
    k: Hook,
    lists: &mut Lists,
    p: Place,
    q: Place,
    v: u32,
) -> Hook
    requires { Adding s t.old h k lists.old p q v }
    ensures { Added s t.old h k lists.old p q v t.new result lists.new }
{
    if q.depth > p.depth {
        let j = building::begin_list(s, t, h, k);
        lists[p.depth as usize] = j.cell() as u32;
        return j;
    }
    if q.elements > p.elements {
        let j = building::add_atom(s, t, h, k, v);
        return shut(s, t, h, j, lists, p.depth, q.depth);
    }
    shut(s, t, h, k, lists, p.depth, q.depth)
}

// The list of the text goes into holder h.
pub fn build(s: Shape, t: &mut [u32], h: usize, text: &[u8])
    requires table { Table s t.old }
    requires h_bound { h < holder_count s }
    requires sound { Sound (view s t.old) }
    requires taken { Taken text.now }
    requires text_bound { extent (list_in text.now) ≤ frees (view s t.old).cells }
    ensures { Shows s t.new (read (view s t.old) h (list_in text.now)) }
{
    let mut lists = [0; Level::MOST as usize];
    let mut k = Hook::HOLDER;
    let mut p = Place::opened();
    while p.depth > 0 {
        let n = digits::number_at(text, p.at);
        let q = next::next(text, p, n.end);
        k = add(s, t, h, k, &mut lists, p, q, n.value);
        p = q;
    }
}
