// The second pass over groups that are a list and have room: the numbers go into cells. The readers of a list and of an
// element call each other, at most 200 levels deep, since the check took them.

#![tactic(auto)]

ghost use Rattle.std.specs.Prelude.{ℕ, ◌≤◌, ◌<◌};
ghost use Rattle.groups.specs.Holding.{Holding};
ghost use Rattle.groups.specs.Reading.{list_in};
ghost use Rattle.lists.specs.Lst.{extent};
ghost use Rattle.pool.specs.Operations.{read};
ghost use Rattle.pool.specs.Pool.{frees, Sound};
ghost use Rattle.table.specs.View.{holder_count, view, Table, Shows};
ghost use Rattle.storing.specs.Readers.{shaped, Due, DueElement, ReadsElement, ReadsList};

use building::hook::Hook;
use table::{Form, Shape};

// The place in the bytes, and where the next cell hangs.
#[derive(Clone, Copy)]
pub struct Spot {
    pub at: usize,
    pub hook: Hook,
}

// The element at a spot; the hook goes behind it.
#[cycle(element_list)]
fn element(s: Shape, t: &mut [u32], h: usize, bytes: &[u8], spot: Spot) -> Spot
    requires table { Table s t.old }
    requires h_bound { h < holder_count s }
    requires due_element { DueElement s t.old h bytes.now spot.at spot.hook }
    ensures { ReadsElement s h bytes.now t.old spot.at spot.hook t.new result }
{
    let n = numbers::number_there(bytes, spot.at);
    if n.value % 2 == 0 {
        let hook = building::add_atom(s, t, h, spot.hook, (n.value / 2) as u32);
        return Spot { at: n.end, hook };
    }
    let inside = building::begin_list(s, t, h, spot.hook);
    let at = list(
        s.form,
        s.cells,
        s.holders,
        t,
        h,
        bytes,
        n.end,
        inside,
        n.value / 2,
    );
    Spot {
        at,
        hook: Hook::Next(inside.cell()),
    }
}

// The n elements of the list whose cell is that of the hook, and its end; the place behind it is given. The shape comes
// in parts, which stay in registers from call to call.
#[cycle(element_list)]
fn list(
    f: Form,
    cells: usize,
    holders: usize,
    t: &mut [u32],
    h: usize,
    bytes: &[u8],
    at: usize,
    k: Hook,
    n: u64,
) -> usize
    requires table { Table (shaped f cells holders) t.old }
    requires h_bound { h < holder_count (shaped f cells holders) }
    requires due { Due (shaped f cells holders) t.old h bytes.now at n k }
    ensures { ReadsList (shaped f cells holders) h bytes.now t.old at n k t.new result }
{
    let s = Shape {
        form: f,
        cells,
        holders,
    };
    let mut spot = Spot { at, hook: k };
    for _ in 0..n {
        spot = element(s, t, h, bytes, spot);
    }
    building::shut_list(s, t, h, spot.hook, k.cell());
    spot.at
}

// The list of the bytes goes into holder h.
pub fn build(s: Shape, t: &mut [u32], h: usize, bytes: &[u8])
    requires table { Table s t.old }
    requires h_bound { h < holder_count s }
    requires sound { Sound (view s t.old) }
    requires by_index { (m : ℕ) × Holding bytes.now m (list_in bytes.now) }
    requires bytes_bound { extent (list_in bytes.now) ≤ frees (view s t.old).cells }
    ensures { Shows s t.new (read (view s t.old) h (list_in bytes.now)) }
{
    let n = numbers::number_there(bytes, 0);
    list(
        s.form,
        s.cells,
        s.holders,
        t,
        h,
        bytes,
        n.end,
        Hook::HOLDER,
        n.value / 2,
    );
}
