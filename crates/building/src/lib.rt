// Cells from the marks of a stored form, whatever form it is: a list begins, an atom, a list ends. Every element gets
// its cell where it begins, from the head of the free chain; what the cell does not know yet is null, and is stored
// when the next mark tells it. Shape and words stay apart, here and in who builds: the reader of groups calls itself, so its
// calls stay calls, and behind words lent as one value a loop then took 1.5 to 1.6 times as long (tried on erasing).

#![tactic(auto)]

ghost use Rattle.std.specs.Prelude.{◌≡◌, [], ◌∷◌, ◌<◌};
ghost use Rattle.table.specs.View.{holder_count, view, Table};
ghost use Rattle.text.specs.Marks.{opened, shut, value};
ghost use Rattle.building.specs.declared.hook.Hook.TheVariants.{Next};
ghost use Rattle.building.specs.Underway.{Comes, BeginsList, AddsAtom, ShutsList};

use crate::hook::Hook;
use table::Shape;

pub mod hook;

// A new cell of type 1 hangs at the hook, and the hook goes inside.
pub fn begin_list(s: Shape, t: &mut [u32], h: usize, k: Hook) -> Hook
    requires table { Table s t.old }
    requires h_bound { h < holder_count s }
    requires comes { Comes (view s t.old) h k (opened ∷ []) }
    ensures { BeginsList s h t.old k t.new result }
{
    let c = hook::hang_new(s, t, h, k, 1, 0);
    Hook::Elem(c)
}

// A new cell of type 0 hangs at the hook, and the hook goes behind it.
pub fn add_atom(s: Shape, t: &mut [u32], h: usize, k: Hook, v: u32) -> Hook
    requires table { Table s t.old }
    requires h_bound { h < holder_count s }
    requires comes { Comes (view s t.old) h k (value v ∷ []) }
    ensures { AddsAtom v s h t.old k t.new result }
{
    let c = hook::hang_new(s, t, h, k, 0, v);
    Hook::Next(c)
}

// Null hangs at the hook, and the hook goes behind c, the cell of the list that ends; 0 is the outermost list's.
pub fn shut_list(s: Shape, t: &mut [u32], h: usize, k: Hook, c: usize) -> Hook
    requires table { Table s t.old }
    requires h_bound { h < holder_count s }
    requires comes { Comes (view s t.old) h k (shut ∷ []) }
    ensures shuts_list { ShutsList c s h t.old k t.new result }
    ensures value { result ≡ Next c }
{
    hook::hang(s, t, h, k, 0);
    Hook::Next(c)
}
