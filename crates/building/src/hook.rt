// Where the number of the next cell goes, and a cell that begins there.
ghost use Rattle.std.specs.Prelude.{◌≡◌, ◌≤◌, ◌<◌};
ghost use Rattle.table.specs.View.{holder_count, view, Table, Shows};
ghost use Rattle.building.specs.Hooks.{link_at, link_of, hook_cell, InTable, Hangs, Hung};
ghost use Rattle.building.specs.Reading.{hang};

use table::Shape;

// To the successor or the element of a cell. The successor of cell 0 stands for the holder: a case of its own for it
// makes reading groups slower by 7 in 100.
#[derive(Clone, Copy)]
pub enum Hook {
    Next(usize),
    Elem(usize),
}

impl Hook {
    pub const HOLDER: Hook = Hook::Next(0);

    // To a cell's successor where `inside` is 0, else to its element. Cell 0 is the holder, whatever `inside` is.
    pub fn at(cell: usize, inside: usize) -> Hook
        ensures link { link_of result ≡ link_at cell inside }
        ensures cell { hook_cell result ≡ cell }
        ensures in_table { (s : Shape) → cell ≤ s.cells → InTable s result }
    {
        if cell == 0 || inside == 0 {
            Hook::Next(cell)
        } else {
            Hook::Elem(cell)
        }
    }

    pub fn cell(self) -> usize
        ensures { result ≡ hook_cell self }
    {
        match self {
            Hook::Next(c) => c,
            Hook::Elem(c) => c,
        }
    }
}

// The number c, of a cell or null, is stored at the hook.
pub fn hang(s: Shape, t: &mut [u32], h: usize, k: Hook, c: usize)
    requires table { Table s t.old }
    requires h_bound { h < holder_count s }
    requires in_table { InTable s k }
    requires c_le_cells { c ≤ s.cells }
    ensures { Shows s t.new (hang (link_of k) h c (view s t.old)) }
{
    match k {
        Hook::Elem(x) => table::set_elem(s, t, x, c as u32),
        Hook::Next(0) => table::set_holder(s, t, h, c),
        Hook::Next(x) => table::set_next(s, t, x, c),
    }
}

// The head of the free chain becomes a cell whose successor is not known yet, and is named at the hook. Its type is a number,
// as `table::set_cell` takes it.
pub fn hang_new(s: Shape, t: &mut [u32], h: usize, k: Hook, kind: u32, elem: u32) -> usize
    requires table { Table s t.old }
    requires h_bound { h < holder_count s }
    requires hangs { Hangs s h t.old k }
    requires kind_bound { kind ≤ 1 }
    ensures { Hung s h t.old k kind elem t.new result }
{
    let f = table::free_head(s, t);
    hang(s, t, h, k, f);
    cells::new_cell(s, t, kind, elem, 0)
}
