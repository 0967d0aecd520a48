// What a walk meets where it stands.
ghost use Rattle.std.specs.Prelude.{◌≢◌};
ghost use Rattle.cells.specs.Views.{pool_of};
ghost use Rattle.table.specs.View.{IsCell};
ghost use Rattle.walks.specs.Meets.{Meets};

use cells::seen::Seen;

// The end of the innermost list, or an element: an atom with its value, a list with its first cell.
#[derive(Clone, Copy, Debug, PartialEq, Eq)]
pub enum Met {
    End,
    Atom(u32),
    List(usize),
}

impl Met {
    // at a cell, or at null
    pub fn at(t: Seen, x: usize) -> Met
        requires { x ≢ 0 → IsCell t.shape x }
        ensures { Meets (pool_of t.entry).cells x result }
    {
        if x == 0 {
            return Met::End;
        }
        let e = t.elem_of(x);
        if t.kind_of(x) == 0 {
            Met::Atom(e)
        } else {
            Met::List(e as usize)
        }
    }
}
