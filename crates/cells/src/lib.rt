// A lent pool, and the small steps that operations on it are made of.

#![tactic(auto)]

ghost use Rattle.std.specs.Prelude.{◌≡◌, ◌≤◌};
ghost use Rattle.pool.specs.Setters.{cell};
ghost use Rattle.table.specs.View.{view, Table};
ghost use Rattle.cells.specs.Range.{Spare, NewCell};

use crate::lent::Pool;
use table::Shape;

pub mod lent;
pub mod seen;
pub mod steps;

// The words come back from the pool: so their lender knows what they are.
fn cell_in(s: Shape, t: &mut [u32], kind: u32, elem: u32, next: usize) -> (&mut [u32], usize)
    requires table { Table s t.old }
    requires spare { Spare s (view s t.old) }
    requires kind_bound { (kind ≤ 1) × (next ≤ s.cells) }
    ensures name { result.0.ghost_name ≡ t.entry.ghost_name }
    ensures made { NewCell s result.0.now (view s t.old) (cell kind elem 1 next) result.1 }
{
    let mut p = Pool::new(s, t);
    let x = p.new_cell(kind, elem, next);
    (p.words(), x)
}

// The head of the free chain becomes a cell with one arrow: on the words of a table, for who reads a stored form into it.
pub fn new_cell(s: Shape, t: &mut [u32], kind: u32, elem: u32, next: usize) -> usize
    requires table { Table s t.old }
    requires spare { Spare s (view s t.old) }
    requires kind_bound { (kind ≤ 1) × (next ≤ s.cells) }
    ensures { NewCell s t.new (view s t.old) (cell kind elem 1 next) result }
{
    let (_, x) = cell_in(s, t, kind, elem, next);
    x
}
