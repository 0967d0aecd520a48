// The small steps that operations are made of: a list element, one more arrow, a new cell, a cell freed.
ghost use Rattle.std.specs.Prelude.{◌≡◌, ◌≢◌, ◌≤◌, ◌<◌};
ghost use Rattle.pool.specs.Pool.{count_of};
ghost use Rattle.pool.specs.Operations.{borrowed, item};
ghost use Rattle.pool.specs.Setters.{cell, new_cell, release};
ghost use Rattle.table.specs.View.{greatest_count, IsCell};
ghost use Rattle.cells.specs.Lent.{on};
ghost use Rattle.cells.specs.Range.{Spare};

use crate::lent::Pool;

impl<'a> Pool<'a> {
    // The element of cell x if it is a list, else null.
    #[inline(always)]
    pub fn item_of(&self, x: usize) -> usize
        requires { IsCell self.now.shape x }
        ensures { result ≡ item self.now.pool.cells x }
    {
        if self.kind_of(x) == 0 {
            0
        } else {
            self.elem_of(x) as usize
        }
    }

    // One more arrow to x, if it is a cell.
    #[inline(always)]
    pub fn share(&mut self, x: usize)
        requires x_le_cells { x ≤ self.old.shape.cells }
        requires x_bound { x ≢ 0 → count_of self.old.pool.cells x < greatest_count self.old.shape }
        ensures { self.new ≡ on (borrowed x) self.old }
    {
        if x != 0 {
            let n = self.count_of(x) + 1;
            self.set_count(x, n);
        }
    }

    // The head of the free chain becomes a cell with one arrow. Its type is a number, as `table::set_cell` takes it.
    #[inline(always)]
    pub fn new_cell(&mut self, kind: u32, elem: u32, next: usize) -> usize
        requires spare { Spare self.old.shape self.old.pool }
        requires kind_bound { (kind ≤ 1) × (next ≤ self.old.shape.cells) }
        ensures told { result ≡ self.old.pool.free }
        ensures left { self.new ≡ on (new_cell result (cell kind elem 1 next)) self.old }
    {
        self.sizes();
        let x = self.free_head();
        let rest = self.next_of(x);
        self.set_free(rest);
        self.set_cell(x, kind, elem, 1, next);
        x
    }

    // Cell x becomes the first of the free chain.
    #[inline(always)]
    pub fn release(&mut self, x: usize)
        requires cell { IsCell self.old.shape x }
        requires free { self.old.pool.free ≤ self.old.shape.cells }
        ensures { self.new ≡ on (release x) self.old }
    {
        let f = self.free_head();
        self.set_next(x, f);
        self.set_free(x);
    }
}
