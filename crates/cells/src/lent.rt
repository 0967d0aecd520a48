// A pool: the words of a table, lent with their shape.
ghost use Rattle.std.specs.Prelude.{◌≡◌, ◌≤◌, ◌<◌, ◌^◌};
ghost use Rattle.pool.specs.Pool.{kind_of, elem_of, count_of, next_of, holder};
ghost use Rattle.pool.specs.Setters.{cell, put_cell, put_count, put_next, put_free, put_holder};
ghost use Rattle.table.specs.View.{greatest_count, holder_count, Table, IsCell, Shows};
ghost use Rattle.cells.specs.Lent.{lent, on, Sized};
ghost use Rattle.cells.specs.Views.{pool_of};

use crate::seen::Seen;
use std::marker::Model;
use table::Shape;

// The layout stays shut: a contract speaks of the pool that the words show.
#[derive(Drop)]
pub struct Pool<'a> {
    shape: Shape,
    words: &'a mut [u32],
}

impl<'a> Model for Pool<'a> {
    ghost use Rattle.table.specs.View.{Table};
    ghost use Rattle.cells.specs.Lent.{Lent, lent};

    ghost Value = { Lent };

    ghost view = { λ p. lent p.words.ghost_name p.shape p.words.now };

    ghost invariant = { λ p. Table p.shape p.words.now };
}

impl<'a> Pool<'a> {
    #[inline(always)]
    pub fn new(shape: Shape, words: &'a mut [u32]) -> Pool<'a>
        requires { Table shape words.old }
        ensures { result ≡ lent words.entry.ghost_name shape words.old }
    {
        Pool { shape, words }
    }

    // The words again, for who lent them.
    #[inline(always)]
    pub fn words(self) -> &'a mut [u32]
        ensures name { result.ghost_name ≡ self.entry.name }
        ensures shows { Shows self.entry.shape result.now self.entry.pool }
    {
        self.words
    }

    // Shape and words, to be read alone.
    #[inline(always)]
    pub fn read(&self) -> (Shape, &[u32])
        ensures shape { result.0 ≡ self.now.shape }
        ensures shows { Shows self.now.shape result.1.now self.now.pool }
    {
        (self.shape, self.words)
    }

    // The pool to be read alone, for who takes no more than that.
    #[inline(always)]
    pub fn seen(&self) -> Seen<'_>
        ensures shape { result.shape ≡ self.now.shape }
        ensures pool { pool_of result ≡ self.now.pool }
    {
        Seen::new(self.shape, self.words)
    }

    // Says how large the pool is; does nothing.
    #[inline(always)]
    pub fn sizes(&self)
        ensures { Sized self.now }
    {
        let _ = &self.shape;
    }

    #[inline(always)]
    pub fn holders(&self) -> usize
        ensures { result ≡ holder_count self.now.shape }
    {
        self.shape.holders
    }

    #[inline(always)]
    pub fn kind_of(&self, c: usize) -> u32
        requires { IsCell self.now.shape c }
        ensures { result ≡ kind_of self.now.pool.cells c }
    {
        table::kind_of(self.shape, self.words, c)
    }

    #[inline(always)]
    pub fn elem_of(&self, c: usize) -> u32
        requires { IsCell self.now.shape c }
        ensures { result ≡ elem_of self.now.pool.cells c }
    {
        table::elem_of(self.shape, self.words, c)
    }

    #[inline(always)]
    pub fn count_of(&self, c: usize) -> usize
        requires { IsCell self.now.shape c }
        ensures { (result ≡ count_of self.now.pool.cells c) × (result < 2 ^ 32) }
    {
        table::count_of(self.shape, self.words, c)
    }

    #[inline(always)]
    pub fn next_of(&self, c: usize) -> usize
        requires { IsCell self.now.shape c }
        ensures { (result ≡ next_of self.now.pool.cells c) × (result < 2 ^ 32) }
    {
        table::next_of(self.shape, self.words, c)
    }

    #[inline(always)]
    pub fn free_head(&self) -> usize
        ensures { (result ≡ self.now.pool.free) × (result < 2 ^ 32) }
    {
        table::free_head(self.shape, self.words)
    }

    #[inline(always)]
    pub fn holder_of(&self, h: usize) -> usize
        requires { h < holder_count self.now.shape }
        ensures { (result ≡ holder self.now.pool h) × (result < 2 ^ 32) }
    {
        table::holder_of(self.shape, self.words, h)
    }

    #[inline(always)]
    pub fn set_count(&mut self, c: usize, v: usize)
        requires cell { IsCell self.old.shape c }
        requires v_bound { v ≤ greatest_count self.old.shape }
        ensures { self.new ≡ on (put_count c v) self.old }
    {
        table::set_count(self.shape, self.words, c, v);
    }

    #[inline(always)]
    pub fn set_next(&mut self, c: usize, v: usize)
        requires cell { IsCell self.old.shape c }
        requires v_le_cells { v ≤ self.old.shape.cells }
        ensures { self.new ≡ on (put_next c v) self.old }
    {
        table::set_next(self.shape, self.words, c, v);
    }

    // All four fields of a cell.
    #[inline(always)]
    pub fn set_cell(&mut self, c: usize, kind: u32, elem: u32, count: usize, next: usize)
        requires cell { IsCell self.old.shape c }
        requires kind_bound { (kind ≤ 1) × (count ≤ greatest_count self.old.shape) × (next ≤ self.old.shape.cells) }
        ensures { self.new ≡ on (put_cell c (cell kind elem count next)) self.old }
    {
        table::set_cell(self.shape, self.words, c, kind, elem, count, next);
    }

    #[inline(always)]
    pub fn set_free(&mut self, v: usize)
        requires { v ≤ self.old.shape.cells }
        ensures { self.new ≡ on (put_free v) self.old }
    {
        table::set_free(self.shape, self.words, v);
    }

    #[inline(always)]
    pub fn set_holder(&mut self, h: usize, v: usize)
        requires h_bound { h < holder_count self.old.shape }
        requires v_le_cells { v ≤ self.old.shape.cells }
        ensures { self.new ≡ on (put_holder h v) self.old }
    {
        table::set_holder(self.shape, self.words, h, v);
    }
}
