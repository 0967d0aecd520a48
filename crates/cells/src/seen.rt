// A pool to be read alone: the words of a table, lent with their shape. No `impl Model`, as a `Copy` struct with a lifetime
// takes none; a copy goes from function to function as shape and words did.
ghost use Rattle.std.specs.Prelude.{◌≡◌, ◌<◌, ◌^◌};
ghost use Rattle.pool.specs.Pool.{kind_of, elem_of, count_of, next_of, holder};
ghost use Rattle.pool.specs.Operations.{item};
ghost use Rattle.table.specs.View.{holder_count, view, Table, IsCell};

use table::Shape;

#[derive(Clone, Copy)]
pub struct Seen<'a> {
    pub shape: Shape,
    pub words: &'a [u32],
    ghost table: { Table shape words.now },
}

impl<'a> Seen<'a> {
    #[inline(always)]
    pub fn new(shape: Shape, words: &'a [u32]) -> Seen<'a>
        requires { Table shape words.now }
        ensures shape { result.shape ≡ shape }
        ensures words { result.words.now ≡ words.now }
    {
        Seen { shape, words }
    }

    #[inline(always)]
    pub fn holders(self) -> usize
        ensures { result ≡ holder_count self.entry.shape }
    {
        self.shape.holders
    }

    #[inline(always)]
    pub fn kind_of(self, c: usize) -> u32
        requires { IsCell self.shape c }
        ensures { result ≡ kind_of (view self.entry.shape self.entry.words.now).cells c }
    {
        table::kind_of(self.shape, self.words, c)
    }

    #[inline(always)]
    pub fn elem_of(self, c: usize) -> u32
        requires { IsCell self.shape c }
        ensures { result ≡ elem_of (view self.entry.shape self.entry.words.now).cells c }
    {
        table::elem_of(self.shape, self.words, c)
    }

    #[inline(always)]
    pub fn count_of(self, c: usize) -> usize
        requires { IsCell self.shape c }
        ensures { (result ≡ count_of (view self.entry.shape self.entry.words.now).cells c) × (result < 2 ^ 32) }
    {
        table::count_of(self.shape, self.words, c)
    }

    #[inline(always)]
    pub fn next_of(self, c: usize) -> usize
        requires { IsCell self.shape c }
        ensures { (result ≡ next_of (view self.entry.shape self.entry.words.now).cells c) × (result < 2 ^ 32) }
    {
        table::next_of(self.shape, self.words, c)
    }

    // The element of cell x if it is a list, else null.
    #[inline(always)]
    pub fn item_of(self, x: usize) -> usize
        requires { IsCell self.shape x }
        ensures { result ≡ item (view self.entry.shape self.entry.words.now).cells x }
    {
        if self.kind_of(x) == 0 {
            0
        } else {
            self.elem_of(x) as usize
        }
    }

    #[inline(always)]
    pub fn free_head(self) -> usize
        ensures { (result ≡ (view self.entry.shape self.entry.words.now).free) × (result < 2 ^ 32) }
    {
        table::free_head(self.shape, self.words)
    }

    #[inline(always)]
    pub fn holder_of(self, h: usize) -> usize
        requires { h < holder_count self.shape }
        ensures { (result ≡ holder (view self.entry.shape self.entry.words.now) h) × (result < 2 ^ 32) }
    {
        table::holder_of(self.shape, self.words, h)
    }
}
