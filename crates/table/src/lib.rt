// The only code that knows where the words of a table lie. Every function above goes by the pool that the table shows.

#![tactic(auto)]

ghost use Rattle.std.specs.Prelude.{◌≡◌, true, false, ◌+◌, ◌*◌, ◌^◌, ◌≤◌, ◌<◌, length, set};
ghost use Rattle.pool.specs.Pool.{at, kind_of, elem_of, count_of, next_of, holder};
ghost use Rattle.table.specs.Fields.{field, field_no, put_field};
ghost use Rattle.pool.specs.Setters.{cell, put_cell, put_count, put_next, put_free, put_holder};
ghost use Rattle.table.specs.Limits.{packs, head, cells_most, holders_fit, holders_told, cells_in};
ghost use Rattle.table.specs.Pack.{part, room, with_part};
ghost use Rattle.table.specs.Sizes.{sizes_fit, shape_of, cleared};
ghost use Rattle.table.specs.Blank.{headed, blank_pool};
ghost use Rattle.table.specs.View.{four, word_count, holder_count, greatest_count, start, cell_word, stored_two, view};
ghost use Rattle.table.specs.View.{Table, IsCell, Shows};

// The limits of cells of four words.
#[derive(Clone, Copy)]
pub struct Cell;

impl Cell {
    pub const MOST: usize = 4000;

    // type, element, count and successor
    pub const WORDS: usize = 4;

    pub const AT: usize = Holder::AT + Holder::MOST;
}

// A cell in two words: type, count and successor in the first, the element in the second.
#[derive(Clone, Copy)]
pub struct Pair;

impl Pair {
    pub const MOST: usize = 8000;

    pub const WORDS: usize = 2;

    // what one of the type adds to the first word, and one of the count
    const KIND: u32 = 1 << 31;

    const COUNT: u32 = 1 << 16;

    // what the count has room for
    const COUNTS: u32 = Pair::KIND / Pair::COUNT;
}

// The limits of holders, which are cell numbers.
#[derive(Clone, Copy)]
pub struct Holder;

impl Holder {
    pub const MOST: usize = 64;

    pub const AT: usize = 2;

    // where the table tells their number
    pub const MANY: usize = 256;
}

// What a cell holds, in the order of its four words.
#[derive(Clone, Copy)]
enum Field {
    Kind,
    Elem,
    Count,
    Next,
}

// How a pool is laid out in words: four words a cell, two words a cell, and two words a cell with the number of holders
// told. No call names Packed or Wide yet: they are for later requests.
#[derive(Clone, Copy)]
pub enum Form {
    Four,
    Packed,
    Wide,
}

impl Form {
    // Whether a cell has two words.
    pub fn packs(self) -> bool
        ensures { result ≡ packs self }
    {
        matches!(self, Form::Packed | Form::Wide)
    }

    // The words before the holders.
    pub fn head(self) -> usize
        ensures { (result ≡ head self) × (result ≤ 3) }
    {
        match self {
            Form::Four | Form::Packed => Holder::AT,
            Form::Wide => Holder::AT + 1,
        }
    }

    pub fn most(self) -> usize
        ensures { (result ≡ cells_most self) × (result ≤ 8000) }
    {
        match self {
            Form::Four => Cell::MOST,
            Form::Packed | Form::Wide => Pair::MOST,
        }
    }

    // Whether a table of this form may have that many holders.
    pub fn takes(self, h: usize) -> bool
        ensures { result ≡ holders_fit self h }
    {
        match self {
            Form::Four | Form::Packed => h == Holder::MOST,
            Form::Wide => (1..=Holder::MANY).contains(&h),
        }
    }

    // The words of n cells.
    pub fn words(self, n: usize) -> usize
        requires { n < 2 ^ 32 }
        ensures { (result ≡ cells_in (packs self) n) × (result ≤ 4 * n) }
    {
        if self.packs() {
            Pair::WORDS * n
        } else {
            Cell::WORDS * n
        }
    }
}

// The layout of a table. Its words stay a slice beside it here, as the C calls lend them; `cells` lends both as one value.
// The numbers have no bounds of their own: `fits` is lent any, and says whether they are those of a table.
#[derive(Clone, Copy)]
pub struct Shape {
    pub form: Form,
    pub cells: usize,
    pub holders: usize,
}

impl Shape {
    // The words of the largest table with four words a cell.
    pub const WORDS_MOST: usize = Cell::AT + Cell::WORDS * Cell::MOST;

    // n cells of four words each.
    pub fn four(n: usize) -> Shape
        ensures { result ≡ four n }
    {
        Shape {
            form: Form::Four,
            cells: n,
            holders: Holder::MOST,
        }
    }

    pub fn holders(self) -> usize
        ensures { result ≡ holder_count self }
    {
        self.holders
    }

    // Where the words of the cells begin.
    pub fn start(self) -> usize
        requires { self.holders ≤ 256 }
        ensures { (result ≡ start self) × (result ≤ 259) }
    {
        self.form.head() + self.holders
    }

    // The words of a whole table.
    pub fn words(self) -> usize
        requires { (self.cells < 2 ^ 32) × (self.holders ≤ 256) }
        ensures { result ≡ word_count self }
    {
        self.start() + self.form.words(self.cells)
    }
}

// Whether a table of that shape has that many words.
pub fn fits(s: Shape, words: usize) -> bool
    ensures { result ≡ sizes_fit s words }
{
    (1..=s.form.most()).contains(&s.cells) && s.form.takes(s.holders) && words == s.words()
}

// The holders that a table of a form tells.
fn holders_told(f: Form, t: &[u32]) -> usize
    ensures { result ≡ holders_told f t.now }
{
    match f {
        Form::Four | Form::Packed => Holder::MOST,
        Form::Wide => t.get(2).copied().unwrap_or(0) as usize,
    }
}

// The shape of a table of the form, with no cells where the words are none: no Option, as the definition gives a shape.
pub fn shape_of(f: Form, t: &[u32]) -> Shape
    ensures { result ≡ shape_of f t.now }
{
    let told = Shape {
        form: f,
        cells: t.first().copied().unwrap_or(0) as usize,
        holders: holders_told(f, t),
    };
    if fits(told, t.len()) {
        told
    } else {
        Shape { cells: 0, ..told }
    }
}

// The first n words become 0.
pub fn clear(w: &mut [u32], n: usize)
    requires { n ≤ length w.old }
    ensures { w.new ≡ cleared n w.old }
{
    // std's fill puts the last word down apart from the others, for which tab_set_up takes 16 bytes of stack more
    for word in w[..n].iter_mut() {
        *word = 0;
    }
}

// The number of cells, and that of holders where the form tells it.
fn tell_head(s: Shape, t: &mut [u32])
    requires { (s.cells < 2 ^ 32) × (s.holders < 2 ^ 32) × (2 < length t.old) }
    ensures { t.new ≡ headed s.form s.holders s.cells t.old }
{
    t[0] = s.cells as u32;
    if matches!(s.form, Form::Wide) {
        t[2] = s.holders as u32;
    }
}

// All words 0 but those that tell the shape.
pub fn lay_out(s: Shape, t: &mut [u32])
    requires { sizes_fit s (length t.old) ≡ true }
    ensures { Shows s t.new (blank_pool s.cells s.holders) }
{
    clear(t, t.len());
    tell_head(s, t);
}

// A field of the two words of a cell.
fn part_of(w: u32, e: u32, f: Field) -> u32
    ensures { result ≡ part (field_no f) w e }
{
    match f {
        Field::Kind => w / Pair::KIND,
        Field::Elem => e,
        Field::Count => w / Pair::COUNT % Pair::COUNTS,
        Field::Next => w % Pair::COUNT,
    }
}

// The first word with v in a field, the other two as they were.
fn with_part(w: u32, f: Field, v: u32) -> u32
    requires { v < room (field_no f) }
    ensures { result ≡ with_part (field_no f) v w }
{
    match f {
        Field::Kind => w % Pair::KIND + Pair::KIND * v,
        Field::Elem => w,
        Field::Count => w / Pair::KIND * Pair::KIND + Pair::COUNT * v + w % Pair::COUNT,
        Field::Next => w / Pair::COUNT * Pair::COUNT + v,
    }
}

// A field of cell i + 1, where the cells begin at word a and have two words each.
fn get_two(t: &[u32], a: usize, i: usize, f: Field) -> u32
    requires { a + 2 * i + 1 < length t.now }
    ensures { result ≡ cell_word true a (field_no f) t.now i }
{
    let b = a + Pair::WORDS * i;
    part_of(t[b], t[b + 1], f)
}

// The same, where they have four words.
fn get_four(t: &[u32], i: usize, f: Field) -> u32
    requires { 66 + 4 * i + 3 < length t.now }
    ensures { result ≡ cell_word false 66 (field_no f) t.now i }
{
    t[Cell::AT + Cell::WORDS * i + f as usize]
}

fn get(s: Shape, t: &[u32], c: usize, f: Field) -> u32
    requires table { Table s t.now }
    requires cell { IsCell s c }
    ensures { result ≡ field (field_no f) (at (view s t.now).cells c) }
{
    if s.form.packs() {
        get_two(t, s.start(), c - 1, f)
    } else {
        get_four(t, c - 1, f)
    }
}

fn put_two(t: &mut [u32], a: usize, i: usize, f: Field, v: u32)
    requires i_in_bounds { a + 2 * i + 1 < length t.old }
    requires v_bound { v < room (field_no f) }
    ensures { t.new ≡ stored_two a i (field_no f) v t.old }
{
    let b = a + Pair::WORDS * i;
    match f {
        Field::Elem => t[b + 1] = v,
        _ => t[b] = with_part(t[b], f, v),
    }
}

fn put_four(t: &mut [u32], i: usize, f: Field, v: u32)
    requires { 66 + 4 * i + 3 < length t.old }
    ensures { t.new ≡ set t.old (66 + 4 * i + field_no f) v }
{
    t[Cell::AT + Cell::WORDS * i + f as usize] = v;
}

fn put_word(s: Shape, t: &mut [u32], c: usize, f: Field, v: u32)
    requires table { Table s t.old }
    requires cell { IsCell s c }
    requires v_bound { v < room (field_no f) }
    ensures { Shows s t.new (put_field (field_no f) c v (view s t.old)) }
{
    if s.form.packs() {
        put_two(t, s.start(), c - 1, f, v);
    } else {
        put_four(t, c - 1, f, v);
    }
}

// A number and no enum, as `set_cell` takes it: a table that is not sound may have more than 1 there. Cells and holders are
// numbers too: that one is in range ties it to its table.
pub fn kind_of(s: Shape, t: &[u32], c: usize) -> u32
    requires table { Table s t.now }
    requires cell { IsCell s c }
    ensures { result ≡ kind_of (view s t.now).cells c }
{
    get(s, t, c, Field::Kind)
}

pub fn elem_of(s: Shape, t: &[u32], c: usize) -> u32
    requires table { Table s t.now }
    requires cell { IsCell s c }
    ensures { result ≡ elem_of (view s t.now).cells c }
{
    get(s, t, c, Field::Elem)
}

pub fn count_of(s: Shape, t: &[u32], c: usize) -> usize
    requires table { Table s t.now }
    requires cell { IsCell s c }
    ensures { (result ≡ count_of (view s t.now).cells c) × (result < 2 ^ 32) }
{
    get(s, t, c, Field::Count) as usize
}

pub fn next_of(s: Shape, t: &[u32], c: usize) -> usize
    requires table { Table s t.now }
    requires cell { IsCell s c }
    ensures { (result ≡ next_of (view s t.now).cells c) × (result < 2 ^ 32) }
{
    get(s, t, c, Field::Next) as usize
}

pub fn set_count(s: Shape, t: &mut [u32], c: usize, v: usize)
    requires table { Table s t.old }
    requires cell { IsCell s c }
    requires v_bound { v ≤ greatest_count s }
    ensures { Shows s t.new (put_count c v (view s t.old)) }
{
    put_word(s, t, c, Field::Count, v as u32);
}

pub fn set_elem(s: Shape, t: &mut [u32], c: usize, v: u32)
    requires table { Table s t.old }
    requires cell { IsCell s c }
    ensures { Shows s t.new (put_field 1 c v (view s t.old)) }
{
    put_word(s, t, c, Field::Elem, v);
}

pub fn set_next(s: Shape, t: &mut [u32], c: usize, v: usize)
    requires table { Table s t.old }
    requires cell { IsCell s c }
    requires v_le_cells { v ≤ s.cells }
    ensures { Shows s t.new (put_next c v (view s t.old)) }
{
    put_word(s, t, c, Field::Next, v as u32);
}

// All four fields of a cell.
pub fn set_cell(s: Shape, t: &mut [u32], c: usize, kind: u32, elem: u32, count: usize, next: usize)
    requires table { Table s t.old }
    requires cell { IsCell s c }
    requires kind_bound { (kind ≤ 1) × (count ≤ greatest_count s) × (next ≤ s.cells) }
    ensures { Shows s t.new (put_cell c (cell kind elem count next) (view s t.old)) }
{
    put_word(s, t, c, Field::Kind, kind);
    put_word(s, t, c, Field::Elem, elem);
    put_word(s, t, c, Field::Count, count as u32);
    put_word(s, t, c, Field::Next, next as u32);
}

pub fn free_head(s: Shape, t: &[u32]) -> usize
    requires { Table s t.now }
    ensures { (result ≡ (view s t.now).free) × (result < 2 ^ 32) }
{
    t[1] as usize
}

pub fn set_free(s: Shape, t: &mut [u32], v: usize)
    requires table { Table s t.old }
    requires v_le_cells { v ≤ s.cells }
    ensures { Shows s t.new (put_free v (view s t.old)) }
{
    t[1] = v as u32;
}

pub fn holder_of(s: Shape, t: &[u32], h: usize) -> usize
    requires table { Table s t.now }
    requires h_bound { h < holder_count s }
    ensures { (result ≡ holder (view s t.now) h) × (result < 2 ^ 32) }
{
    t[s.form.head() + h] as usize
}

pub fn set_holder(s: Shape, t: &mut [u32], h: usize, v: usize)
    requires table { Table s t.old }
    requires h_bound { h < holder_count s }
    requires v_le_cells { v ≤ s.cells }
    ensures { Shows s t.new (put_holder h v (view s t.old)) }
{
    t[s.form.head() + h] = v as u32;
}
