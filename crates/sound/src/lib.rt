// Whether a table is sound. Every arrow met takes one off the count of its end; the arrows of a cell are met when its
// count has run out. Work space: words 0 to N - 1 are the counts that are left, words N to 2 N - 1 the cells that wait.

#![tactic(auto)]

ghost use Rattle.std.specs.Prelude.{◌≡◌, ◌&&◌, suc, ◌+◌, ◌*◌, ◌≤◌, length};
ghost use Rattle.pool.specs.Tally.{same};
ghost use Rattle.pool.specs.Check.{chained, after_holders};
ghost use Rattle.cells.specs.Views.{pool_of};
ghost use Rattle.sound.specs.Decided.{Decided, Examined};
ghost use Rattle.sound.specs.Mirror.{Room, ArrowMet, Stows, Refills, Counted, Copied, state_at};
ghost use Rattle.sound.specs.Mirror.{Shown, Reached, Taking, ElementMet, Peeled};

use cells::seen::Seen;

// What the work space does not say: whether all went well (1, else 0), the cell at hand (0: none), how many wait, and
// how many are done. All are words of one size: with a bool or an Option gaps are copied too, and the check is 1.5 to 4
// times as slow.
#[derive(Clone, Copy)]
struct Peel {
    ok: usize,
    at: usize,
    top: usize,
    gone: usize,
}

// What the check finds: whether the table is sound, and how many cells are free. No Option, since `Examined` gives the
// number of an unsound table too.
#[derive(Clone, Copy)]
pub struct Found {
    pub sound: bool,
    pub free: usize,
}

#[tactic(auto, unfolding(pool::specs::Tally::same))]
pub fn one_if_none(r: usize) -> u32
    ensures { result ≡ same r 0 }
{
    u32::from(r == 0)
}

// The counts go to the first words of the work space, which stays a slice beside the table, as C lends it; gives the number
// of free cells.
fn copy_counts(t: Seen, w: &mut [u32]) -> usize
    requires { t.shape.cells + t.shape.cells ≤ length w.old }
    ensures { Copied t.entry.shape.cells (pool_of t.entry).cells w.old w.new result }
{
    // a word of 32 bits, so that as many are added at a time as are copied
    let mut free: u32 = 0;
    for i in 0..t.shape.cells {
        let r = t.count_of(i + 1);
        w[i] = r as u32;
        free += one_if_none(r);
    }
    free as usize
}

// Whether the chain from the first free cell is of that many free cells, and ends then.
fn chain_holds(t: Seen, free: usize) -> bool
    ensures { result ≡ chained free (pool_of t.entry).cells (pool_of t.entry).free }
{
    let mut x = t.free_head();
    let mut left = free;
    while x != 0 {
        if x > t.shape.cells || t.count_of(x) != 0 || left == 0 {
            return false;
        }
        x = t.next_of(x);
        left -= 1;
    }
    left == 0
}

// An arrow to x is met. A cell that has run out is then at hand.
fn follow(n: usize, w: &mut [u32], x: usize, e: Peel) -> Peel
    requires n_in_bounds { n + n ≤ length w.old }
    requires at_value { e.at ≡ 0 }
    ensures { ArrowMet n x w.old e w.new result }
{
    if x == 0 {
        return e;
    }
    if x > n {
        return Peel { ok: 0, at: 0, ..e };
    }
    let r = w[x - 1];
    if r == 0 {
        return Peel { ok: 0, at: 0, ..e };
    }
    w[x - 1] = r - 1;
    if r > 1 {
        return e;
    }
    Peel { at: x, ..e }
}

// The cell at hand waits.
fn stow(n: usize, w: &mut [u32], e: Peel) -> Peel
    requires { Room n w.old e }
    ensures { Stows n w.old e w.new result }
{
    let x = e.at;
    if x == 0 {
        return e;
    }
    let top = e.top;
    w[n + top] = x as u32;
    Peel {
        at: 0,
        top: top + 1,
        ..e
    }
}

// Where no cell is at hand, the last that waits is.
fn refill(n: usize, w: &[u32], e: Peel) -> Peel
    requires { Room n w.now e }
    ensures { Refills n w.now e result }
{
    if e.at != 0 {
        return e;
    }
    if e.top == 0 {
        return e;
    }
    let top = e.top - 1;
    let x = w[n + top] as usize;
    Peel { at: x, top, ..e }
}

// Meets the arrows of all holders.
fn meet_holders(t: Seen, w: &mut [u32]) -> Peel
    requires cells_in_bounds { t.shape.cells + t.shape.cells ≤ length w.old }
    requires counted { Counted t.shape.cells w.old (pool_of t).cells }
    ensures { Shown t.entry.shape.cells w.old w.new result (after_holders (pool_of t.entry)) }
{
    let n = t.shape.cells;
    let mut e = Peel {
        ok: 1,
        at: 0,
        top: 0,
        gone: 0,
    };
    for h in 0..t.holders() {
        let x = t.holder_of(h);
        let f = follow(n, w, x, e);
        e = stow(n, w, f);
    }
    e
}

// Takes the cell at hand: looks at its type and meets its element, which then waits if it has run out.
fn meet_element(t: Seen, w: &mut [u32], e: Peel) -> Peel
    requires { Taking (pool_of t) t.shape.cells w.old e }
    ensures { ElementMet (pool_of t.entry) t.entry.shape.cells w.old e w.new result }
{
    let n = t.shape.cells;
    let c = e.at;
    let d = Peel {
        at: 0,
        gone: e.gone + 1,
        ..e
    };
    let k = t.kind_of(c);
    if k == 0 {
        return d;
    }
    if k > 1 {
        return Peel { ok: 0, ..d };
    }
    let y = t.elem_of(c) as usize;
    let f = follow(n, w, y, d);
    stow(n, w, f)
}

// Meets the arrows of the cell at hand. A successor that has run out is followed at once.
fn take_cell(t: Seen, w: &mut [u32], e: Peel) -> Peel
    requires { Taking (pool_of t) t.shape.cells w.old e }
    ensures { Reached t.entry.shape.cells w.old w.new result (state_at (pool_of t.entry) (suc e.gone)) }
{
    let n = t.shape.cells;
    let x = t.next_of(e.at);
    let g = meet_element(t, w, e);
    let h = follow(n, w, x, g);
    refill(n, w, h)
}

// Meets the arrows of the holders, and then of every cell that runs out.
fn peel_all(t: Seen, w: &mut [u32]) -> Peel
    requires cells_in_bounds { t.shape.cells + t.shape.cells ≤ length w.old }
    requires counted { Counted t.shape.cells w.old (pool_of t).cells }
    ensures { Peeled t.entry.shape.cells (pool_of t.entry) w.old w.new result }
{
    let n = t.shape.cells;
    let f = meet_holders(t, w);
    let mut e = refill(n, w, f);
    while e.at != 0 {
        e = take_cell(t, w, e);
    }
    e
}

// Looks at the whole table. The first 2 N words of the work space are 0 afterwards.
pub fn examine(t: Seen, w: &mut [u32]) -> Found
    requires { 2 * t.shape.cells ≤ length w.old }
    ensures { Examined t.entry.shape t.entry.words.now w.old w.new result }
{
    let n = t.shape.cells;
    let free = copy_counts(t, w);
    let a = chain_holds(t, free);
    let e = peel_all(t, w);
    table::clear(w, 2 * n);
    Found {
        sound: a && e.ok == 1 && e.gone + free == n,
        free,
    }
}

// What it says of the table alone.
pub fn is_sound(t: Seen, w: &mut [u32]) -> bool
    requires { 2 * t.shape.cells ≤ length w.old }
    ensures { Decided t.entry.shape t.entry.words.now w.old w.new result }
{
    examine(t, w).sound
}
