// Walks that only read: the length, the test for shared cells, the test for room, the end of a main level.
ghost use Rattle.std.specs.Prelude.{◌≡◌, ◌≤◌, ◌<◌, leb, length};
ghost use Rattle.cells.specs.Views.{pool_of};
ghost use Rattle.levels.specs.Joining.{EndsWith};
ghost use Rattle.pool.specs.Operations.{length_of, shared_at, span};
ghost use Rattle.pool.specs.Pool.{frees, Sound};
ghost use Rattle.pool.specs.Laws.Level.{Left};
ghost use Rattle.table.specs.View.{holder_count};

use cells::seen::Seen;

// The cells of the main level at x. Over what is read alone, since who groups a list may not write.
pub fn length_at(t: Seen, x: usize) -> usize
    requires { Left (pool_of t).cells x }
    ensures { (result ≡ span (length (pool_of t.entry).cells) (pool_of t.entry).cells x) × (result ≤ t.entry.shape.cells) }
{
    let mut c = x;
    let mut n = 0;
    while c != 0 {
        n += 1;
        c = t.next_of(c);
    }
    n
}

#[inline(always)]
pub fn length(t: Seen, a: usize) -> usize
    requires a_bound { a < holder_count t.shape }
    requires sound { Sound (pool_of t) }
    ensures { (result ≡ length_of (pool_of t.entry) a) × (result ≤ t.entry.shape.cells) }
{
    length_at(t, t.holder_of(a))
}

// Whether there are as many free cells as cells on the main level: one of each at a time, so that a long free chain
// costs nothing.
#[inline(always)]
pub fn fits(t: Seen, a: usize) -> bool
    requires a_bound { a < holder_count t.shape }
    requires sound { Sound (pool_of t) }
    ensures { result ≡ leb (length_of (pool_of t.entry) a) (frees (pool_of t.entry).cells) }
{
    let mut x = t.holder_of(a);
    let mut f = t.free_head();
    while x != 0 {
        if f == 0 {
            return false;
        }
        x = t.next_of(x);
        f = t.next_of(f);
    }
    true
}

// The last cell, and none where some cell is shared: both in one walk. A null list gives 0.
#[inline(always)]
pub fn end_of(t: Seen, a: usize) -> Option<usize>
    requires a_bound { a < holder_count t.shape }
    requires sound { Sound (pool_of t) }
    ensures { EndsWith (pool_of t.entry) a result }
{
    let first = t.holder_of(a);
    let mut x = first;
    let mut last = first;
    while x != 0 {
        if t.count_of(x) > 1 {
            return None;
        }
        last = x;
        x = t.next_of(x);
    }
    Some(last)
}

// Whether some count on the main level is over 1.
#[inline(always)]
pub fn any_shared(t: Seen, a: usize) -> bool
    requires a_bound { a < holder_count t.shape }
    requires sound { Sound (pool_of t) }
    ensures { result ≡ shared_at (pool_of t.entry) a }
{
    end_of(t, a).is_none()
}
