// What happens at the head of a list, in constant time: an element put before it, taken off, told; the list borrowed.

#![tactic(auto)]

ghost use Rattle.std.specs.Prelude.{◌≡◌, ◌≢◌, ◌<◌};
ghost use Rattle.pool.specs.Pool.{count_of, holder, Sound};
ghost use Rattle.pool.specs.Operations.{pfa, pfl, decap, borrow};
ghost use Rattle.cells.specs.Asked.{OnOne, OnTwo};
ghost use Rattle.cells.specs.Lent.{on};
ghost use Rattle.cells.specs.Views.{pool_of};
ghost use Rattle.heads.specs.FirstTold.{FirstTold};
ghost use Rattle.table.specs.View.{holder_count};

use answers::Told;
use cells::lent::Pool;
use cells::seen::Seen;

// PFA: atom v before the list of a.
pub fn pfa(p: &mut Pool, a: usize, v: u32)
    requires asked { OnOne p.old a }
    requires free { p.old.pool.free ≢ 0 }
    ensures { p.new ≡ on (λ q. pfa q a v) p.old }
{
    let old = p.holder_of(a);
    let x = p.new_cell(0, v, old);
    p.set_holder(a, x);
}

// PFL: the list of b, as one element, before the list of a; b becomes null.
pub fn pfl(p: &mut Pool, a: usize, b: usize)
    requires asked { OnTwo p.old a b }
    requires free { p.old.pool.free ≢ 0 }
    ensures { p.new ≡ on (λ q. pfl q a b) p.old }
{
    let old = p.holder_of(a);
    let e = p.holder_of(b);
    let x = p.new_cell(1, e as u32, old);
    p.set_holder(a, x);
    p.set_holder(b, 0);
}

// DECAP: the first cell of a is freed, and its arrows become those of a and b.
pub fn decap(p: &mut Pool, a: usize, b: usize)
    requires asked { OnTwo p.old a b }
    requires b_value { (holder p.old.pool b ≡ 0) × (count_of p.old.pool.cells (holder p.old.pool a) ≡ 1) }
    ensures { p.new ≡ on (λ q. decap q a b) p.old }
{
    let x = p.holder_of(a);
    let next = p.next_of(x);
    let e = p.item_of(x);
    p.set_count(x, 0);
    p.release(x);
    p.set_holder(a, next);
    p.set_holder(b, e);
}

// BORROW: b becomes the list of a, shared.
pub fn borrow(p: &mut Pool, a: usize, b: usize)
    requires asked { OnTwo p.old a b }
    requires b_value { holder p.old.pool b ≡ 0 }
    ensures { p.new ≡ on (λ q. borrow q a b) p.old }
{
    let x = p.holder_of(a);
    p.share(x);
    p.set_holder(b, x);
}

// FIRST: the first element, an atom or a list.
pub fn first(t: Seen, a: usize) -> Told
    requires a_bound { a < holder_count t.shape }
    requires sound { Sound (pool_of t) }
    requires a_nonzero { holder (pool_of t) a ≢ 0 }
    ensures { FirstTold (pool_of t.entry) a result }
{
    let x = t.holder_of(a);
    if t.kind_of(x) != 0 {
        return Told::List;
    }
    Told::Atom(t.elem_of(x))
}
