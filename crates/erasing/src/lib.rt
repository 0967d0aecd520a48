// What drops an arrow: erasing by the report's steps, and ADV, whose arrow goes straight on to the tail.

#![tactic(auto)]

ghost use Rattle.std.specs.Prelude.{◌≡◌, ◌≢◌, ◌≤◌, ◌<◌};
ghost use Rattle.pool.specs.Erase.{dropped, stepped};
ghost use Rattle.pool.specs.Operations.{adv, erase};
ghost use Rattle.pool.specs.Pool.{count_of, holder};
ghost use Rattle.table.specs.View.{greatest_count};
ghost use Rattle.cells.specs.Asked.{OnOne, OnTwo};
ghost use Rattle.cells.specs.Lent.{on};
ghost use Rattle.erasing.specs.Erasing.{Fine, state, Does, ErasingEnds, AtAnEnd, Rooted, less};

use cells::lent::Pool;

// Where erasing stands: the cell whose arrow is to be dropped, or 0; the head of the waiting chain; the cells freed. Number 0
// is null here as in every word of a table: an Option would be made of it and turned back at each step.
#[derive(Clone, Copy)]
struct Erasing {
    here: usize,
    waiting: usize,
    freed: usize,
}

// One arrow to the cell that is here goes.
fn drop_arrow(p: &mut Pool, e: Erasing) -> Erasing
    requires fine { Fine (greatest_count p.old.shape) (state p.old e) }
    requires le_here { 1 ≤ e.here }
    ensures { Does p.old p.new result (stepped (state p.old e)) }
{
    p.sizes();
    let x = e.here;
    let n = p.count_of(x) - 1;
    let next = p.next_of(x);
    let kind = p.kind_of(x);
    p.set_count(x, n);
    if n != 0 {
        return Erasing { here: 0, ..e };
    }
    if kind == 0 {
        p.release(x);
        return Erasing {
            here: next,
            freed: e.freed + 1,
            ..e
        };
    }
    p.set_next(x, e.waiting);
    Erasing {
        here: next,
        waiting: x,
        ..e
    }
}

// At an end: the head of the waiting chain is freed, and its element is next.
fn pop_waiting(p: &mut Pool, e: Erasing) -> Erasing
    requires fine { Fine (greatest_count p.old.shape) (state p.old e) }
    requires here_value { (e.here ≡ 0) × (1 ≤ e.waiting) }
    ensures { Does p.old p.new result (stepped (state p.old e)) }
{
    p.sizes();
    let x = e.waiting;
    let item = p.elem_of(x) as usize;
    let next = p.next_of(x);
    p.release(x);
    Erasing {
        here: item,
        waiting: next,
        freed: e.freed + 1,
    }
}

// Along the successors, to an end.
fn follow(p: &mut Pool, start: Erasing) -> Erasing
    requires { ErasingEnds p.old start }
    ensures { AtAnEnd p.old start p.new result }
{
    let mut e = start;
    while e.here != 0 {
        e = drop_arrow(p, e);
    }
    e
}

// Drops one arrow to x, and gives the number of cells freed.
fn drop_root(p: &mut Pool, x: usize) -> usize
    requires { Rooted (greatest_count p.old.shape) p.old.pool x }
    ensures { (result ≡ (dropped p.old.pool.free p.old.pool.cells x).freed) × (p.new ≡ on (λ q. less q x) p.old) }
{
    let mut e = Erasing {
        here: x,
        waiting: 0,
        freed: 0,
    };
    loop {
        e = follow(p, e);
        if e.waiting == 0 {
            return e.freed;
        }
        e = pop_waiting(p, e);
    }
}

// ERASE: a becomes null; gives the number of cells freed.
pub fn erase(p: &mut Pool, a: usize) -> usize
    requires { OnOne p.old a }
    ensures { (result ≡ (erase p.old.pool a).1) × (p.new ≡ on (λ q. (erase q a).0) p.old) }
{
    let x = p.holder_of(a);
    let n = drop_root(p, x);
    p.set_holder(a, 0);
    n
}

// The list of a is held elsewhere too: its first cell loses the arrow of a, and element and tail are borrowed.
fn step_off(p: &mut Pool, a: usize, b: usize)
    requires asked { OnTwo p.old a b }
    requires b_value { (holder p.old.pool b ≡ 0) × (1 < count_of p.old.pool.cells (holder p.old.pool a)) }
    ensures { p.new ≡ on (λ q. adv q a b) p.old }
{
    let x = p.holder_of(a);
    let next = p.next_of(x);
    let e = p.item_of(x);
    let n = p.count_of(x) - 1;
    p.share(e);
    p.share(next);
    p.set_count(x, n);
    p.set_holder(a, next);
    p.set_holder(b, e);
}

// ADV: a becomes its tail, and b its first element where that is a list; who else holds the old list keeps all of it.
pub fn adv(p: &mut Pool, a: usize, b: usize)
    requires asked { OnTwo p.old a b }
    requires b_value { (holder p.old.pool b ≡ 0) × (holder p.old.pool a ≢ 0) }
    ensures { p.new ≡ on (λ q. adv q a b) p.old }
{
    let x = p.holder_of(a);
    if p.count_of(x) == 1 {
        // no other arrow: what is borrowed and erased again comes to DECAP
        heads::decap(p, a, b);
    } else {
        step_off(p, a, b);
    }
}
