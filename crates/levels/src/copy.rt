// CINV: a reversed copy of a main level in new cells, its lists borrowed.
ghost use Rattle.std.specs.Prelude.{◌≡◌, ◌≤◌, length};
ghost use Rattle.cells.specs.Asked.{OnTwo};
ghost use Rattle.cells.specs.Lent.{on};
ghost use Rattle.pool.specs.Operations.{with_twin, cinv, length_of};
ghost use Rattle.pool.specs.Pool.{holder, frees};
ghost use Rattle.pool.specs.Setters.{celled};
ghost use Rattle.levels.specs.Copying.{Copyable, Copies, made, placed};

use cells::lent::Pool;

// Free cell f becomes the copy of cell x before y.
#[inline(always)]
fn twin(p: &mut Pool, f: usize, x: usize, y: usize)
    requires { Copyable (length p.old.pool.holders) p.old.pool.cells f x y }
    ensures { p.new ≡ on (λ q. celled (with_twin f q.cells x y) q) p.old }
{
    p.sizes();
    let kind = p.kind_of(x);
    let elem = p.elem_of(x);
    let e = p.item_of(x);
    p.share(e);
    p.set_cell(f, kind, elem, 1, y);
}

// Copies the cells from x on in reverse, and gives the first cell of the copy.
#[inline(always)]
fn copy(p: &mut Pool, x: usize) -> usize
    requires { Copies (length p.old.pool.holders) p.old.pool x }
    ensures { (result ≡ (made p.old.pool x).head) × (p.new ≡ on (placed (made p.old.pool x)) p.old) }
{
    let mut free = p.free_head();
    let mut left = x;
    let mut head = 0;
    while left != 0 {
        p.sizes();
        let next = p.next_of(left);
        let rest = p.next_of(free);
        twin(p, free, left, head);
        head = free;
        free = rest;
        left = next;
    }
    p.sizes();
    p.set_free(free);
    head
}

#[inline(always)]
pub fn cinv(p: &mut Pool, a: usize, b: usize)
    requires asked { OnTwo p.old a b }
    requires b_value { (holder p.old.pool b ≡ 0) × (length_of p.old.pool a ≤ frees p.old.pool.cells) }
    ensures { p.new ≡ on (λ q. cinv q a b) p.old }
{
    let x = p.holder_of(a);
    let head = copy(p, x);
    p.sizes();
    p.set_holder(b, head);
}
