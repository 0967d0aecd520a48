// INV: a main level turned round in its own cells.
ghost use Rattle.std.specs.Prelude.{◌≡◌, false};
ghost use Rattle.cells.specs.Asked.{OnOne};
ghost use Rattle.cells.specs.Lent.{on};
ghost use Rattle.pool.specs.Operations.{inv, shared_at};
ghost use Rattle.pool.specs.Setters.{celled};
ghost use Rattle.levels.specs.Turning.{turned, Turns};

use cells::lent::Pool;

// Turns the cells from x on round, and gives the new first cell.
#[inline(always)]
fn turn(p: &mut Pool, x: usize) -> usize
    requires { Turns p.old.pool x }
    ensures { (result ≡ (turned p.old.pool x).1) × (p.new ≡ on (celled (turned p.old.pool x).0) p.old) }
{
    let mut left = x;
    let mut turned = 0;
    while left != 0 {
        p.sizes();
        let next = p.next_of(left);
        p.set_next(left, turned);
        turned = left;
        left = next;
    }
    turned
}

#[inline(always)]
pub fn inv(p: &mut Pool, a: usize)
    requires asked { OnOne p.old a }
    requires a_value { shared_at p.old.pool a ≡ false }
    ensures { p.new ≡ on (λ q. inv q a) p.old }
{
    let x = p.holder_of(a);
    let z = turn(p, x);
    p.sizes();
    p.set_holder(a, z);
}
