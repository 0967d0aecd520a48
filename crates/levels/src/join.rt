// CONC: one main level joined after another.
ghost use Rattle.std.specs.Prelude.{◌≡◌};
ghost use Rattle.cells.specs.Asked.{OnTwo};
ghost use Rattle.cells.specs.Lent.{on};
ghost use Rattle.levels.specs.Joining.{Joins};
ghost use Rattle.pool.specs.Operations.{conc};

use cells::lent::Pool;

// The list of b after that of a, whose last cell is known from the walk that tested it.
#[inline(always)]
pub fn conc(p: &mut Pool, a: usize, b: usize, last: usize)
    requires asked { OnTwo p.old a b }
    requires joins { Joins p.old.pool a b last }
    ensures { p.new ≡ on (λ q. conc q a b) p.old }
{
    let y = p.holder_of(b);
    if y == 0 {
        return;
    }
    if p.holder_of(a) == 0 {
        p.set_holder(a, y);
    } else {
        p.set_next(last, y);
    }
    p.set_holder(b, 0);
}
