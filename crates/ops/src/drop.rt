// The operations that drop an arrow.
ghost use Rattle.std.specs.Prelude.{ℕ};
ghost use Rattle.cells.specs.Asked.{OnOne, OnTwo};
ghost use Rattle.ops.specs.Replies.{operation, Gives};
ghost use Rattle.pool.specs.Script.{ADV, ERASE};

use super::tests;
use answers::{Refusal, Told};
use cells::lent::Pool;

pub fn adv(p: &mut Pool, a: usize, b: usize) -> Result<Told, Refusal>
    requires { OnTwo p.old a b }
    ensures { (v : ℕ) → Gives p.old p.new result (operation ADV a b v) }
{
    tests::parting(p.seen(), a, b)?;
    let e = heads::first(p.seen(), a);
    erasing::adv(p, a, b);
    Ok(e)
}

pub fn erase(p: &mut Pool, a: usize) -> Result<Told, Refusal>
    requires { OnOne p.old a }
    ensures { (b v : ℕ) → Gives p.old p.new result (operation ERASE a b v) }
{
    let n = erasing::erase(p, a);
    Ok(Told::Number(n as u32))
}
