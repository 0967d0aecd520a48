// The operations on a main level.
ghost use Rattle.std.specs.Prelude.{ℕ};
ghost use Rattle.cells.specs.Asked.{OnOne, OnTwo};
ghost use Rattle.ops.specs.Replies.{operation, Gives};
ghost use Rattle.pool.specs.Script.{INV, CINV, CONC, LENGTH};

use super::tests;
use answers::{Refusal, Told};
use cells::lent::Pool;

pub fn inv(p: &mut Pool, a: usize) -> Result<Told, Refusal>
    requires { OnOne p.old a }
    ensures { (b v : ℕ) → Gives p.old p.new result (operation INV a b v) }
{
    if levels::walk::any_shared(p.seen(), a) {
        return Err(Refusal::Shared);
    }
    levels::turn::inv(p, a);
    Ok(Told::Nothing)
}

pub fn cinv(p: &mut Pool, a: usize, b: usize) -> Result<Told, Refusal>
    requires { OnTwo p.old a b }
    ensures { (v : ℕ) → Gives p.old p.new result (operation CINV a b v) }
{
    if tests::is_occupied(p.seen(), b) {
        return Err(Refusal::Occupied);
    }
    if !levels::walk::fits(p.seen(), a) {
        return Err(Refusal::NoRoom);
    }
    levels::copy::cinv(p, a, b);
    Ok(Told::Nothing)
}

pub fn conc(p: &mut Pool, a: usize, b: usize) -> Result<Told, Refusal>
    requires { OnTwo p.old a b }
    ensures { (v : ℕ) → Gives p.old p.new result (operation CONC a b v) }
{
    if tests::is_null(p.seen(), b) {
        return Ok(Told::Nothing);
    }
    let Some(last) = levels::walk::end_of(p.seen(), a) else {
        return Err(Refusal::Shared);
    };
    levels::join::conc(p, a, b, last);
    Ok(Told::Nothing)
}

pub fn length(p: &Pool, a: usize) -> Result<Told, Refusal>
    requires { OnOne p.now a }
    ensures { (b v : ℕ) → Gives p.now p.now result (operation LENGTH a b v) }
{
    let n = levels::walk::length(p.seen(), a);
    Ok(Told::Number(n as u32))
}
