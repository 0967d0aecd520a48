// The operations at the head of a list.
ghost use Rattle.std.specs.Prelude.{ℕ};
ghost use Rattle.cells.specs.Asked.{OnOne, OnTwo};
ghost use Rattle.ops.specs.Replies.{operation, Gives};
ghost use Rattle.pool.specs.Script.{PFA, PFL, DECAP, BORROW, FIRST};

use super::tests;
use answers::{Refusal, Told};
use cells::lent::Pool;

pub fn pfa(p: &mut Pool, a: usize, v: u32) -> Result<Told, Refusal>
    requires { OnOne p.old a }
    ensures { (b : ℕ) → Gives p.old p.new result (operation PFA a b v) }
{
    if tests::is_full(p.seen()) {
        return Err(Refusal::NoRoom);
    }
    heads::pfa(p, a, v);
    Ok(Told::Nothing)
}

pub fn pfl(p: &mut Pool, a: usize, b: usize) -> Result<Told, Refusal>
    requires { OnTwo p.old a b }
    ensures { (v : ℕ) → Gives p.old p.new result (operation PFL a b v) }
{
    if tests::is_full(p.seen()) {
        return Err(Refusal::NoRoom);
    }
    heads::pfl(p, a, b);
    Ok(Told::Nothing)
}

pub fn decap(p: &mut Pool, a: usize, b: usize) -> Result<Told, Refusal>
    requires { OnTwo p.old a b }
    ensures { (v : ℕ) → Gives p.old p.new result (operation DECAP a b v) }
{
    tests::parting(p.seen(), a, b)?;
    let x = p.holder_of(a);
    if p.count_of(x) > 1 {
        return Err(Refusal::Shared);
    }
    let e = heads::first(p.seen(), a);
    heads::decap(p, a, b);
    Ok(e)
}

pub fn borrow(p: &mut Pool, a: usize, b: usize) -> Result<Told, Refusal>
    requires { OnTwo p.old a b }
    ensures { (v : ℕ) → Gives p.old p.new result (operation BORROW a b v) }
{
    if tests::is_occupied(p.seen(), b) {
        return Err(Refusal::Occupied);
    }
    heads::borrow(p, a, b);
    Ok(Told::Nothing)
}

pub fn first(p: &Pool, a: usize) -> Result<Told, Refusal>
    requires { OnOne p.now a }
    ensures { (b v : ℕ) → Gives p.now p.now result (operation FIRST a b v) }
{
    if tests::is_null(p.seen(), a) {
        return Err(Refusal::Null);
    }
    Ok(heads::first(p.seen(), a))
}
