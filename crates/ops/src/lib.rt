// One operation: its tests in the order of the answers 6 to 12, before anything is changed, and then its effect.

#![tactic(auto)]

ghost use Rattle.std.specs.Prelude.{◌≡◌, ℕ, IfOk};
ghost use Rattle.answers.specs.Operations.{code_no};
ghost use Rattle.answers.specs.Refusals.{answer_no};
ghost use Rattle.ops.specs.Replies.{operation, Gives};
ghost use Rattle.ops.specs.Tests.{early};
ghost use Rattle.pool.specs.Pool.{Sound};
ghost use Rattle.pool.specs.Script.{uses_b};
ghost use Rattle.pool.specs.Laws.ScriptLaws.{Opened};
ghost use Rattle.cells.specs.Lent.{Sized};

pub mod drop;
pub mod head;
pub mod level;
pub mod tests;

use answers::{Code, Refusal, Told};
use cells::lent::Pool;

// Whether an operation uses b.
fn uses_b(code: Code) -> bool
    ensures { result ≡ uses_b (code_no code) }
{
    matches!(
        code,
        Code::Pfl | Code::Decap | Code::Adv | Code::Borrow | Code::Cinv | Code::Conc
    )
}

// The tests that look at the words of the operation alone, where there are n holders. Gives the operation that the
// code names.
#[tactic(auto, unfolding(crate::specs::Tests::early))]
fn early(n: usize, code: u32, a: u32, b: u32) -> Result<Code, Refusal>
    ensures answer { (v : ℕ) → answer_no result ≡ early n (operation code a b v) }
    ensures named { IfOk result (λ c. code_no c ≡ code) }
{
    let named = Code::try_from(code)?;
    let two = uses_b(named);
    if a as usize >= n || (two && b as usize >= n) {
        return Err(Refusal::Holder);
    }
    if two && a == b {
        return Err(Refusal::Same);
    }
    Ok(named)
}

// The operation that the code names, its words in order. A match and no table of functions: the operations take different
// words.
fn dispatch(p: &mut Pool, code: Code, a: usize, b: usize, v: u32) -> Result<Told, Refusal>
    requires sized { Sized p.old }
    requires sound { Sound p.old.pool }
    requires opened { Opened p.old.pool (operation (code_no code) a b v) }
    ensures { Gives p.old p.new result (operation (code_no code) a b v) }
{
    match code {
        Code::Pfa => head::pfa(p, a, v),
        Code::Pfl => head::pfl(p, a, b),
        Code::Decap => head::decap(p, a, b),
        Code::Adv => drop::adv(p, a, b),
        Code::Borrow => head::borrow(p, a, b),
        Code::Erase => drop::erase(p, a),
        Code::Inv => level::inv(p, a),
        Code::Cinv => level::cinv(p, a, b),
        Code::Conc => level::conc(p, a, b),
        Code::First => head::first(p, a),
        Code::Length => level::length(p, a),
    }
}

// One operation on a sound pool: any code, any words.
pub fn perform(p: &mut Pool, code: u32, a: u32, b: u32, v: u32) -> Result<Told, Refusal>
    requires { Sound p.old.pool }
    ensures { Gives p.old p.new result (operation code a b v) }
{
    p.sizes();
    let named = early(p.holders(), code, a, b)?;
    dispatch(p, named, a as usize, b as usize, v)
}
