// The tests that look at the holders and at the head of the free chain: 9, 10, and 12 where one cell is asked for.
ghost use Rattle.std.specs.Prelude.{◌≡◌, not, ◌<◌, eqb, ltb};
ghost use Rattle.answers.specs.Refusals.{answer_no};
ghost use Rattle.cells.specs.Views.{pool_of};
ghost use Rattle.ops.specs.Tests.{parting};
ghost use Rattle.pool.specs.Pool.{holder, frees, Sound};
ghost use Rattle.table.specs.View.{holder_count};

use answers::Refusal;
use cells::seen::Seen;

pub fn is_null(t: Seen, a: usize) -> bool
    requires { a < holder_count t.shape }
    ensures { result ≡ eqb (holder (pool_of t.entry) a) 0 }
{
    t.holder_of(a) == 0
}

pub fn is_occupied(t: Seen, b: usize) -> bool
    requires { b < holder_count t.shape }
    ensures { result ≡ not (eqb (holder (pool_of t.entry) b) 0) }
{
    t.holder_of(b) != 0
}

// Both, where the first element of a goes to b: DECAP and ADV.
#[tactic(auto, unfolding(crate::specs::Tests::parting))]
pub fn parting(t: Seen, a: usize, b: usize) -> Result<(), Refusal>
    requires { (a < holder_count t.shape) × (b < holder_count t.shape) }
    ensures { answer_no result ≡ parting (pool_of t.entry) a b }
{
    if is_null(t, a) {
        return Err(Refusal::Null);
    }
    if is_occupied(t, b) {
        return Err(Refusal::Occupied);
    }
    Ok(())
}

// Whether no cell is free.
#[tactic(auto, using(crate::specs::Laws::TestLaws::one_free))]
pub fn is_full(t: Seen) -> bool
    requires { Sound (pool_of t) }
    ensures { result ≡ ltb (frees (pool_of t.entry).cells) 1 }
{
    t.free_head() == 0
}
