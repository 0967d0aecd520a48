// A run of operations: the tests 1 to 5 once and in this order, then operation by operation up to the first that is
// refused.

#![tactic(auto)]

ghost use Rattle.std.specs.Prelude.{◌≡◌, ◌+◌, ◌*◌, ◌≤◌, length};
ghost use Rattle.answers.specs.Codes.{operation_words, result_words};
ghost use Rattle.answers.specs.Operations.{kind_told, value_told};
ghost use Rattle.answers.specs.Outcomes.{stopped_of};
ghost use Rattle.answers.specs.Refusals.{answer_no};
ghost use Rattle.calls.specs.Entry.{work_words, Provided};
ghost use Rattle.calls.specs.Run.{operations, script_fault, ran, ran_in};
ghost use Rattle.ops.specs.Replies.{Gives};
ghost use Rattle.pool.specs.Pool.{Sound};
ghost use Rattle.pool.specs.Script.{performed};
ghost use Rattle.scripts.specs.Midway.{operation_at, written};
ghost use Rattle.calls.specs.Promised.{Runs};
ghost use Rattle.scripts.specs.Performs.{Sized, Performs, PerformsIn};
ghost use Rattle.table.specs.declared.Form.TheVariants.{Four};
ghost use Rattle.table.specs.View.{view, Table};

use answers::{Outcome, Refusal, Stopped, Told};
use cells::lent::Pool;
use cells::seen::Seen;
use entry::Work;
use table::{Form, Shape};

// A script: for each operation its code, a, b and v.
#[derive(Clone, Copy)]
pub struct Script;

impl Script {
    pub const MOST: usize = 4096;

    pub const WORDS: usize = 4;

    // the most words of a script
    pub const WORDS_MOST: usize = Script::WORDS * Script::MOST;
}

// The results: for each operation kind and value.
#[derive(Clone, Copy)]
pub struct Results;

impl Results {
    pub const WORDS: usize = 2;
}

// Operation i of a script.
fn perform_at(p: &mut Pool, script: &[u32], i: usize) -> Result<Told, Refusal>
    requires sound { Sound p.old.pool }
    requires operation_words_in_bounds { operation_words * i + operation_words ≤ length script.now }
    ensures { Gives p.old p.new result (operation_at script.now i) }
{
    let at = Script::WORDS * i;
    ops::perform(
        p,
        script[at],
        script[at + 1],
        script[at + 2],
        script[at + 3],
    )
}

// The result words of operation i.
fn write_at(results: &mut [u32], i: usize, told: Told)
    requires { result_words * i + result_words ≤ length results.old }
    ensures { results.new ≡ written results.old i (kind_told told) (value_told told) }
{
    let at = Results::WORDS * i;
    results[at] = u32::from(told.kind());
    results[at + 1] = told.value();
}

// What is wrong with the sizes of a script and of the room for its results: SCRIPT or RESULTS.
#[tactic(auto, unfolding(calls::specs::Run::script_fault))]
fn script_fault(script: &[u32], results: &[u32]) -> Result<(), Refusal>
    ensures { answer_no result ≡ script_fault script.now results.now }
{
    if script.len() % Script::WORDS != 0 || script.len() > Script::WORDS_MOST {
        return Err(Refusal::Script);
    }
    if results.len() < Results::WORDS * (script.len() / Script::WORDS) {
        return Err(Refusal::Results);
    }
    Ok(())
}

// The operations one after another. Script and results stay two slices, as C lends them.
fn perform_each(p: &mut Pool, script: &[u32], results: &mut [u32]) -> Result<u32, Stopped>
    requires sound { Sound p.old.pool }
    requires sized { Sized script.now results.old }
    ensures { PerformsIn p.old results.old (stopped_of result) p.new results.new
        (performed p.old.pool (operations script.now)) }
{
    let n = script.len() / Script::WORDS;
    for i in 0..n {
        match perform_at(p, script, i) {
            Ok(told) => write_at(results, i, told),
            Err(refusal) => {
                return Err(Stopped {
                    refusal,
                    count: i as u32,
                });
            }
        }
    }
    Ok(n as u32)
}

// The same on a table, whose words come back: so its lender knows what they are.
fn perform_lent<'a>(
    s: Shape,
    table: &'a mut [u32],
    script: &[u32],
    results: &mut [u32],
) -> (&'a mut [u32], Result<u32, Stopped>)
    requires table { Table s table.old }
    requires sound { Sound (view s table.old) }
    requires sized { Sized script.now results.old }
    ensures name { result.0.ghost_name ≡ table.entry.ghost_name }
    ensures performs { Performs s results.old (stopped_of result.1) result.0.now results.new
        (performed (view s table.old) (operations script.now)) }
{
    let mut p = Pool::new(s, table);
    let done = perform_each(&mut p, script, results);
    (p.words(), done)
}

fn perform_all(
    s: Shape,
    table: &mut [u32],
    script: &[u32],
    results: &mut [u32],
) -> Result<u32, Stopped>
    requires table { Table s table.old }
    requires sound { Sound (view s table.old) }
    requires sized { Sized script.now results.old }
    ensures { Performs s results.old (stopped_of result) table.new results.new
        (performed (view s table.old) (operations script.now)) }
{
    let (_, done) = perform_lent(s, table, script, results);
    done
}

// On a table that the call has entered.
fn run_open(
    s: Shape,
    table: &mut [u32],
    work: &mut [u32],
    script: &[u32],
    results: &mut [u32],
) -> Result<u32, Stopped>
    requires { Provided work_words s table.old (length work.old) }
    ensures { Runs (stopped_of result) table.new work.new results.new
        (ran_in s.form table.old work.old script.now results.old) }
{
    script_fault(script, results)?;
    if !sound::is_sound(Seen::new(s, table), work) {
        return Err(Stopped::from(Refusal::Unsound));
    }
    perform_all(s, table, script, results)
}

fn enter_and_run(
    f: Form,
    table: &mut [u32],
    work: &mut [u32],
    script: &[u32],
    results: &mut [u32],
) -> Result<u32, Stopped>
    ensures { Runs (stopped_of result) table.new work.new results.new
        (ran_in f table.old work.old script.now results.old) }
{
    let s = entry::enter(f, table, work.len(), Work::WORDS)?;
    run_open(s, table, work, script, results)
}

pub fn run_form(
    f: Form,
    table: &mut [u32],
    work: &mut [u32],
    script: &[u32],
    results: &mut [u32],
) -> Outcome
    ensures { Runs result table.new work.new results.new
        (ran_in f table.old work.old script.now results.old) }
{
    Outcome::from(enter_and_run(f, table, work, script, results))
}

// On a table with four words a cell.
pub fn run(table: &mut [u32], work: &mut [u32], script: &[u32], results: &mut [u32]) -> Outcome
    ensures { Runs result table.new work.new results.new
        (ran table.old work.old script.now results.old) }
{
    run_form(Form::Four, table, work, script, results)
}
