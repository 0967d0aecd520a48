// Reading a stored list into a holder: the tests in their order, and a change only when all are passed.

#![tactic(auto)]

ghost use Rattle.std.specs.Prelude.{◌≡◌, List, ℕ, ◌<◌, length};
ghost use Rattle.answers.specs.Answers.{DONE};
ghost use Rattle.answers.specs.Outcomes.{outcome_of};
ghost use Rattle.calls.specs.Entry.{work_words, Provided, used};
ghost use Rattle.calls.specs.Read.{read_into, read_in, reading_in};
ghost use Rattle.pool.specs.Pool.{frees, Sound};
ghost use Rattle.table.specs.declared.Form.TheVariants.{Four};
ghost use Rattle.table.specs.View.{holder_count, view, Table};
ghost use Rattle.groups.specs.Stored.{size_fault};
ghost use Rattle.calls.specs.Promised.{Reads};

use answers::{Outcome, Refusal};
use cells::seen::Seen;
use entry::Work;
use groups::Stored;
use table::{Form, Shape};

pub mod build;
pub mod digits;
pub mod next;
pub mod stored;

// A sound table, of which so many cells are free, and bytes of a right size.
fn into(
    b: Stored,
    s: Shape,
    t: &mut [u32],
    free: usize,
    h: usize,
    bytes: &[u8],
) -> Result<u32, Refusal>
    requires table { Table s t.old }
    requires h_bound { h < holder_count s }
    requires sound { Sound (view s t.old) }
    requires free_value { free ≡ frees (view s t.old).cells }
    requires bytes_value { size_fault b bytes.now ≡ DONE }
    ensures { (ws : List ℕ) → Reads (outcome_of result) t.new (used s.form t.old ws)
        (read_into s.form b t.old ws h bytes.now) }
{
    if table::holder_of(s, t, h) != 0 {
        return Err(Refusal::Occupied);
    }
    let found = stored::scan(b, bytes)?;
    if found.extent as usize > free {
        return Err(Refusal::NoRoom);
    }
    stored::build(b, s, t, h, bytes);
    Ok(found.taken)
}

// On a table that the call has entered.
fn read_open(
    b: Stored,
    s: Shape,
    t: &mut [u32],
    w: &mut [u32],
    h: u32,
    bytes: &[u8],
) -> Result<u32, Refusal>
    requires { Provided work_words s t.old (length w.old) }
    ensures { Reads (outcome_of result) t.new w.new
        (reading_in s.form b t.old w.old h bytes.now) }
{
    let a = h as usize;
    if a >= s.holders() {
        return Err(Refusal::Holder);
    }
    stored::size_fault(b, bytes)?;
    let found = sound::examine(Seen::new(s, t), w);
    if !found.sound {
        return Err(Refusal::Unsound);
    }
    into(b, s, t, found.free, a, bytes)
}

fn enter_and_read(
    f: Form,
    b: Stored,
    t: &mut [u32],
    w: &mut [u32],
    h: u32,
    bytes: &[u8],
) -> Result<u32, Refusal>
    ensures { Reads (outcome_of result) t.new w.new
        (reading_in f b t.old w.old h bytes.now) }
{
    let s = entry::enter(f, t, w.len(), Work::WORDS)?;
    read_open(b, s, t, w, h, bytes)
}

pub fn read_form(f: Form, b: Stored, t: &mut [u32], w: &mut [u32], h: u32, bytes: &[u8]) -> Outcome
    ensures { Reads result t.new w.new
        (reading_in f b t.old w.old h bytes.now) }
{
    Outcome::from(enter_and_read(f, b, t, w, h, bytes))
}

// On a table with four words a cell.
pub fn read(b: Stored, t: &mut [u32], w: &mut [u32], h: u32, bytes: &[u8]) -> Outcome
    ensures { Reads result t.new w.new
        (read_in b t.old w.old h bytes.now) }
{
    read_form(Form::Four, b, t, w, h, bytes)
}
