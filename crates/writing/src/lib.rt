// Writing the list of a holder in a stored form: refused before a byte is written, or written whole.

#![tactic(auto)]

ghost use Rattle.std.specs.Prelude.{◌≡◌, List, ℕ, ◌-◌, ◌≤◌, length, replicate};
ghost use Rattle.std.proofs.Math.Seq.{paste};
ghost use Rattle.answers.specs.Outcomes.{outcome_of};
ghost use Rattle.calls.specs.Write.{write_list, write_out, writing_in};
ghost use Rattle.groups.specs.declared.Stored.TheVariants.{Text};
ghost use Rattle.table.specs.declared.Form.TheVariants.{Four};
ghost use Rattle.cells.specs.Views.{pool_of};
ghost use Rattle.text.specs.Limits.{text_most};
ghost use Rattle.text.specs.Writing.{usable};
ghost use Rattle.pool.specs.Operations.{list_at, Stands};
ghost use Rattle.calls.specs.Promised.{Writes};
ghost use Rattle.calls.specs.Entry.{work_words, Provided};
ghost use Rattle.writing.specs.RecordEnd.{record_end};

use answers::{Outcome, Refusal};
use cells::seen::Seen;
use entry::Work;
use groups::Stored;
use records::Record;
use table::{Form, Shape};

pub mod atoms;
pub mod put;
pub mod walk;

// The bytes of the whole records that fit into the room lent, and into a text.
pub fn usable(room: usize) -> usize
    ensures { result ≡ usable room }
{
    room.min(Record::TEXT) / Record::BYTES * Record::BYTES
}

// Where the record ends in which the last of n characters stands.
pub fn record_end(n: usize) -> usize
    requires { n ≤ text_most }
    ensures { result ≡ record_end n }
{
    n.div_ceil(Record::BYTES) * Record::BYTES
}

// Blanks.
pub fn fill(out: &mut [u8], from: usize, to: usize)
    requires { (from ≤ to) × (to ≤ length out.old) }
    ensures { out.new ≡ paste out.old from (replicate (to - from) 32) (to - from) }
{
    out[from..to].fill(b' ');
}

// The list at x as text, with its fill.
fn write_text(t: Seen, x: usize, out: &mut [u8]) -> Result<u32, Refusal>
    requires { Stands (pool_of t).cells x }
    ensures { (ws : List ℕ) → Writes (outcome_of result) ws out.new
        (write_list Text (list_at (pool_of t.entry).cells x) ws out.old) }
{
    let size = walk::measure(t, x, usable(out.len()))?;
    put::put(t, x, &mut out[..size]);
    let end = record_end(size);
    fill(out, size, end);
    Ok(end as u32)
}

// The list at x in either form.
fn write_list(b: Stored, t: Seen, x: usize, out: &mut [u8]) -> Result<u32, Refusal>
    requires { Stands (pool_of t).cells x }
    ensures { (ws : List ℕ) → Writes (outcome_of result) ws out.new
        (write_list b (list_at (pool_of t.entry).cells x) ws out.old) }
{
    match b {
        Stored::Text => write_text(t, x, out),
        Stored::Groups => grouping::write_list(t, x, out),
    }
}

// On a table that the call has entered.
fn write_open(
    b: Stored,
    s: Shape,
    table: &[u32],
    work: &mut [u32],
    h: u32,
    out: &mut [u8],
) -> Result<u32, Refusal>
    requires { Provided work_words s table.now (length work.old) }
    ensures { Writes (outcome_of result) work.new out.new
        (writing_in s.form b table.now work.old h out.old) }
{
    if h as usize >= s.holders() {
        return Err(Refusal::Holder);
    }
    let t = Seen::new(s, table);
    if !sound::is_sound(t, work) {
        return Err(Refusal::Unsound);
    }
    write_list(b, t, t.holder_of(h as usize), out)
}

// The entry, and the rest on the table that it opens.
fn enter_and_write(
    f: Form,
    b: Stored,
    table: &[u32],
    work: &mut [u32],
    h: u32,
    out: &mut [u8],
) -> Result<u32, Refusal>
    ensures { Writes (outcome_of result) work.new out.new
        (writing_in f b table.now work.old h out.old) }
{
    let s = entry::enter(f, table, work.len(), Work::WORDS)?;
    write_open(b, s, table, work, h, out)
}

// Every refusal comes before a byte is written: first 1, 2, 7 and 5, then 17 or 18, whichever is met first.
pub fn write_form(
    f: Form,
    b: Stored,
    table: &[u32],
    work: &mut [u32],
    h: u32,
    out: &mut [u8],
) -> Outcome
    ensures { Writes result work.new out.new
        (writing_in f b table.now work.old h out.old) }
{
    Outcome::from(enter_and_write(f, b, table, work, h, out))
}

// On a table with four words a cell.
pub fn write(b: Stored, table: &[u32], work: &mut [u32], h: u32, out: &mut [u8]) -> Outcome
    ensures { Writes result work.new out.new
        (write_out b table.now work.old h out.old) }
{
    write_form(Form::Four, b, table, work, h, out)
}
