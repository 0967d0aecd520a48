// The engine of a session and its calls for a line: NEW, an operation, READ. Each gives what is to be told.
ghost use Rattle.std.specs.Prelude.{◌≡◌, ◌≤◌, [], List, ℕ, length, take};
ghost use Rattle.table.specs.Limits.{cells_most};
ghost use Rattle.table.specs.View.{four, word_count};
ghost use Rattle.table.specs.declared.Form.TheVariants.{Four};
ghost use Rattle.lines.specs.Splitting.{line_most};
ghost use Rattle.answering.specs.Session.{opening, opened, operated, performing, took, reading_of};
ghost use Rattle.answering.specs.Kept.{line_room, Says, plain};

use answers::{Kind, Refusal};
use entry::Work;
use groups::Stored;
use lines::record::fill_record;
use std::marker::Model;
use table::{Cell, Shape};

// Words for the largest table, of which the first are in use. None is before a NEW succeeds.
#[derive(Clone, Drop)]
pub struct Engine {
    // public, since a caller begins a session on words of its own, and reads them after a step
    pub table: [u32; Shape::WORDS_MOST],
    pub used: usize,
}

// The words of work space for the largest table.
pub const WORK: usize = Work::WORDS * Cell::MOST;

impl Model for Engine {
    ghost Value = { List ℕ };

    ghost view = { λ e. take e.used e.table };

    ghost invariant = { λ e. e.used ≤ word_count (four (cells_most Four)) };
}

// Answer, kind and value: numbers, since `scripts::run`, `reading::read` and `setup::set_up` give those of the C interface.
#[derive(Clone, Copy)]
pub struct Said {
    pub answer: u32,
    pub kind: u32,
    pub value: u32,
}

impl Said {
    // An answer with nothing more to say.
    pub(crate) fn plain(answer: u32) -> Said
        ensures { result ≡ plain answer }
    {
        Said {
            answer,
            kind: u32::from(Kind::Nothing),
            value: 0,
        }
    }
}

impl Engine {
    pub fn new() -> Engine
        ensures { result ≡ [] }
    {
        Engine {
            table: [0; Shape::WORDS_MOST],
            used: 0,
        }
    }

    pub fn open(&mut self, n: u32) -> Said
        ensures { Says (opening self.old (opened n)) result self.new }
    {
        let s = Shape::four(n as usize);
        let words = s.words();
        if !table::fits(s, words) {
            return Said::plain(u32::from(Refusal::TableSize));
        }
        let answer = setup::set_up(&mut self.table[..words], n);
        self.used = words;
        Said::plain(answer)
    }

    pub fn operate(&mut self, work: &mut [u32; WORK], code: u32, a: u32, b: u32, v: u32) -> Said
        ensures { Says (operated (performing self.old code a b v)) result self.new }
    {
        operate(&mut self.table[..self.used], work, code, a, b, v)
    }

    pub fn read(&mut self, work: &mut [u32; WORK], h: u32, text: &[u8], page: &mut [u8]) -> Said
        requires { (length text.now ≤ line_most) × (line_room ≤ length page.old) }
        ensures { Says (took (reading_of self.old h text.now)) result self.new }
    {
        read_text(&mut self.table[..self.used], work, h, text, page)
    }
}

// One operation: a script of four words. It, READ and WRITE take words of any number, also more than an engine has.
pub fn operate(table: &mut [u32], work: &mut [u32; WORK], code: u32, a: u32, b: u32, v: u32) -> Said
    ensures { Says (operated (performing table.old code a b v)) result table.new }
{
    let script = [code, a, b, v];
    let mut results = [u32::from(Kind::Nothing), 0];
    let r = scripts::run(table, work, &script, &mut results);
    Said {
        answer: r.answer,
        kind: results[0],
        value: results[1],
    }
}

// READ's text goes through lent bytes, where it is filled.
pub fn read_text(
    table: &mut [u32],
    work: &mut [u32; WORK],
    h: u32,
    text: &[u8],
    page: &mut [u8],
) -> Said
    requires { (length text.now ≤ line_most) × (line_room ≤ length page.old) }
    ensures { Says (took (reading_of table.old h text.now)) result table.new }
{
    let n = fill_record(text, page);
    let r = reading::read(Stored::Text, table, work, h, &page[..n]);
    Said::plain(r.answer)
}
