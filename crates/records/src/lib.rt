// The records of a text before it is read as a list: whole ones, not too many, and not blanks alone.

#![tactic(auto)]

ghost use Rattle.std.specs.Prelude.{◌≡◌, ◌%◌, length, drop};
ghost use Rattle.answers.specs.Refusals.{answer_no};
ghost use Rattle.text.specs.Limits.{record_bytes};
ghost use Rattle.text.specs.Text.{at_end, size_fault};
ghost use Rattle.records.specs.Differing.{Differing};

use answers::Refusal;

// Constants, which `specs/Tied` ties to the numbers of the definitions.
#[derive(Clone, Copy)]
pub struct Record;

impl Record {
    pub const BYTES: usize = 72;

    // records in a text
    pub const MOST: usize = 910;

    // bytes in a text
    pub const TEXT: usize = Record::BYTES * Record::MOST;
}

// 0 exactly if the record is blank. It goes on behind a byte that is no blank, so that the compiler can look at many bytes
// at once.
fn differing(bytes: &[u8]) -> u8
    ensures { Differing bytes.now result }
{
    let mut bits = 0;
    for b in bytes {
        bits |= *b ^ b' ';
    }
    bits
}

// A first byte that is no blank costs one look.
fn is_blank(bytes: &[u8]) -> bool
    requires { length bytes.now ≡ record_bytes }
    ensures { result ≡ at_end bytes.now }
{
    bytes[0] == b' ' && differing(bytes) == 0
}

// Nothing but blanks in records.
fn all_blank(records: &[u8]) -> bool
    requires { length records.now % record_bytes ≡ 0 }
    ensures { result ≡ at_end records.now }
{
    for record in records.chunks_exact(Record::BYTES) {
        if !is_blank(record) {
            return false;
        }
    }
    true
}

// Nothing but blanks from `from` on, which begins a record, or is the end or lies behind it.
pub fn at_end(text: &[u8], from: usize) -> bool
    requires record_bytes_len { length text.now % record_bytes ≡ 0 }
    requires record_bytes_value { from % record_bytes ≡ 0 }
    ensures { result ≡ at_end (drop from text.now) }
{
    match text.get(from..) {
        Some(left) => all_blank(left),
        None => true,
    }
}

// What is wrong with a text before it is read as a list: TEXT SIZE or END.
pub fn size_fault(text: &[u8]) -> Result<(), Refusal>
    ensures { answer_no result ≡ size_fault text.now }
{
    if text.len() % Record::BYTES != 0 || text.len() > Record::TEXT {
        return Err(Refusal::TextSize);
    }
    if at_end(text, 0) {
        return Err(Refusal::End);
    }
    Ok(())
}
