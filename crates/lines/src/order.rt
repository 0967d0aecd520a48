// What a line asks for: the line's start is compared with fixed names, then come the numbers.
ghost use Rattle.std.specs.Prelude.{◌≡◌, None};
ghost use Rattle.answers.specs.Operations.{code_no};
ghost use Rattle.lines.specs.Numbers.{number_in, parted, ended};
ghost use Rattle.lines.specs.Commands.{name_or, name_of_two, name_of_one, with_two, with_one, reading_in, command};
ghost use Rattle.lines.specs.Meaning.{named, meant};

use crate::number::{last_number, number_and_blank};
use answers::Code;

// READ's text is a part of the line.
#[derive(Clone, Copy)]
pub enum Order<'a> {
    New(u32),
    Operation(Code, u32, u32, u32),
    Reading(u32, &'a [u8]),
    Writing(u32),
}

// The operation, and what stands behind its name and blank, where the line starts with them.
fn name<'a>(line: &'a [u8], name: &[u8], code: Code) -> Option<(Code, &'a [u8])>
    ensures { named result ≡ name_or name.now (code_no code) line.now None }
{
    Some((code, line.strip_prefix(name)?))
}

// The operations that take two numbers.
fn name_of_two(line: &[u8]) -> Option<(Code, &[u8])>
    ensures { named result ≡ name_of_two line.now }
{
    name(line, b"PFA ", Code::Pfa)
        .or_else(|| name(line, b"PFL ", Code::Pfl))
        .or_else(|| name(line, b"DECAP ", Code::Decap))
        .or_else(|| name(line, b"ADV ", Code::Adv))
        .or_else(|| name(line, b"BORROW ", Code::Borrow))
        .or_else(|| name(line, b"CINV ", Code::Cinv))
        .or_else(|| name(line, b"CONC ", Code::Conc))
}

// The operations that take one number.
fn name_of_one(line: &[u8]) -> Option<(Code, &[u8])>
    ensures { named result ≡ name_of_one line.now }
{
    name(line, b"ERASE ", Code::Erase)
        .or_else(|| name(line, b"INV ", Code::Inv))
        .or_else(|| name(line, b"FIRST ", Code::First))
        .or_else(|| name(line, b"LENGTH ", Code::Length))
}

// Two numbers: a, and v for PFA or b for the others.
fn two(line: &[u8], code: Code) -> Option<Order<'_>>
    ensures { meant result ≡ with_two (code_no code) (parted (number_in line.now)) }
{
    let (a, rest) = number_and_blank(line)?;
    let x = last_number(rest)?;
    Some(match code {
        Code::Pfa => Order::Operation(code, a, 0, x),
        _ => Order::Operation(code, a, x, 0),
    })
}

fn one(line: &[u8], code: Code) -> Option<Order<'_>>
    ensures { meant result ≡ with_one (code_no code) (ended (number_in line.now)) }
{
    Some(Order::Operation(code, last_number(line)?, 0, 0))
}

fn reading(line: &[u8]) -> Option<Order<'_>>
    ensures { meant result ≡ reading_in (parted (number_in line.now)) }
{
    let (h, text) = number_and_blank(line)?;
    if text.is_empty() {
        return None;
    }
    Some(Order::Reading(h, text))
}

// What a line of at most 200 bytes asks for; nothing where it is malformed.
pub fn parse(line: &[u8]) -> Option<Order<'_>>
    ensures { meant result ≡ command line.now }
{
    if let Some(rest) = line.strip_prefix(b"NEW ") {
        return Some(Order::New(last_number(rest)?));
    }
    if let Some(rest) = line.strip_prefix(b"READ ") {
        return reading(rest);
    }
    if let Some(rest) = line.strip_prefix(b"WRITE ") {
        return Some(Order::Writing(last_number(rest)?));
    }
    if let Some((code, rest)) = name_of_two(line) {
        return two(rest, code);
    }
    let (code, rest) = name_of_one(line)?;
    one(rest, code)
}
