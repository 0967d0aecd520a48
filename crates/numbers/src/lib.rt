// One number in groups of seven bits: read where it begins, measured, and put in its place.

#![tactic(auto)]

ghost use Rattle.std.specs.Prelude.{IsSome, ◌≡◌, ◌+◌, ◌≤◌, ◌<◌, length, get_or};
ghost use Rattle.std.proofs.Math.Seq.{paste};
ghost use Rattle.groups.specs.Groups.{numbers_end, number};
ghost use Rattle.numbers.specs.Numbers.{number_in, ended};

// A number, and the place behind it.
#[derive(Clone, Copy)]
pub struct Number {
    pub value: u64,
    pub end: usize,
}

impl Number {
    // Numbers lie below 2^33, which `specs/Tied` ties to the number of the definitions.
    pub const END: u64 = 8589934592;
}

// What groups come to, the last of them, and the place behind it.
#[derive(Clone, Copy)]
struct Sum {
    value: u64,
    last: u64,
    end: usize,
}

// A last group of 0 is one too many.
fn judged(sum: Sum) -> Option<Number>
    ensures { result ≡ ended sum.value sum.last sum.end }
{
    if sum.last == 0 || sum.value >= Number::END {
        return None;
    }
    Some(Number {
        value: sum.value,
        end: sum.end,
    })
}

// The byte at a place. Behind the last it is 0, which as a last group is one too many.
fn byte(bytes: &[u8], at: usize) -> u64
    ensures { (result ≡ get_or bytes.now at 0) × (result < 256) }
{
    u64::from(bytes.get(at).copied().unwrap_or(0))
}

// A number whose first group is not the last. Whether a further group belongs to it is a 0 or 1 in a sum, and no branch:
// among numbers of mixed sizes it would be mispredicted. With a sixth group the sum is 2^33 or more.
fn several(bytes: &[u8], at: usize) -> Sum
    requires { 128 ≤ get_or bytes.now at 0 }
    ensures { ended result.value result.last result.end ≡ number_in bytes.now at }
{
    let first = byte(bytes, at);
    let second = byte(bytes, at + 1);
    let third = byte(bytes, at + 2);
    let fourth = byte(bytes, at + 3);
    let has_third = second / 128;
    // half of the sum of two such is their product, and quicker
    let has_fourth = (has_third + third / 128) / 2;
    let has_fifth = (has_fourth + fourth / 128) / 2;
    let last = at + 1 + (has_third + has_fourth + has_fifth) as usize;
    let low = first % 128 + second % 128 * 128;
    let middle = has_third * (third % 128 * 16384) + has_fourth * (fourth % 128 * 2097152);
    let high = has_fifth * (byte(bytes, at + 4) * 268435456);
    Sum {
        value: low + middle + high,
        last: byte(bytes, last),
        end: last + 1,
    }
}

// The number that begins at a place. Most are one group.
pub fn number_at(bytes: &[u8], at: usize) -> Option<Number>
    ensures { result ≡ number_in bytes.now at }
{
    let group = *bytes.get(at)?;
    if group < 128 {
        return Some(Number {
            value: u64::from(group),
            end: at + 1,
        });
    }
    judged(several(bytes, at))
}

// The number that is known to begin at a place. By `number_at` and `unwrap`, which tests again, reading groups takes a
// seventh longer.
pub fn number_there(bytes: &[u8], at: usize) -> Number
    requires { IsSome (number_in bytes.now at) }
    ensures { Some result ≡ number_in bytes.now at }
{
    let group = bytes[at];
    if group < 128 {
        return Number {
            value: u64::from(group),
            end: at + 1,
        };
    }
    let sum = several(bytes, at);
    Number {
        value: sum.value,
        end: sum.end,
    }
}

// The bytes of a number, by its highest bit: without a branch that a run of numbers would mislead. Numbers below 2^33 have no
// type of their own: who puts one makes it there by a doubling, and a type would say no more.
pub fn size(v: u64) -> usize
    requires { v < numbers_end }
    ensures { result ≡ length (number v) }
{
    // seven bits to a group, rounded up, of 0 as of 1: `div_ceil` would look at the remainder too, and is slower
    let odd = v / 2 * 2 + 1;
    ((70 - odd.leading_zeros()) / 7) as usize
}

// A number in its place; what is given is the place behind it. No `for`: it would need the size first, and the last group
// is put in another way than those before it.
pub fn put(out: &mut [u8], at: usize, v: u64) -> usize
    requires v_lt_numbers_end { v < numbers_end }
    requires v_in_bounds { at + length (number v) ≤ length out.old }
    ensures value { result ≡ at + length (number v) }
    ensures out_after { out.new ≡ paste out.old at (number v) (length (number v)) }
{
    let mut i = at;
    let mut left = v;
    while left >= 128 {
        out[i] = (128 + left % 128) as u8;
        left /= 128;
        i += 1;
    }
    out[i] = left as u8;
    i + 1
}
