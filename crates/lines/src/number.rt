// Decimal numbers at the start of bytes. Each function gives what stands behind the number as a part of the bytes lent.
ghost use Rattle.std.specs.Prelude.{◌≡◌, length};
ghost use Rattle.lines.specs.Numbers.{digits, number_in, parted, ended};
ghost use Rattle.lines.specs.Meaning.{found, found_last};

#[derive(Clone, Copy)]
pub struct Digits;

impl Digits {
    pub const MOST: usize = 10;

    // the largest number, which `specs/Tied` ties to the numbers of the definitions
    pub const LARGEST: u64 = 4294967295;
}

// How many digits the bytes start with.
fn digit_count(line: &[u8]) -> usize
    ensures { result ≡ length (digits line.now) }
{
    line.iter().take_while(|b| b.is_ascii_digit()).count()
}

// The number that the bytes start with.
fn number(line: &[u8]) -> Option<(u32, &[u8])>
    ensures { found result ≡ number_in line.now }
{
    let (digits, rest) = line.split_at(digit_count(line));
    if digits.is_empty() || digits.len() > Digits::MOST {
        return None;
    }
    let mut value: u32 = 0;
    for b in digits {
        value = value.checked_mul(10)?.checked_add(u32::from(*b - b'0'))?;
    }
    Some((value, rest))
}

// A number with a blank behind it; the rest is behind the blank.
pub fn number_and_blank(line: &[u8]) -> Option<(u32, &[u8])>
    ensures { found result ≡ parted (number_in line.now) }
{
    let (value, rest) = number(line)?;
    Some((value, rest.strip_prefix(b" ")?))
}

// A number with nothing behind it.
pub fn last_number(line: &[u8]) -> Option<u32>
    ensures { found_last result ≡ ended (number_in line.now) }
{
    let (value, rest) = number(line)?;
    rest.is_empty().then_some(value)
}
