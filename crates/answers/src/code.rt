// The codes of the operations.
ghost use Rattle.std.specs.Prelude.{◌≡◌};
ghost use Rattle.answers.specs.Operations.{code_no, Decodes};

use crate::Refusal;

#[derive(Clone, Copy, Debug, PartialEq, Eq)]
pub enum Code {
    Pfa = 1,
    Pfl,
    Decap,
    Adv,
    Borrow,
    Erase,
    Inv,
    Cinv,
    Conc,
    First,
    Length,
}

impl Code {
    // the codes end here
    pub const LAST: u32 = 11;
}

// The operation of a code, if there is one.
impl TryFrom<u32> for Code {
    type Error = Refusal;

    ghost try_from_gives = { Decodes };

    fn try_from(code: u32) -> Result<Code, Refusal> {
        match code {
            1 => Ok(Code::Pfa),
            2 => Ok(Code::Pfl),
            3 => Ok(Code::Decap),
            4 => Ok(Code::Adv),
            5 => Ok(Code::Borrow),
            6 => Ok(Code::Erase),
            7 => Ok(Code::Inv),
            8 => Ok(Code::Cinv),
            9 => Ok(Code::Conc),
            10 => Ok(Code::First),
            11 => Ok(Code::Length),
            _ => Err(Refusal::Code),
        }
    }
}

impl From<Code> for u32 {
    ghost from_gives = { λ c n. n ≡ code_no c };

    fn from(c: Code) -> u32 {
        c as u32
    }
}
