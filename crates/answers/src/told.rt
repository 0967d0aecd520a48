// What an operation tells: its two result words, kind and value.
ghost use Rattle.std.specs.Prelude.{◌≡◌};
ghost use Rattle.answers.specs.Operations.{kind_no, kind_told, value_told};

// The kinds of results.
#[derive(Clone, Copy, Debug, PartialEq, Eq)]
pub enum Kind {
    Atom,
    List,
    Number,
    Nothing,
}

impl From<Kind> for u32 {
    ghost from_gives = { λ k n. n ≡ kind_no k };

    fn from(k: Kind) -> u32 {
        k as u32
    }
}

// An atom, a list, a number, or nothing to say.
#[derive(Clone, Copy, Debug, PartialEq, Eq)]
pub enum Told {
    Atom(u32),
    List,
    Number(u32),
    Nothing,
}

impl Told {
    pub fn kind(self) -> Kind
        ensures { kind_no result ≡ kind_told self }
    {
        match self {
            Told::Atom(_) => Kind::Atom,
            Told::List => Kind::List,
            Told::Number(_) => Kind::Number,
            Told::Nothing => Kind::Nothing,
        }
    }

    pub fn value(self) -> u32
        ensures { result ≡ value_told self }
    {
        match self {
            Told::Atom(v) => v,
            Told::List => 0,
            Told::Number(n) => n,
            Told::Nothing => 0,
        }
    }
}
