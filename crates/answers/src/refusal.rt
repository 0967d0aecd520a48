// Why a call is refused: the rows of document 01, by their numbers.
ghost use Rattle.std.specs.Prelude.{◌≡◌};
ghost use Rattle.answers.specs.Refusals.{refusal_no};

#[derive(Clone, Copy, Debug, PartialEq, Eq)]
pub enum Refusal {
    TableSize = 1,
    WorkSpace,
    Script,
    Results,
    Unsound,
    Code,
    Holder,
    Same,
    Null,
    Occupied,
    Shared,
    NoRoom,
    TextSize,
    End,
    NotAList,
    Atom,
    Deep,
    Output,
    Groups,
}

impl From<Refusal> for u32 {
    ghost from_gives = { λ r n. n ≡ refusal_no r };

    fn from(r: Refusal) -> u32 {
        r as u32
    }
}
