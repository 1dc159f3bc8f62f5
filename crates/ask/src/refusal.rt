// Why a call is refused: the first question that is answered no.
ghost use Rattle.std.specs.Prelude.{◌≡◌};
ghost use Rattle.ask.specs.Refusals.{refusal_number};

#[derive(Clone, Copy, PartialEq, Eq, Debug)]
pub enum Refusal {
    // 1
    Text,
    // 2
    Lattice,
    // 3
    GridKind,
    // 4
    Mesh,
    // 5
    Addresses,
    // 6
    Map,
    // 7
    Table,
    // 8
    TpType,
    // 9
    Counts,
    // 10
    GridPoints,
    // 11
    Frequencies,
    // 12
    Lengths,
    // 13
    Marks,
    // 14
    NotOnSheet,
    // 15
    AlreadyAveraged,
    // 16
    UnequalBands,
    // 17
    DegenerateIds,
    // 18
    NotComputed,
    // 19
    Weights,
    // 20
    TallyFull,
    // 21
    Worker,
    // 22
    Listing,
    // 23
    TableRows,
    // 24
    Faces,
    // 25
    Cones,
}

impl Refusal {
    // The question's number in the specification.
    pub fn number(self) -> u64
        ensures { result ≡ refusal_number self }
    {
        match self {
            Refusal::Text => 1,
            Refusal::Lattice => 2,
            Refusal::GridKind => 3,
            Refusal::Mesh => 4,
            Refusal::Addresses => 5,
            Refusal::Map => 6,
            Refusal::Table => 7,
            Refusal::TpType => 8,
            Refusal::Counts => 9,
            Refusal::GridPoints => 10,
            Refusal::Frequencies => 11,
            Refusal::Lengths => 12,
            Refusal::Marks => 13,
            Refusal::NotOnSheet => 14,
            Refusal::AlreadyAveraged => 15,
            Refusal::UnequalBands => 16,
            Refusal::DegenerateIds => 17,
            Refusal::NotComputed => 18,
            Refusal::Weights => 19,
            Refusal::TallyFull => 20,
            Refusal::Worker => 21,
            Refusal::Listing => 22,
            Refusal::TableRows => 23,
            Refusal::Faces => 24,
            Refusal::Cones => 25,
        }
    }
}
