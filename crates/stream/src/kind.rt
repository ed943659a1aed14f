// The kinds of records.
ghost use Rattle.std.specs.Prelude.{◌≡◌};
ghost use Rattle.stream.specs.Kind.{kind_of};

// What a record is about. The table at the head of specs/Words.antt has the number and the payload of each kind.
// Kept: `Unknown` and not an Option of a kind, so that what is asked of a kind has its answer for every number.
#[derive(Clone, Copy, Debug, PartialEq, Eq)]
pub enum Kind {
    Table,
    Frame,
    Settings,
    Fresh,
    State,
    Call,
    Run,
    Open,
    Slot,
    Sweep,
    Complete,
    // No kind: a record with another number can't be read.
    Unknown,
}

impl From<u32> for Kind {
    ghost from_gives = { λ number kind. kind ≡ kind_of number };

    #[tactic(auto, unfolding(crate::specs::Kind::kind_of))]
    fn from(number: u32) -> Kind {
        match number {
            1 => Kind::Table,
            2 => Kind::Frame,
            3 => Kind::Settings,
            4 => Kind::Fresh,
            5 => Kind::State,
            6 => Kind::Call,
            7 => Kind::Run,
            8 => Kind::Open,
            9 => Kind::Slot,
            10 => Kind::Sweep,
            11 => Kind::Complete,
            _ => Kind::Unknown,
        }
    }
}
