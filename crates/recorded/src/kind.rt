// The kinds of calls, by the numbers that they have in the file and in what is printed.
#[derive(Clone, Copy)]
pub enum Kind {
    Verdict = 1,
    List = 2,
    Direction = 3,
    Catalogue = 4,
    Ranking = 5,
    Search = 6,
    Attitude = 7,
    Chain = 8,
    Reason = 9,
    Index = 10,
    RankingByIndex = 11,
    ChainByIndex = 12,
    Burst = 13,
    Cosines = 14,
    Turned = 15,
    Lens = 16,
    Compare = 17,
    Rival = 18,
    Cut = 19,
    GuiderStart = 20,
    GuiderFrame = 21,
}

impl From<u64> for Kind {
    // A number that is no other kind's is taken for that of a reason.
    fn from(number: u64) -> Kind {
        match number {
            1 => Kind::Verdict,
            2 => Kind::List,
            3 => Kind::Direction,
            4 => Kind::Catalogue,
            5 => Kind::Ranking,
            6 => Kind::Search,
            7 => Kind::Attitude,
            8 => Kind::Chain,
            10 => Kind::Index,
            11 => Kind::RankingByIndex,
            12 => Kind::ChainByIndex,
            13 => Kind::Burst,
            14 => Kind::Cosines,
            15 => Kind::Turned,
            16 => Kind::Lens,
            17 => Kind::Compare,
            18 => Kind::Rival,
            19 => Kind::Cut,
            20 => Kind::GuiderStart,
            21 => Kind::GuiderFrame,
            _ => Kind::Reason,
        }
    }
}
