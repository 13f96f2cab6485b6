//! The columns of a question, by their names.
ghost use Rattle.std.specs.Prelude.{◌≡◌};
ghost use Rattle.suit_question.specs.Columns.{IsColumn, column_numbered};

/// How many columns a question has.
pub const COLUMNS: u8 = 13;

/// One of the thirteen values that make a question, in the order of their numbers, from 1 on.
#[derive(Clone, Copy, Debug, PartialEq, Eq)]
pub enum Column {
    /// North's cards.
    North,
    /// South's cards.
    South,
    /// Where the lead stands first.
    Start,
    /// Where the lead stands after a trick that the defenders won.
    Regain,
    /// The entries to North's hand.
    EntriesN,
    /// The entries to South's hand.
    EntriesS,
    /// How many cards of West's are not known.
    VacantW,
    /// How many cards of East's are not known.
    VacantE,
    /// The fewest cards of the suit that West may hold.
    WestLeast,
    /// The most cards of the suit that West may hold.
    WestMost,
    /// What declarer plays for.
    Goal,
    /// The budget of nodes.
    Nodes,
    /// The budget of pivots.
    Pivots,
}

impl Column {
    /// The column of a number.
    pub fn numbered(number: u8) -> Column
        requires { IsColumn number }
        ensures { result ≡ column_numbered number }
    {
        match number {
            1 => Column::North,
            2 => Column::South,
            3 => Column::Start,
            4 => Column::Regain,
            5 => Column::EntriesN,
            6 => Column::EntriesS,
            7 => Column::VacantW,
            8 => Column::VacantE,
            9 => Column::WestLeast,
            10 => Column::WestMost,
            11 => Column::Goal,
            12 => Column::Nodes,
            _ => Column::Pivots,
        }
    }
}
