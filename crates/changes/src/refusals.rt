// Why a history call is refused.
ghost use Rattle.std.specs.Prelude.{◌≡◌};
ghost use Rattle.changes.specs.Refusals.{history_number};

use picture::Refusal;

// The first picture does not read; a port or byte does not exist, an old byte is not what the version before it holds, the room is
// full; a version lies above the last; a buffer is too short.
#[derive(Clone, Copy, PartialEq, Eq)]
pub enum HistoryRefusal {
    Unread(Refusal),
    MissingByte,
    OtherByte,
    RoomFull,
    AboveLast,
    BufferShort,
}

impl HistoryRefusal {
    // Its number in the table.
    pub fn number(self) -> u32
        ensures { result ≡ history_number self }
    {
        match self {
            HistoryRefusal::Unread(r) => r.number() as u32,
            HistoryRefusal::MissingByte => 37,
            HistoryRefusal::OtherByte => 38,
            HistoryRefusal::RoomFull => 39,
            HistoryRefusal::AboveLast => 40,
            HistoryRefusal::BufferShort => 23,
        }
    }
}
