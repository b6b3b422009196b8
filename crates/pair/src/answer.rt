// The numbers of the answers.
ghost use Rattle.std.specs.Prelude.{◌≡◌};
ghost use Rattle.pair.specs.Answer.{status_number};

use crate::Status;

impl From<Status> for u8 {
    ghost from_gives = { λ status number. number ≡ status_number status };

    // The number that the rules give the answer.
    #[tactic(auto, unfolding(crate::specs::Answer::status_number))]
    fn from(status: Status) -> u8
        ensures { result ≡ status_number status }
    {
        match status {
            Status::Executed => 0,
            Status::Acknowledged => 1,
            Status::ReadAccepted => 2,
            Status::AtomicExecuted => 3,
            Status::DuplicateAnswered => 4,
            Status::Dropped => header::QUIET_DROP,
            Status::Abandoned => 6,
            Status::SequenceNak => 16,
            Status::InvalidRequestNak => 17,
            Status::AccessNak => 18,
            Status::NotReadyNak => 19,
            Status::ReadUnfinished => 32,
            Status::TableFull => 33,
            Status::OutOfRange => header::OUT_OF_RANGE,
            Status::OutputShort => header::OUTPUT_SHORT,
            Status::WrongState => 36,
            Status::NoSuchKey => 37,
            Status::KeyInUse => 38,
            Status::BadNumber => header::BAD_NUMBER,
        }
    }
}
