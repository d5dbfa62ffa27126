// Why a call is refused: document 01's table "Refused" and document 02's 17 to 20, one variant a number, for the whole project.
ghost use Rattle.std.specs.Prelude.{◌≡◌};
ghost use Rattle.codec.specs.Refusals.{number_of, byte_of};

#[derive(Clone, Copy, Debug, PartialEq, Eq, Hash)]
pub enum Refusal {
    BufferTooShort,
    UnknownSubmessageId(u8),
    UnknownObjectKind(u8),
    UnknownStatusCode(u8),
    PayloadLengthMismatch,
    SessionFull,
    FragmentSizeZero,
    EmptyPayload,
    TooManyFragments,
    FragmentNumber,
    MissingFragments,
    TooLong,
    OutputTooShort,
    StoreFull,
    OutOfTurn,
    OverLimit,
    NotInFragments,
    IllFormed,
    WindowFault,
    NoSuchMinute,
}

impl Refusal {
    // The number that the documents give the refusal. No cast gives it, since three of them carry a byte.
    pub fn number(self) -> u8
        ensures { result ≡ number_of self }
    {
        match self {
            Refusal::BufferTooShort => 1,
            Refusal::UnknownSubmessageId(_) => 2,
            Refusal::UnknownObjectKind(_) => 3,
            Refusal::UnknownStatusCode(_) => 4,
            Refusal::PayloadLengthMismatch => 5,
            Refusal::SessionFull => 6,
            Refusal::FragmentSizeZero => 7,
            Refusal::EmptyPayload => 8,
            Refusal::TooManyFragments => 9,
            Refusal::FragmentNumber => 10,
            Refusal::MissingFragments => 11,
            Refusal::TooLong => 12,
            Refusal::OutputTooShort => 13,
            Refusal::StoreFull => 14,
            Refusal::OutOfTurn => 15,
            Refusal::OverLimit => 16,
            Refusal::NotInFragments => 17,
            Refusal::IllFormed => 18,
            Refusal::WindowFault => 19,
            Refusal::NoSuchMinute => 20,
        }
    }

    // The byte that 2, 3 and 4 give, and 0 with every other number.
    pub fn byte(self) -> u8
        ensures { result ≡ byte_of self }
    {
        match self {
            Refusal::UnknownSubmessageId(b)
            | Refusal::UnknownObjectKind(b)
            | Refusal::UnknownStatusCode(b) => b,
            _ => 0,
        }
    }
}
