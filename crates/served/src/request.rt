// What is asked of a saved state.
use records::refusal::Refusal;

/// What is asked of a saved state, by the byte before its arguments (docs/LAYOUT.md).
#[derive(Clone, Copy, Debug, PartialEq, Eq)]
pub enum Request {
    /// Whether the state is sound, and nothing more.
    Check = 0,
    /// A begin.
    Begin = 1,
    /// A single call.
    Call = 2,
    /// A run.
    Run = 3,
    /// `reset_insertion_mode`.
    Reset = 4,
    /// `is_foreign`.
    Foreign = 5,
    /// `body_elem`.
    Body = 6,
    /// `tokenizer_state_for_context_elem`.
    Tokenizer = 7,
}

impl TryFrom<u8> for Request {
    type Error = Refusal;

    /// The request of a byte; Unknown where it is past 7.
    fn try_from(byte: u8) -> Result<Self, Refusal> {
        match byte {
            0 => Ok(Request::Check),
            1 => Ok(Request::Begin),
            2 => Ok(Request::Call),
            3 => Ok(Request::Run),
            4 => Ok(Request::Reset),
            5 => Ok(Request::Foreign),
            6 => Ok(Request::Body),
            7 => Ok(Request::Tokenizer),
            _ => Err(Refusal::Unknown),
        }
    }
}
