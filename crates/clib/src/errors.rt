// Why a function for C does nothing, and the number that it answers then.
ghost use Rattle.std.specs.Prelude.{◌≡◌};
ghost use Rattle.clib.specs.Errors.{error_number, number_of};

/// Why nothing was done: the heap is not in the phase that is asked for, or the scheme is neither of the two.
#[derive(Clone, Copy, Debug, PartialEq, Eq)]
pub enum TurnError {
    OutOfTurn,
    NoScheme,
}

impl From<TurnError> for i64 {
    ghost from_gives = { λ error number. number ≡ error_number error };

    fn from(error: TurnError) -> i64 {
        match error {
            TurnError::OutOfTurn => -1,
            TurnError::NoScheme => -2,
        }
    }
}

/// What C is answered, which has no `Result`: the number of what was done, 0 or more, or the error's.
pub fn number_of(answer: Result<i64, TurnError>) -> i64
    ensures { result ≡ number_of answer }
{
    answer.unwrap_or_else(i64::from)
}
