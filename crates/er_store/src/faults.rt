ghost use Rattle.std.specs.Prelude.{◌≡◌};
ghost use Rattle.er_store.specs.Fault.{store_refusal, IsFault};

use er_event::{Cause, Refusal};
use sqlite::{Error, ErrorCode};

/// A row that the format does not allow.
pub const BAD_ROW: Refusal = Refusal::Store {
    cause: Cause::BadRow,
};

/// What a refusal of the database means to a caller.
pub fn refusal_of(error: Error) -> Refusal
    ensures value { result ≡ store_refusal error }
    ensures fault { IsFault result }
{
    match error {
        Error::SqliteFailure(ErrorCode::OutOfMemory) => Refusal::Memory,
        _ => Refusal::Store {
            cause: Cause::Refused,
        },
    }
}
