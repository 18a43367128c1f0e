use er_answers::{Question, View};
use er_event::{Command, Games};

/// What a request asks the desk for.
#[derive(Clone, Copy)]
pub enum Request {
    Standings,
    Pairings { round: u8 },
    Slip { round: u8, table: u16 },
    /// The score of a match is handed in.
    Report { round: u8, table: u16, score: Games },
}

impl From<Request> for Question {
    ghost use Rattle.std.specs.Prelude.{◌≡◌};
    ghost use Rattle.er_slips.specs.Whole.{question_of};

    ghost from_gives = { λ request question. question ≡ question_of request };

    fn from(request: Request) -> Question {
        match request {
            Request::Standings => Question::Standings,
            Request::Pairings { round } => Question::Show {
                view: View::Pairings { round },
            },
            Request::Slip { round, table } => Question::Slip { round, table },
            Request::Report {
                round,
                table,
                score,
            } => Question::Submit {
                command: Command::Result {
                    round,
                    table,
                    score,
                },
            },
        }
    }
}

/// The methods that a route has.
#[derive(Clone, Copy, Debug, PartialEq, Eq)]
pub enum Methods {
    Get,
    GetAndPost,
}

/// Why a request is answered before the desk is asked.
#[derive(Clone, Copy)]
pub enum Fault {
    BadRequest,
    NotFound,
    /// The route is there, for another method.
    NotAllowed { allowed: Methods },
    TooLarge,
}

/// Why the desk is not asked.
#[derive(Clone, Copy)]
pub enum NoRequest {
    Refused(Fault),
    Memory,
    /// A read failed.
    Unread,
}
