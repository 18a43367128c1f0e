//! Laws of runs and histories, stated over the definitions only. A law is a function with no code of its own, whose contract is the law.

ghost use Rattle.er_desk.specs.Headline.{Histories};
ghost use Rattle.er_desk.specs.Asking.{ListsGrow, NextSessions, SessionsJoin};
ghost use Rattle.er_desk.specs.Doubt.{DoubtsAreAnswered};
ghost use Rattle.er_desk.specs.Migrations.{MovingHistories};
ghost use Rattle.er_desk.specs.Opening.{NewFilesAwaitNone};
ghost use Rattle.er_desk.specs.Resuming.{Resuming};
ghost use Rattle.er_rules.specs.Retry.{NoDoubleEffect};

use er_rules::laws::{no_double_effect as step_has_no_double_effect, step_keeps_sound};

/// After any sessions, each stopped anywhere, the event is sound, and is what the accepted commands make of a new one.
pub fn histories()
    ensures { Histories }
{
    step_keeps_sound();
}

/// What a session leaves is an end of the history that it goes on with, followed by the session.
pub fn next_sessions()
    ensures { NextSessions }
{
    histories();
}

/// In a file that holds nothing, no foreign key names a table of the event.
pub fn new_files_await_none()
    ensures { NewFilesAwaitNone }
{}

/// Two sessions, one after the other, lead and end where the two joined do.
pub fn sessions_join()
    ensures { SessionsJoin }
{}

/// A command that was in doubt when a session was stopped is found stored in the next one, or new.
pub fn doubts()
    ensures { DoubtsAreAnswered }
{
    step_has_no_double_effect();
}

/// Migrations among the commands change nothing of what a history comes to, and no history leads back to version 1.
pub fn histories_with_migrations()
    ensures { MovingHistories }
{
    histories();
}

/// A list of commands and one command more make the session of the longer list.
pub fn lists_grow()
    ensures { ListsGrow }
{}

/// Sessions that send from one list go on where the one before ended.
pub fn resuming()
    ensures { Resuming }
{}

/// A command that was taken once, and no correction, is refused at every later point of a run. A correction that is sent again at once
/// gives the same event.
pub fn no_double_effect()
    ensures { NoDoubleEffect }
{
    step_has_no_double_effect();
}
