ghost use Rattle.std.specs.Prelude.{List, ◌≡◌, ◌≢◌, ◌⊎◌, ◌≤◌, Some, true, false, IsFalse, IsTrue, IfErr, IfOk, MatchResult};
ghost use Rattle.sqlite.specs.Files.{over_files};
ghost use Rattle.er_event.specs.declared.commands.TheConstants.{MAX_SERIAL};
ghost use Rattle.er_rules.specs.Sound.{IsSound};
ghost use Rattle.er_event.specs.Sound.{AreLimits};
ghost use Rattle.er_desk.specs.Asking.{Asks, AsksSome};
ghost use Rattle.sqlite.specs.State.{HasCleanDisk};
ghost use Rattle.er_desk.specs.Desk.{HoldsOwnEvent, desk_state, state};
ghost use Rattle.er_desk.specs.Run.{no_session};
ghost use Rattle.er_desk.specs.History.{new_point};
ghost use Rattle.er_desk.specs.Reply.{receipt};
ghost use Rattle.er_cli.specs.declared.action.Action.TheVariants.{Init, Open};
ghost use Rattle.er_cli.specs.Action.{action_of, file_of};
ghost use Rattle.er_store.specs.Fault.{IsFault};
ghost use Rattle.er_cli.specs.Remains.{LetsNoneGo, PutsAway};
ghost use Rattle.er_desk.specs.Files.{HasMade};
ghost use Rattle.er_cli.specs.Files.{HasMadeNone};
ghost use Rattle.er_cli.specs.Serving.{ServesClients};
ghost use Rattle.er_cli.specs.Words.{Does, EndsLine, GoesOnAction, GoesOnTask};
ghost use Rattle.er_cli.specs.inside.Making.{InitReplies};
ghost use Rattle.er_cli.specs.Help.{Tells, prints};

use crate::action::{Action, Task, file_and_action};
use crate::closing::{clear_fault, put_away};
use crate::help::CANNOT_LISTEN;
use crate::host::Host;
use crate::importing::import;
use crate::opening::{create_desk, open_desk};
use crate::remains::{OpenError, Outcome, Remains};
use crate::serving::serve_all;
use crate::setup::set_up;
use crate::texts::Print;
use crate::{DEVICE, end_with, print};
use er_answers::{Answer, ask};
use er_desk::Desk;
use er_desk::laws::next_sessions;
use er_event::{Cause, Name, Receipt, Refusal};
use er_slips::Routes;
use er_words::Line;
use sqlite::{Alter, FileStore};
use sqlite_disk::Disk;
use std::alloc::Global;

/// Sees whether a file is there. One that isn't has no event, and isn't made.
fn find_file<H: Host>(host: &H, path: &str) -> Result<(), Refusal>
    ensures there { IfOk result (λ _. (H.world host.now).is_there path.now ≢ Some false) }
    ensures absent { IfErr result (λ why. ((why ≡ Refusal.NoEvent) × ((H.world host.now).is_there path.now ≢ Some true)) ⊎ IsFault why) }
{
    match host.is_there(path) {
        Ok(true) => Ok(()),
        Ok(false) => Err(Refusal::NoEvent),
        Err(_error) => Err(Refusal::Store {
            cause: Cause::Refused,
        }),
    }
}

/// Makes an event in a file, which is made if it isn't there.
fn create<H: Host>(
    alloc: Global,
    host: &mut H,
    path: &str,
    name: Name,
    rounds: u8,
    cut: u8,
) -> Result<Desk<FileStore<H::File>>, OpenError<H::File>>
    requires shut { IsTrue (H.is_shut host.old) }
    requires limits { AreLimits rounds cut }
    ensures held { IfErr result (λ it. LetsNoneGo it.left (H.is_held host.old) (H.is_held host.new)) }
    ensures makes { MatchResult result (HasMade ((H.world host.old).image path.now) name rounds cut)
        (λ it. HasMadeNone ((H.world host.old).image path.now)
        (new_point name rounds cut) it.why it.left) }
{
    // If there is a history, what a refusal leaves is its end: this tells the proof.
    next_sessions();
    let log = host.log_to_make(path);
    match create_desk(alloc, host, path, name, rounds, cut) {
        Ok(desk) => Ok(desk),
        Err(fault) => Err(clear_fault(alloc, host, fault, log.as_ref())),
    }
}

/// Makes an event in a file, once it is sure that it may be set up so.
fn init<H: Host>(
    alloc: Global,
    host: &mut H,
    path: &str,
    name: &[u8],
    rounds: u8,
    cut: u8,
) -> Result<Desk<FileStore<H::File>>, OpenError<H::File>>
    requires shut { IsTrue (H.is_shut host.old) }
    ensures held { IfErr result (λ it. LetsNoneGo it.left (H.is_held host.old) (H.is_held host.new)) }
    ensures replies { InitReplies H.File.Disk ((H.world host.old).image path.now)
        name.now rounds cut result }
{
    match set_up(alloc, name, rounds, cut) {
        Ok(name) => create(alloc, host, path, name, rounds, cut),
        Err(why) => Err(OpenError {
            why,
            left: Remains::Nothing,
        }),
    }
}

/// Tells that an event was made, and closes its file once that is written.
fn print_made<D: Disk + Drop, O: Print, E: Print>(
    alloc: Global,
    desk: Desk<FileStore<D>>,
    out: &mut O,
    err: &mut E,
) -> Outcome<D>
    ensures put_away { PutsAway desk result.left }
    ensures asks { Asks over_files desk no_session desk }
    ensures told { Tells (Answer.Accepted (receipt 0))
        (prints (O.printed out.old) (O.printed out.new)
        (E.printed err.old) (E.printed err.new) result.status) }
{
    // A desk that is only looked at asks nothing of its file: this tells the proof.
    desk.asks_nothing();
    let status = print(out, err, &Answer::Accepted(Receipt { serial: 0 }));
    Outcome {
        status,
        left: put_away(alloc, desk),
    }
}

/// Makes an event, and tells so or why not.
fn make<H: Host, O: Print, E: Print>(
    alloc: Global,
    host: &mut H,
    path: &str,
    name: &[u8],
    rounds: u8,
    cut: u8,
    out: &mut O,
    err: &mut E,
) -> Outcome<H::File>
    requires shut { IsTrue (H.is_shut host.old) }
    ensures held { LetsNoneGo result.left (H.is_held host.old) (H.is_held host.new) }
    ensures ends { EndsLine H.File.Disk (H.world host.old) (H.got host.new) path.now result.left
        (prints (O.printed out.old) (O.printed out.new)
        (E.printed err.old) (E.printed err.new) result.status) (Init name.now rounds cut) }
{
    // What is begun here is the history that the next command line goes on with: this tells the proof.
    next_sessions();
    match init(alloc, host, path, name, rounds, cut) {
        Ok(desk) => print_made(alloc, desk, out, err),
        Err(why) => tell_no_desk(out, err, why),
    }
}

/// Serves the clients of a desk, on this machine only.
fn listen<H: Host, S: Alter, O: Print, E: Print>(
    alloc: Global,
    host: &mut H,
    desk: &mut Desk<S>,
    port: u16,
    count: u32,
    out: &mut O,
    err: &mut E,
) -> u8
    ensures { AsksSome S.Store desk.old
        (ServesClients (HasCleanDisk (state S.Store desk.new) × HoldsOwnEvent S.Store desk.old)
        (prints (O.printed out.old) (O.printed out.new) (E.printed err.old) (E.printed err.new) result)
        port count ((H.world host.old).coming port) (H.got host.new)) desk.new }
{
    // If nobody is listened to, nothing is asked of the file: this tells the proof.
    desk.asks_nothing();
    let Ok(routes) = Routes::new(alloc) else {
        return print(out, err, &Answer::Refused(Refusal::Memory));
    };
    match host.listen(port) {
        Ok((visitors, at)) => {
            let mut visitors = visitors;
            let status = serve_all(alloc, &routes, desk, &mut visitors, at, count, out);
            host.leave(visitors);
            status
        }
        Err(_error) => end_with(err, CANNOT_LISTEN, DEVICE),
    }
}

/// Does what an event was opened for.
fn do_task<H: Host, S: Alter, O: Print, E: Print>(
    alloc: Global,
    host: &mut H,
    desk: &mut Desk<S>,
    task: Task,
    out: &mut O,
    err: &mut E,
) -> u8
    requires sound { IsSound desk.old.event }
    requires low { desk.old.serial ≤ MAX_SERIAL }
    requires ready { IsFalse (desk_state desk.old).needs_reopen }
    ensures { Does S.Store (H.world host.old) (H.got host.new) desk.old task desk.new (prints (O.printed out.old) (O.printed out.new)
        (E.printed err.old) (E.printed err.new) result) }
{
    match task {
        Task::Ask { question } => print(out, err, &ask(alloc, desk, question)),
        Task::Import { list } => import(alloc, host, desk, list.as_str(), out, err),
        Task::Serve { port, count } => listen(alloc, host, desk, port, count, out, err),
    }
}

/// Does it with the desk of a file, and closes that once the answer is written.
fn do_and_close<H: Host, O: Print, E: Print>(
    alloc: Global,
    host: &mut H,
    mut desk: Desk<FileStore<H::File>>,
    task: Task,
    out: &mut O,
    err: &mut E,
) -> Outcome<H::File>
    requires sound { IsSound desk.event }
    requires low { desk.serial ≤ MAX_SERIAL }
    requires ready { IsFalse (desk_state desk).needs_reopen }
    ensures { (last : _) × Does over_files (H.world host.old) (H.got host.new) desk task last (prints (O.printed out.old)
        (O.printed out.new) (E.printed err.old) (E.printed err.new) result.status)
        × PutsAway last result.left }
{
    let status = do_task(alloc, host, &mut desk, task, out, err);
    Outcome {
        status,
        left: put_away(alloc, desk),
    }
}

/// Tells why there is no desk, and gives back what is left of a file, if anything is.
fn tell_no_desk<D: Disk + Drop, O: Print, E: Print>(
    out: &mut O,
    err: &mut E,
    none: OpenError<D>,
) -> Outcome<D>
    ensures left { result.left ≡ none.left }
    ensures told { Tells (Answer.Refused none.why) (prints (O.printed out.old) (O.printed out.new)
        (E.printed err.old) (E.printed err.new) result.status) }
{
    Outcome {
        status: print(out, err, &Answer::Refused(none.why)),
        left: none.left,
    }
}

/// Opens the event in a file that is there for a task. The file is opened before a list is read, and before anybody is listened to.
fn open<H: Host, O: Print, E: Print>(
    alloc: Global,
    host: &mut H,
    path: &str,
    task: Task,
    out: &mut O,
    err: &mut E,
) -> Outcome<H::File>
    requires shut { IsTrue (H.is_shut host.old) }
    requires there { (H.world host.old).is_there path.now ≢ Some false }
    ensures held { LetsNoneGo result.left (H.is_held host.old) (H.is_held host.new) }
    ensures ends { EndsLine H.File.Disk (H.world host.old) (H.got host.new) path.now result.left
        (prints (O.printed out.old) (O.printed out.new)
        (E.printed err.old) (E.printed err.new) result.status) (Open task) }
    // Of a file that a history left, the history goes on with what the desk is asked.
    ensures goes_on { GoesOnTask H.File.Disk (H.world host.old) path.now task
        result.left (prints (O.printed out.old) (O.printed out.new) (E.printed err.old)
        (E.printed err.new) result.status) }
{
    // What a session leaves is an end of the history with that session: this tells the proof.
    next_sessions();
    let log = host.log_to_make(path);
    match open_desk(alloc, host, path) {
        Ok(desk) => do_and_close(alloc, host, desk, task, out, err),
        Err(fault) => tell_no_desk(out, err, clear_fault(alloc, host, fault, log.as_ref())),
    }
}

/// Does what a command line asks of its file, and gives the status to end with and what is left of the file.
pub fn run_line<H: Host, O: Print, E: Print>(
    alloc: Global,
    host: &mut H,
    line: Line,
    out: &mut O,
    err: &mut E,
) -> Outcome<H::File>
    requires shut { IsTrue (H.is_shut host.old) }
    ensures held { LetsNoneGo result.left (H.is_held host.old) (H.is_held host.new) }
    ensures ends { EndsLine H.File.Disk (H.world host.old) (H.got host.new) (file_of line) result.left
        (prints (O.printed out.old) (O.printed out.new)
        (E.printed err.old) (E.printed err.new) result.status) (action_of line) }
    // Of a file that a history left, the history goes on with what the desk is asked, or the system says that it isn't there; and no other
    // event is made in it.
    ensures goes_on { GoesOnAction H.File.Disk (H.world host.old) (file_of line) (action_of line)
        result.left (prints (O.printed out.old) (O.printed out.new) (E.printed err.old)
        (E.printed err.new) result.status) }
{
    let (file, action) = file_and_action(line);
    let path = file.as_str();
    match action {
        Action::Init { name, rounds, cut } => {
            make(alloc, host, path, name.as_slice(), rounds, cut, out, err)
        }
        Action::Open { task } => match find_file(host, path) {
            Ok(()) => open(alloc, host, path, task, out, err),
            Err(why) => {
                let left = Remains::Nothing;
                tell_no_desk(out, err, OpenError { why, left })
            }
        },
    }
}
