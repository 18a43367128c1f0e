//! Command lines over the file of an event, and scripts over one in memory: does what their words ask and prints the answers.
#![tactic(auto)]

ghost use Rattle.std.specs.Prelude.{◌≡◌, ◌⊎◌, IsTrue, IfOk, OnErr, None, Some, map, string_bytes};
ghost use Rattle.std.specs.Io.KnownBytes.{Appends};
ghost use Rattle.er_cli.specs.Texts.{told_text, AppendsPart};
ghost use Rattle.sqlite_wal.specs.Files.{image_at};
ghost use Rattle.er_cli.specs.World.{untold};
ghost use Rattle.er_cli.specs.Remains.{LetsNoneGo};
ghost use Rattle.er_cli.specs.Complaints.{EndsAsUsage};
ghost use Rattle.er_cli.specs.Words.{EndsWords, GoesOnWords};
ghost use Rattle.er_cli.specs.declared.help.TheConstants.{AWAITING};
ghost use Rattle.er_cli.specs.Help.{PutsText, Tells, prints, refusal_status, stream, text_for};
ghost use Rattle.er_words.specs.Usage.{fault_of};
ghost use Rattle.er_cli.specs.Status.{EndsScript, Breaks};
ghost use Rattle.er_cli.specs.inside.Unread.{EndsUnread, UnreadPart};

mod action;
mod client;
mod clients;
mod closing;
mod complaints;
mod files;
mod help;
mod host;
mod importing;
mod input;
pub mod laws;
mod logs;
mod opening;
mod remains;
mod script;
mod serving;
mod setup;
mod texts;

pub use action::{Action, Task, file_and_action};
pub use client::{Client, Connection};
pub use clients::{AcceptFault, Clients, Side, Visit};
pub use closing::{close, into_store};
use complaints::complaint;
pub use er_answers::{Answer, Question, View};
use er_event::Refusal;
pub use er_words::{ExportKind, FilePath, Line, LineFault, UsageFault, read_words};
use files::run_line;
use help::{AWAITING, text_for};
pub use host::{Host, System};
use input::{InputFault, lines_of, read_script};
pub use logs::NewLog;
pub use remains::{Outcome, Remains};
use script::run_lines;
pub use serving::{serve_all, serve_clients, serve_on};
use sqlite::{FileFrom, Start, Wary};
use sqlite_disk::Disk;
use std::alloc::Global;
use std::io::{Read, Write};
pub use texts::{Print, WriteFault};
use texts::{LineAnswer, print_answer, print_told};

/// It was done; of a script, to its end, whatever the answers to its lines.
const DONE: u8 = 0;
/// The command was refused.
const REFUSED: u8 = 1;
/// The words aren't a command line, or the script is too long. Nothing was run.
const USAGE: u8 = 2;
/// A read or a write failed, or the store of the event.
const DEVICE: u8 = 3;
/// There was no memory.
const MEMORY: u8 = 4;

/// Prints why a script is not run, and gives the status to end with.
fn print_fault<W: Print>(writer: &mut W, fault: InputFault) -> Result<u8, WriteFault>
    ensures ends { IfOk result (EndsUnread fault (W.printed writer.old) (W.printed writer.new)) }
    ensures part { OnErr result (UnreadPart fault (W.printed writer.old) (W.printed writer.new)) }
{
    match fault {
        InputFault::TooLong => {
            print_answer(writer, &LineAnswer::Usage)?;
            Ok(USAGE)
        }
        InputFault::Memory => {
            print_told(writer, &Answer::Refused(Refusal::Memory))?;
            Ok(MEMORY)
        }
        InputFault::Read => Ok(DEVICE),
    }
}

fn answer_script<R: Read, W: Print>(
    alloc: Global,
    reader: &mut R,
    writer: &mut W,
) -> Result<u8, WriteFault>
    ensures ends { IfOk result (EndsScript (R.remaining reader.old) (W.printed writer.old)
        (W.printed writer.new)) }
    ensures part { OnErr result (Breaks (R.remaining reader.old) (W.printed writer.old)
        (W.printed writer.new)) }
{
    let script = match read_script(alloc, reader) {
        Ok(script) => script,
        Err(fault) => return print_fault(writer, fault),
    };
    let Ok(lines) = lines_of(alloc, &script) else {
        return print_fault(writer, InputFault::Memory);
    };
    run_lines(alloc, &lines, writer)?;
    Ok(DONE)
}

/// Runs a script on one event in memory, prints the answer to each line, and gives the status to end with. Each answer is one write, if
/// the writer takes it whole, and a flush.
pub fn run_script<R: Read, W: Write>(rt: &HostRuntime, reader: &mut R, writer: &mut W) -> u8
    ensures { EndsScript (R.remaining reader.old) (W.contents writer.old) (W.contents writer.new) result }
{
    match answer_script(rt.alloc(), reader, writer) {
        Ok(status) => status,
        Err(WriteFault) => DEVICE,
    }
}

/// The status that comes with a refusal.
fn refusal_status(why: &Refusal) -> u8
    ensures { result ≡ refusal_status why.now }
{
    match why {
        Refusal::Memory => MEMORY,
        Refusal::Store { .. } | Refusal::NeedsReopen => DEVICE,
        _ => REFUSED,
    }
}

/// Prints what the desk has answered to the stream that it goes to: a refusal to the errors. Gives the status that comes with it.
fn print<O: Print, E: Print>(out: &mut O, err: &mut E, told: &Answer) -> u8
    ensures { Tells told.now (prints (O.printed out.old) (O.printed out.new)
        (E.printed err.old) (E.printed err.new) result) }
{
    let (printed, status) = match told {
        Answer::Accepted(_) | Answer::Text(_) | Answer::Slip(_) => (print_told(out, told), DONE),
        Answer::Refused(why) => (print_told(err, told), refusal_status(why)),
    };
    match printed {
        Ok(()) => status,
        Err(WriteFault) => DEVICE,
    }
}

/// Prints a text on the one stream, and gives the status to end with.
fn end_with<W: Print>(writer: &mut W, text: &str, due: u8) -> u8
    ensures { PutsText text.now due (stream (W.printed writer.old) (W.printed writer.new)) result }
{
    match writer.print(text.as_bytes()) {
        Ok(()) => due,
        Err(WriteFault) => DEVICE,
    }
}

/// Prints which of the words was not understood and how to go on, and gives the status that comes with it.
fn print_usage<O: Print, E: Print>(
    alloc: Global,
    words: &[String],
    fault: UsageFault,
    out: &mut O,
    err: &mut E,
) -> u8
    ensures { fault_of (map string_bytes words.now) ≡ Some fault
        → EndsAsUsage (map string_bytes words.now) (prints (O.printed out.old) (O.printed out.new)
        (E.printed err.old) (E.printed err.new) result) }
{
    match complaint(alloc, words, fault) {
        Ok(text) => end_with(err, text.as_str(), USAGE),
        Err(_error) => print(out, err, &Answer::Refused(Refusal::Memory)),
    }
}

/// Does what the words of a command line ask, and gives the status to end with. The event's file is opened, asked and, once the answer is
/// written, closed again, so that it holds the event without its log too.
pub fn run<O: Write, E: Write>(rt: &HostRuntime, words: &[String], out: &mut O, err: &mut E) -> u8
    ensures { (what : _) × EndsWords ⟦<FileFrom<Wary> as Disk>⟧ (untold (image_at ⟦<Wary as Start>⟧)) None
        (map string_bytes words.now) what (prints (O.contents out.old) (O.contents out.new)
        (E.contents err.old) (E.contents err.new) result) }
{
    run_from(rt, words, Wary, out, err).status
}

/// `run_on`, on the system itself: over any first contents of the file, for which `S` stands. No clause ties it to the path. What is left of
/// the file comes back: whoever lets it go lets others have the file.
pub fn run_from<S: Start, O: Write, E: Write>(
    rt: &HostRuntime,
    words: &[String],
    start: S,
    out: &mut O,
    err: &mut E,
) -> Outcome<FileFrom<S>>
    ensures goes_on { GoesOnWords ⟦<FileFrom<S> as Disk>⟧ (untold (image_at S.Start))
        (map string_bytes words.now) result.left (prints (O.contents out.old) (O.contents out.new)
        (E.contents err.old) (E.contents err.new) result.status) }
    ensures ends { EndsWords ⟦<FileFrom<S> as Disk>⟧ (untold (image_at S.Start)) None
        (map string_bytes words.now) result.left (prints (O.contents out.old) (O.contents out.new)
        (E.contents err.old) (E.contents err.new) result.status) }
{
    let mut system = System::new(rt, start);
    run_on(rt.alloc(), &mut system, words, out, err)
}

/// Does what the words of a command line ask, on any host. What it finds there is what the host's `world` tells, and the file of the event is
/// opened once.
pub fn run_on<H: Host, O: Print, E: Print>(
    alloc: Global,
    host: &mut H,
    words: &[String],
    out: &mut O,
    err: &mut E,
) -> Outcome<H::File>
    requires shut { IsTrue (H.is_shut host.old) }
    // No file that was opened is let go: what is left of it comes back.
    ensures held { LetsNoneGo result.left (H.is_held host.old) (H.is_held host.new) }
    // The theorem. Of a file that a history of a new event left, the history goes on with what is asked of the desk: the one command,
    // enrolments, scores, or nothing. The answer is that of the event at its end; and in what is left of the file the next command line
    // finds it. `init` makes no other event there. Or the event was not opened, and the answer says why; or no file is given back, and the
    // answer is that there is no event, which comes only if it isn't known that the file is there, or a fault of memory or of the device.
    ensures goes_on { GoesOnWords H.File.Disk (H.world host.old)
        (map string_bytes words.now) result.left (prints (O.printed out.old) (O.printed out.new)
        (E.printed err.old) (E.printed err.new) result.status) }
    // What is done and told over a file that may hold anything, and of which list and which clients.
    ensures ends { EndsWords H.File.Disk (H.world host.old) (H.got host.new)
        (map string_bytes words.now) result.left (prints (O.printed out.old) (O.printed out.new)
        (E.printed err.old) (E.printed err.new) result.status) }
{
    if let Some(text) = text_for(words) {
        return Outcome {
            status: end_with(out, text, DONE),
            left: Remains::Nothing,
        };
    }
    match read_words(alloc, words) {
        Ok(line) => run_line(alloc, host, line, out, err),
        Err(LineFault::Usage(fault)) => Outcome {
            status: print_usage(alloc, words, fault, out, err),
            left: Remains::Nothing,
        },
        Err(LineFault::Memory) => Outcome {
            status: print(out, err, &Answer::Refused(Refusal::Memory)),
            left: Remains::Nothing,
        },
    }
}

/// Prints on a terminal that a script is awaited. If that fails, the script is awaited all the same.
pub fn print_awaiting<E: Write>(err: &mut E)
    ensures { Appends (E.contents err.old) (E.contents err.new) AWAITING.now
        ⊎ AppendsPart (E.contents err.old) (E.contents err.new) AWAITING.now }
{
    let _ = err.print(AWAITING.as_bytes());
}

/// Answers that there was no memory to read the words of the command line, and gives the status to end with.
pub fn refuse_memory<W: Write>(writer: &mut W) -> u8
    ensures { PutsText (told_text (Answer.Refused Refusal.Memory)) MEMORY (stream (W.contents writer.old) (W.contents writer.new)) result }
{
    match print_fault(writer, InputFault::Memory) {
        Ok(status) => status,
        Err(WriteFault) => DEVICE,
    }
}
