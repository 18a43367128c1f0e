ghost use Rattle.std.specs.Prelude.{◌≡◌, ◌≤◌, [], ◌∷◌, IsFalse, IfOk, IfSome, vec_len};
ghost use Rattle.er_event.specs.declared.commands.Command.TheVariants.{Enrol};
ghost use Rattle.er_desk.specs.Asking.{Asks, AsksSome};
ghost use Rattle.er_desk.specs.Desk.{Outcome, desk_state};
ghost use Rattle.er_desk.specs.Run.{session_of};
ghost use Rattle.er_cli.specs.Importing.{Enrols, Imports, PrintsAdditions, fault_text, is_taken};
ghost use Rattle.er_cli.specs.inside.Importing.{ImportsList, additions_text, names_of};
ghost use Rattle.er_cli.specs.Help.{PutsText, prints, stream};

use crate::host::Host;
use crate::input::{InputFault, read_whole};
use crate::texts::{Print, WriteFault};
use crate::{DEVICE, DONE, REFUSED, end_with, print};
use er_answers::Answer;
use er_desk::laws::lists_grow;
use er_desk::{Desk, Reply};
use er_event::{Command, Items, Name, Refusal};
use er_paper::{CsvFault, PlayerLine, ShortText, read_players_csv};
use sqlite::Alter;
use std::alloc::Global;

/// How many bytes a list of players may have.
pub const MAX_LIST_BYTES: usize = 131_072;

/// How many names an import has added, and how many were there already.
#[derive(Clone, Copy)]
pub struct Additions {
    pub added: usize,
    pub already: usize,
}

/// How an import has ended: with all names, or at the first that is refused otherwise than as taken.
#[derive(Drop)]
pub struct Enrolled {
    pub additions: Additions,
    pub stop: Option<Refusal>,
}

fn additions_line(additions: Additions) -> ShortText
    ensures { result ≡ additions_text additions }
{
    let mut line = ShortText::new();
    line.push(b"added ");
    line.push_number(additions.added as u64);
    line.push(b" already ");
    line.push_number(additions.already as u64);
    line.push(b"\n");
    line
}

/// What is said of a list with this fault.
fn fault_line(fault: CsvFault) -> ShortText
    ensures { result ≡ fault_text fault }
{
    let mut line = ShortText::new();
    match fault {
        CsvFault::BadHeading => line.push(b"bad csv heading\n"),
        CsvFault::BadRow { row } => {
            line.push(b"bad csv row ");
            line.push_number(row as u64);
            line.push(b"\n");
        }
        CsvFault::Memory => {}
    }
    line
}

fn say_fault<W: Print>(writer: &mut W, fault: CsvFault) -> u8
    ensures { PutsText (fault_text fault) REFUSED (stream (W.printed writer.old) (W.printed writer.new)) result }
{
    match writer.print(fault_line(fault).as_slice()) {
        Ok(()) => REFUSED,
        Err(WriteFault) => DEVICE,
    }
}

/// Reads the list of players in a file.
fn read_list<H: Host>(alloc: Global, host: &H, path: &str) -> Result<Vec<u8>, InputFault>
    ensures short { IfOk result (λ list. vec_len list ≤ MAX_LIST_BYTES) }
    ensures whole { IfOk result (λ list. IfSome ((H.world host.now).list path.now) (λ all. list.items ≡ all)) }
{
    let Ok(mut file) = host.open_list(path) else {
        return Err(InputFault::Read);
    };
    read_whole(alloc, &mut file, MAX_LIST_BYTES)
}

/// Whether a refusal says that the player is there already.
fn is_taken(why: &Refusal) -> bool
    ensures { result ≡ is_taken why.now }
{
    matches!(why, Refusal::NameTaken)
}

/// Hands one name to the desk.
fn enrol<S: Alter>(alloc: Global, desk: &mut Desk<S>, name: &Name) -> Reply
    requires { IsFalse (desk_state desk.old).needs_reopen }
    ensures turn { Outcome (desk_state desk.old) (Enrol name.now) result (desk_state desk.new) }
    ensures asked { Asks S.Store desk.old
        (session_of (Enrol name.now ∷ []) (result ∷ []) (desk_state desk.new).needs_reopen) desk.new }
{
    // A name that is not handed in asks nothing of the file, and one that is asks a session of this one command: these tell the proof.
    desk.asks_nothing();
    desk.submits_ask();
    let Ok(name) = Vec::from_slice(alloc, name.as_bytes()) else {
        return Err(Refusal::Memory);
    };
    let name = Items::from(name);
    desk.submit(alloc, Command::Enrol { name })
}

/// Hands the names to the desk in order, until one is refused otherwise than as taken.
fn enrol_all<S: Alter>(alloc: Global, desk: &mut Desk<S>, lines: &[PlayerLine]) -> Enrolled
    requires { IsFalse (desk_state desk.old).needs_reopen }
    ensures { AsksSome S.Store desk.old (λ first session last. Enrols (names_of lines.now) first
        result.additions result.stop session last) desk.new }
{
    // The session grows by one command a name, from nothing: these tell the proof.
    lists_grow();
    desk.asks_then();
    desk.asks_nothing();
    let mut additions = Additions {
        added: 0,
        already: 0,
    };
    for line in lines {
        match enrol(alloc, desk, &line.name) {
            Ok(_receipt) => additions.added += 1,
            Err(why) if is_taken(&why) => additions.already += 1,
            Err(why) => {
                return Enrolled {
                    additions,
                    stop: Some(why),
                };
            }
        }
    }
    Enrolled {
        additions,
        stop: None,
    }
}

/// Prints how many were enrolled, and the refusal that ended it, if there is one.
fn print_additions<O: Print, E: Print>(out: &mut O, err: &mut E, enrolled: Enrolled) -> u8
    ensures { PrintsAdditions enrolled.additions enrolled.stop
        (prints (O.printed out.old) (O.printed out.new)
        (E.printed err.old) (E.printed err.new) result) }
{
    let Ok(()) = out.print(additions_line(enrolled.additions).as_slice()) else {
        return DEVICE;
    };
    match enrolled.stop {
        Some(why) => print(out, err, &Answer::Refused(why)),
        None => DONE,
    }
}

/// Enrols the names of a list, or says which fault it has.
fn import_list<S: Alter, O: Print, E: Print>(
    alloc: Global,
    desk: &mut Desk<S>,
    list: &[u8],
    out: &mut O,
    err: &mut E,
) -> u8
    requires { IsFalse (desk_state desk.old).needs_reopen }
    ensures { AsksSome S.Store desk.old
        (ImportsList (prints (O.printed out.old) (O.printed out.new)
        (E.printed err.old) (E.printed err.new) result) list.now) desk.new }
{
    // If nobody is enrolled, nothing is asked of the file: this tells the proof.
    desk.asks_nothing();
    match read_players_csv(alloc, list) {
        Ok(lines) => {
            let enrolled = enrol_all(alloc, desk, &lines);
            print_additions(out, err, enrolled)
        }
        Err(CsvFault::Memory) => print(out, err, &Answer::Refused(Refusal::Memory)),
        Err(fault) => say_fault(err, fault),
    }
}

/// Enrols the names of the list in a file. Of a list that can't be read, or has a fault, nobody is enrolled.
pub fn import<H: Host, S: Alter, O: Print, E: Print>(
    alloc: Global,
    host: &H,
    desk: &mut Desk<S>,
    path: &str,
    out: &mut O,
    err: &mut E,
) -> u8
    requires { IsFalse (desk_state desk.old).needs_reopen }
    ensures { AsksSome S.Store desk.old (Imports (prints (O.printed out.old) (O.printed out.new)
        (E.printed err.old) (E.printed err.new) result) ((H.world host.now).list path.now)) desk.new }
{
    // If nobody is enrolled, nothing is asked of the file: this tells the proof.
    desk.asks_nothing();
    match read_list(alloc, host, path) {
        Ok(list) => import_list(alloc, desk, &list, out, err),
        Err(InputFault::Memory) => print(out, err, &Answer::Refused(Refusal::Memory)),
        Err(InputFault::TooLong | InputFault::Read) => end_with(err, "cannot read\n", DEVICE),
    }
}
