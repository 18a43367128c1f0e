ghost use Rattle.std.specs.Prelude.{◌≡◌, false, IfOk, IfErr, OnOk, OnErr, map};
ghost use Rattle.sqlite.specs.Steps.{over_memory};
ghost use Rattle.er_event.specs.Change.{initial_event};
ghost use Rattle.er_store.specs.Fault.{IsFault};
ghost use Rattle.er_event.specs.Sound.{AreLimits};
ghost use Rattle.er_desk.specs.Desk.{HoldsOwnEvent, running_at, desk_state, version_in};
ghost use Rattle.er_desk.specs.History.{new_point};
ghost use Rattle.er_answers.specs.Question.{reply_told};
ghost use Rattle.er_cli.specs.Action.{script_action};
ghost use Rattle.er_cli.specs.declared.action.Action.TheVariants.{Open};
ghost use Rattle.er_cli.specs.declared.action.Task.TheVariants.{Ask};
ghost use Rattle.er_cli.specs.Script.{Acts, LineAnswers, Prints, PrintsPart, SetsUp};
ghost use Rattle.er_cli.specs.inside.Desk.{HasOwnTables, desk_state_of};

use crate::action::{Action, Task, file_and_action};
use crate::setup::set_up;
use crate::texts::{LineAnswer, Print, WriteFault, print_answer};
use er_answers::{Answer, Question, ask, reply_told};
use er_desk::{Desk, Reply};
use er_event::{Name, Receipt, Refusal};
use er_words::{LineFault, read_line};
use sqlite::{Connection, MemStore};
use std::alloc::Global;

/// A script that is run on one store in memory. It has a desk once an event is made.
#[derive(Drop)]
struct Runner {
    alloc: Global,
    desk: Option<Desk<MemStore>>,
}

fn create_desk(alloc: Global, name: Name, rounds: u8, cut: u8) -> Result<Desk<MemStore>, Refusal>
    requires { AreLimits rounds cut }
    ensures made { IfOk result (λ made. desk_state made
        ≡ running_at (new_point name rounds cut) 2) }
    ensures represents { IfOk result (HoldsOwnEvent over_memory) }
    ensures version { IfOk result (λ made. version_in made ≡ 2) }
    ensures refused { IfErr result IsFault }
{
    let Ok(conn) = Connection::open_in_memory(alloc) else {
        return Err(Refusal::Memory);
    };
    match Desk::create(alloc, conn, name, rounds, cut) {
        Ok(desk) => Ok(desk),
        Err((_conn, why)) => Err(why),
    }
}

impl Runner {
    fn init(&mut self, name: &[u8], rounds: u8, cut: u8) -> Reply
        ensures sets_up { SetsUp (desk_state_of self.old.desk) name.now rounds cut
            (reply_told result) (desk_state_of self.new.desk) }
        ensures written { HasOwnTables self.old.desk → HasOwnTables self.new.desk }
    {
        let name = set_up(self.alloc, name, rounds, cut)?;
        if self.desk.is_some() {
            return Err(Refusal::EventExists);
        }
        let desk = create_desk(self.alloc, name, rounds, cut)?;
        self.desk = Some(desk);
        Ok(Receipt { serial: 0 })
    }

    fn ask(&mut self, question: Question) -> LineAnswer
        requires { HasOwnTables self.old.desk }
        ensures acts { Acts (desk_state_of self.old.desk) (Open (Ask question)) result
            (desk_state_of self.new.desk) }
        ensures written { HasOwnTables self.new.desk }
    {
        match &mut self.desk {
            None => LineAnswer::Asked(Answer::Refused(Refusal::NoEvent)),
            Some(desk) => LineAnswer::Asked(ask(self.alloc, desk, question)),
        }
    }

    fn open(&mut self, task: Task) -> LineAnswer
        requires { HasOwnTables self.old.desk }
        ensures acts { Acts (desk_state_of self.old.desk) (Open task) result
            (desk_state_of self.new.desk) }
        ensures written { HasOwnTables self.new.desk }
    {
        match task {
            Task::Ask { question } => self.ask(question),
            // A script keeps to itself: it reads no list, and has no file that clients could ask.
            Task::Import { list: _ } | Task::Serve { port: _, count: _ } => LineAnswer::Usage,
        }
    }

    fn run_action(&mut self, action: Action) -> LineAnswer
        requires { HasOwnTables self.old.desk }
        ensures acts { Acts (desk_state_of self.old.desk) action result
            (desk_state_of self.new.desk) }
        ensures written { HasOwnTables self.new.desk }
    {
        match action {
            Action::Init { name, rounds, cut } => {
                LineAnswer::Asked(reply_told(self.init(name.as_slice(), rounds, cut)))
            }
            Action::Open { task } => self.open(task),
        }
    }

    /// The answer to a line.
    fn answer(&mut self, line: &[u8]) -> LineAnswer
        requires { HasOwnTables self.old.desk }
        ensures answers { LineAnswers (desk_state_of self.old.desk) (script_action line.now) result
            (desk_state_of self.new.desk) }
        ensures written { HasOwnTables self.new.desk }
    {
        match read_line(self.alloc, line) {
            Ok(line) => {
                let (_script, action) = file_and_action(line);
                self.run_action(action)
            }
            Err(LineFault::Usage(_fault)) => LineAnswer::Usage,
            Err(LineFault::Memory) => LineAnswer::Asked(Answer::Refused(Refusal::Memory)),
        }
    }
}

/// Runs lines one after the other, and prints their answers.
pub fn run_lines<W: Print>(alloc: Global, lines: &[&[u8]], writer: &mut W) -> Result<(), WriteFault>
    ensures whole { OnOk result (Prints (map (λ line. line.now) lines.now) (W.printed writer.old)
        (W.printed writer.new)) }
    ensures part { OnErr result (PrintsPart (map (λ line. line.now) lines.now)
        (W.printed writer.old) (W.printed writer.new)) }
{
    let mut runner = Runner { alloc, desk: None };
    for line in lines {
        let answer = runner.answer(line);
        print_answer(writer, &answer)?;
    }
    Ok(())
}
