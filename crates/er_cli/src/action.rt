ghost use Rattle.std.specs.Prelude.{◌≡◌};
ghost use Rattle.er_cli.specs.Action.{action_of, asks, file_of, view_of};

use er_answers::{Question, View};
use er_event::{Command, Items};
use er_words::{ExportKind, FilePath, Line};

/// What a line has done.
#[derive(Debug, Drop)]
pub enum Action {
    /// An event is made.
    Init {
        name: Items<u8>,
        rounds: u8,
        cut: u8,
    },
    /// The event that is there is opened for a task.
    Open {
        task: Task,
    },
}

/// What an event is opened for.
#[derive(Debug, Drop)]
pub enum Task {
    /// Its desk is asked.
    Ask { question: Question },
    /// The names of a list are enrolled.
    Import { list: FilePath },
    /// Clients ask it, over `count` connections.
    Serve { port: u16, count: u32 },
}

fn ask(question: Question) -> Action
    ensures { result ≡ asks question }
{
    Action::Open {
        task: Task::Ask { question },
    }
}

fn submit(command: Command) -> Action
    ensures { result ≡ asks (Question.Submit command) }
{
    ask(Question::Submit { command })
}

fn show(view: View) -> Action
    ensures { result ≡ asks (Question.Show view) }
{
    ask(Question::Show { view })
}

/// The list of an export.
fn view_of(kind: ExportKind) -> View
    ensures { result ≡ view_of kind }
{
    match kind {
        ExportKind::Players => View::PlayersCsv,
        ExportKind::Results => View::ResultsCsv,
    }
}

/// The file of a line, and what is to be done with its event.
pub fn file_and_action(line: Line) -> (FilePath, Action)
    ensures { result ≡ (file_of line, action_of line) }
{
    match line {
        Line::Init {
            file,
            name,
            rounds,
            cut,
        } => (file, Action::Init { name, rounds, cut }),
        Line::Enrol { file, name } => (file, submit(Command::Enrol { name })),
        Line::Import { file, list } => (
            file,
            Action::Open {
                task: Task::Import { list },
            },
        ),
        Line::Start { file } => (file, submit(Command::Start)),
        Line::Pair { file, round, seed } => (file, submit(Command::Pair { round, seed })),
        Line::Result {
            file,
            round,
            table,
            score,
        } => (
            file,
            submit(Command::Result {
                round,
                table,
                score,
            }),
        ),
        Line::Correct {
            file,
            round,
            table,
            score,
        } => (
            file,
            submit(Command::Correct {
                round,
                table,
                score,
            }),
        ),
        Line::Drop { file, player } => (file, submit(Command::Drop { player })),
        Line::Cut { file } => (file, submit(Command::Cut)),
        Line::Playoff {
            file,
            stage,
            slot,
            score,
        } => (file, submit(Command::Playoff { stage, slot, score })),
        Line::Standings { file } => (file, ask(Question::Standings)),
        Line::Players { file } => (file, show(View::Players)),
        Line::Slips { file, round } => (file, show(View::Pairings { round })),
        Line::Bracket { file } => (file, show(View::Bracket)),
        Line::Export { file, kind } => (file, show(view_of(kind))),
        Line::Serve { file, port, count } => (
            file,
            Action::Open {
                task: Task::Serve { port, count },
            },
        ),
        Line::Migrate { file } => (file, ask(Question::Migrate)),
    }
}
