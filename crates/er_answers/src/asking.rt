ghost use Rattle.std.specs.Prelude.{◌≡◌, ◌⊎◌, None, Some, IfOk, IsFalse, MatchResult, option_map};
ghost use Rattle.sqlite.specs.State.{HasCleanDisk};
ghost use Rattle.er_desk.specs.Desk.{ShowsEvent, HoldsOwnEvent, desk_state, state};
ghost use Rattle.er_paper.specs.Texts.{rows_text};
ghost use Rattle.er_answers.specs.Question.{IsRowsTold, IsSlipTold, ShowsView, reply_told, text_told, view_text};
ghost use Rattle.er_answers.specs.Answers.{AsksFor, AnswersDesk};
ghost use Rattle.er_answers.specs.declared.question.Question.TheVariants as question;

use crate::question::{Answer, Question, View};
use er_desk::{Desk, Reply};
use er_event::{Event, Items, Receipt, Refusal, SlipRow};
use er_paper::{
    bracket_text, pairings_text, players_csv, players_text, results_csv, rows_text, slip_json,
};
use er_rank::Row;
use sqlite::Alter;
use std::alloc::{AllocError, Global};

/// A receipt, or why there is none.
pub fn reply_told(reply: Reply) -> Answer
    ensures { result ≡ reply_told reply }
{
    match reply {
        Ok(receipt) => Answer::Accepted(receipt),
        Err(why) => Answer::Refused(why),
    }
}

/// A text of the event. None for a round that isn't stored.
fn view_text(alloc: Global, event: &Event, view: View) -> Result<Option<Vec<u8>>, AllocError>
    ensures { IfOk result (λ text. option_map (λ t. t.items) text ≡ view_text view event.now) }
{
    match view {
        View::Players => Ok(Some(players_text(alloc, event)?)),
        View::Pairings { round } => pairings_text(alloc, event, round),
        View::Bracket => Ok(Some(bracket_text(alloc, event)?)),
        View::PlayersCsv => Ok(Some(players_csv(alloc, event)?)),
        View::ResultsCsv => Ok(Some(results_csv(alloc, event)?)),
    }
}

/// What is told of a text that was made. A round that isn't stored has no pairings.
fn text_told(made: Result<Option<Vec<u8>>, AllocError>) -> Answer
    ensures { MatchResult made (λ text. result ≡ text_told (option_map (λ t. t.items) text))
        (λ _. result ≡ Answer.Refused Refusal.Memory) }
{
    match made {
        Ok(Some(text)) => Answer::Text(Items::from(text)),
        Ok(None) => Answer::Refused(Refusal::NoSuchMatch),
        Err(_error) => Answer::Refused(Refusal::Memory),
    }
}

fn show<S: Alter>(alloc: Global, desk: &Desk<S>, view: View) -> Answer
    ensures { ShowsEvent Answer.Refused (desk_state desk.now) (ShowsView view) result }
{
    match desk.event() {
        Ok(event) => text_told(view_text(alloc, event, view)),
        Err(why) => Answer::Refused(why),
    }
}

/// The text of these rows of standings.
fn rows_told<S: Alter>(alloc: Global, desk: &Desk<S>, rows: &[Row]) -> Answer
    ensures { IsFalse (desk_state desk.now).needs_reopen
        → (result ≡ Answer.Text (rows_text desk.now.event rows.now))
        ⊎ (result ≡ Answer.Refused Refusal.Memory) }
{
    let event = match desk.event() {
        Ok(event) => event,
        Err(why) => return Answer::Refused(why),
    };
    match rows_text(alloc, rows, event) {
        Ok(text) => Answer::Text(Items::from(text)),
        Err(_error) => Answer::Refused(Refusal::Memory),
    }
}

/// The standings, by the totals in the tables.
fn standings<S: Alter>(alloc: Global, desk: &mut Desk<S>) -> Answer
    ensures answers { AnswersDesk
        (HasCleanDisk (state S.Store desk.new) × HoldsOwnEvent S.Store desk.old)
        (desk_state desk.old) question.Standings result (desk_state desk.new) }
    ensures asked { AsksFor S.Store desk.old question.Standings result desk.new }
{
    match desk.stored_standings(alloc) {
        Ok(rows) => rows_told(alloc, desk, rows.as_slice()),
        Err(why) => Answer::Refused(why),
    }
}

/// What is told of a slip that was read.
fn slip_told(alloc: Global, read: Result<SlipRow, Refusal>) -> Answer
    ensures { IsSlipTold read result }
{
    let row = match read {
        Ok(row) => row,
        Err(why) => return Answer::Refused(why),
    };
    match slip_json(alloc, &row) {
        Ok(text) => Answer::Slip(Items::from(text)),
        Err(_error) => Answer::Refused(Refusal::Memory),
    }
}

fn slip<S: Alter>(alloc: Global, desk: &mut Desk<S>, round: u8, table: u16) -> Answer
    ensures answers { AnswersDesk
        (HasCleanDisk (state S.Store desk.new) × HoldsOwnEvent S.Store desk.old)
        (desk_state desk.old) (question.Slip round table) result (desk_state desk.new) }
    ensures asked { AsksFor S.Store desk.old (question.Slip round table) result desk.new }
{
    let read = desk.slip(alloc, round, table);
    slip_told(alloc, read)
}

/// Moves the tables to version 2, and answers with the serial, which stays.
fn migrate<S: Alter>(desk: &mut Desk<S>) -> Answer
    ensures answers { AnswersDesk
        (HasCleanDisk (state S.Store desk.new) × HoldsOwnEvent S.Store desk.old)
        (desk_state desk.old) question.Migrate result (desk_state desk.new) }
    ensures asked { AsksFor S.Store desk.old question.Migrate result desk.new }
{
    match desk.migrate() {
        Ok(serial) => Answer::Accepted(Receipt { serial }),
        Err(why) => Answer::Refused(why),
    }
}

/// Asks a desk, and returns its answer. Only a command and a migration change its event or its tables; a fault of its store stops it.
pub fn ask<S: Alter>(alloc: Global, desk: &mut Desk<S>, question: Question) -> Answer
    ensures answers { AnswersDesk
        (HasCleanDisk (state S.Store desk.new) × HoldsOwnEvent S.Store desk.old)
        (desk_state desk.old) question result (desk_state desk.new) }
    ensures asked { AsksFor S.Store desk.old question result desk.new }
{
    // To look at a desk asks nothing of its file, and a command asks a session of this one command: these tell the proof.
    desk.asks_nothing();
    desk.submits_ask();
    match question {
        Question::Submit { command } => reply_told(desk.submit(alloc, command)),
        Question::Standings => standings(alloc, desk),
        Question::Show { view } => show(alloc, desk, view),
        Question::Slip { round, table } => slip(alloc, desk, round, table),
        Question::Migrate => migrate(desk),
    }
}
