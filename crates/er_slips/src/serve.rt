ghost use Rattle.std.specs.Prelude.{◌≡◌, MatchResult};
ghost use Rattle.er_slips.specs.Response.{IsResponse, response_value, refusal_response};
ghost use Rattle.er_slips.specs.Serving.{AnswersAsked, Writes, Serves};

mod sending;

use crate::request::{NoRequest, Request, Routes, read_request};
use crate::response::{
    Response, fault_response, receipt_response, refusal_response, slip_response, text_response,
};
use crate::serve::sending::{SendEnd, send};
use er_answers::{Answer, Question, ask};
use er_desk::Desk;
use er_event::Refusal;
use sqlite::Alter;
use std::alloc::{AllocError, Global};
use std::io::{Read, Write};

/// How serving one request ended.
#[derive(Clone, Copy, Debug, PartialEq, Eq)]
pub enum ServeEnd {
    Answered { status: u16 },
    /// A read failed. Nothing was submitted or written.
    ReadFault,
    /// A write or the flush failed after the first `sent` bytes of the answer. A command that was accepted stays accepted.
    WriteFault { sent: usize },
}

/// The answer, or that memory ran out for it.
fn response_or_memory(answer: Result<Response, AllocError>) -> Response
    ensures { MatchResult answer (λ made. response_value result
        ≡ response_value made) (λ _. response_value result ≡ refusal_response Refusal.Memory) }
{
    match answer {
        Ok(answer) => answer,
        Err(_error) => refusal_response(&Refusal::Memory),
    }
}

/// Returns the response that tells what the desk has answered.
fn response(alloc: Global, told: &Answer) -> Response
    ensures { IsResponse told.now (response_value result) }
{
    match told {
        Answer::Accepted(receipt) => receipt_response(*receipt),
        Answer::Text(text) => response_or_memory(text_response(alloc, text.as_slice())),
        Answer::Slip(slip) => response_or_memory(slip_response(alloc, slip.as_slice())),
        Answer::Refused(why) => refusal_response(why),
    }
}

/// Asks the desk once, and returns the answer.
fn answer<S: Alter>(alloc: Global, desk: &mut Desk<S>, asked: Request) -> Response
    ensures { AnswersAsked S.Store desk.old asked (response_value result) desk.new }
{
    let question = Question::from(asked);
    let told = ask(alloc, desk, question);
    response(alloc, &told)
}

/// Sends a whole answer.
fn deliver<W: Write>(writer: &mut W, answer: &Response) -> ServeEnd
    ensures { Writes (W.contents writer.old) (W.contents writer.new) result
        (response_value answer.now) }
{
    match send(writer, answer.as_slice()) {
        SendEnd::All => ServeEnd::Answered {
            status: answer.status(),
        },
        SendEnd::Fault(sent) => ServeEnd::WriteFault { sent },
    }
}

/// Reads one request, asks the desk at most once, and writes one answer. Nothing of the answer is written before the whole of it is made.
pub fn serve_one<S: Alter, R: Read, W: Write>(
    alloc: Global,
    routes: &Routes,
    desk: &mut Desk<S>,
    reader: &mut R,
    writer: &mut W,
) -> ServeEnd
    // One score is handed to the desk, or nothing is, and the file takes just that.
    ensures serves { Serves S.Store (R.remaining reader.old) desk.old desk.new
        (W.contents writer.old) (W.contents writer.new) result }
{
    // A desk that is not asked leaves its file as it is: this tells the proof.
    desk.asks_nothing();
    match read_request(alloc, routes, reader) {
        Ok(asked) => deliver(writer, &answer(alloc, desk, asked)),
        Err(NoRequest::Refused(fault)) => deliver(writer, &fault_response(fault)),
        Err(NoRequest::Memory) => deliver(writer, &refusal_response(&Refusal::Memory)),
        Err(NoRequest::Unread) => ServeEnd::ReadFault,
    }
}
