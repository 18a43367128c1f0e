ghost use Rattle.std.specs.Prelude.{◌≡◌, ℕ, List, All, map, length, IfOk, IfSome};
ghost use Rattle.httparse.specs.Grammar.{RequestHead};
ghost use Rattle.httparse.specs.Spans.{header_bytes, IsHeaderWithin, IsRequestAt, IsRequestWithin};
ghost use Rattle.er_paper.specs.Slip.{slip_games};
ghost use Rattle.er_slips.specs.Request.{serves, next_of, report_request};
ghost use Rattle.er_slips.specs.inside.Telling.{IsShort, IsDueUnlessMemory, TellsRequest};

mod fields;
mod head;
mod routes;
mod wanted;

use crate::request::fields::body_length;
use crate::request::head::{Head, read_head, read_on};
use crate::request::routes::{Route, path_of, route_of};
use er_paper::{SlipFault, read_slip};
pub use fields::MAX_BODY;
pub use head::{MAX_FIELDS, MAX_HEAD};
use httparse::spans::{EMPTY_HEADER_SPAN, HeaderSpan, RequestSpans};
pub use routes::Routes;
use std::alloc::Global;
use std::io::Read;
pub use wanted::{Fault, Methods, NoRequest, Request};

/// What is left to do once the head is there.
#[derive(Clone, Copy)]
pub enum Next {
    Get(Request),
    /// A body of `length` bytes follows.
    Body {
        round: u8,
        table: u16,
        length: usize,
    },
}

/// What a method asks for on a route.
fn serves(route: Route, method: &[u8], bytes: &[u8], headers: &[HeaderSpan]) -> Result<Next, Fault>
    requires { All (IsHeaderWithin (length bytes.now)) headers.now }
    ensures value { result ≡ serves route method.now (map (header_bytes bytes.now) headers.now) }
    ensures short { IfOk result IsShort }
{
    let is_get = method == b"GET".as_slice();
    match route {
        Route::Standings if is_get => Ok(Next::Get(Request::Standings)),
        Route::Round { round } if is_get => Ok(Next::Get(Request::Pairings { round })),
        Route::Table { round, table } if is_get => Ok(Next::Get(Request::Slip { round, table })),
        Route::Table { round, table } if method == b"POST".as_slice() => Ok(Next::Body {
            round,
            table,
            length: body_length(bytes, headers)?,
        }),
        Route::Table { .. } => Err(Fault::NotAllowed {
            allowed: Methods::GetAndPost,
        }),
        _ => Err(Fault::NotAllowed {
            allowed: Methods::Get,
        }),
    }
}

/// Reads what the head at the front of the bytes asks for.
fn next_of(
    routes: &Routes,
    bytes: &[u8],
    headers: &[HeaderSpan],
    spans: RequestSpans,
) -> Result<Next, Fault>
    requires { IsRequestWithin bytes.now headers.now spans }
    ensures value { (head : RequestHead) → IsRequestAt bytes.now headers.now spans head
        → result ≡ next_of head }
    ensures short { IfOk result IsShort }
{
    let path = path_of(spans.path.of(bytes));
    let Ok(path) = str::from_utf8(path) else {
        return Err(Fault::NotFound);
    };
    match route_of(routes, path) {
        Some(route) => serves(
            route,
            spans.method.of(bytes),
            bytes,
            &headers[..spans.headers],
        ),
        None => Err(Fault::NotFound),
    }
}

fn report(alloc: Global, round: u8, table: u16, body: &[u8]) -> Result<Request, NoRequest>
    ensures { IsDueUnlessMemory (report_request round table (slip_games body.now)) result }
{
    match read_slip(alloc, body) {
        Ok(score) => Ok(Request::Report {
            round,
            table,
            score,
        }),
        Err(SlipFault::Bad) => Err(NoRequest::Refused(Fault::BadRequest)),
        Err(SlipFault::Memory) => Err(NoRequest::Memory),
    }
}

/// Reads a request, and says what it asks for. The answer depends only on the whole input, however it is cut.
pub fn read_request<R: Read>(
    alloc: Global,
    routes: &Routes,
    reader: &mut R,
) -> Result<Request, NoRequest>
    ensures { IfSome (R.remaining reader.old) (λ input. TellsRequest input result) }
{
    let mut buf = [0; MAX_HEAD + MAX_BODY];
    let mut headers = [EMPTY_HEADER_SPAN; MAX_FIELDS];
    let (head, filled) = read_head(reader, &mut buf, &mut headers);
    let spans = match head {
        Head::Found(spans) => spans,
        Head::Refused => return Err(NoRequest::Refused(Fault::BadRequest)),
        Head::Faulty => return Err(NoRequest::Unread),
    };
    match next_of(routes, &buf[..filled], &headers, spans) {
        Err(fault) => Err(NoRequest::Refused(fault)),
        Ok(Next::Get(asked)) => Ok(asked),
        Ok(
            Next::Body {
                round,
                table,
                length,
            },
        ) => {
            let end = spans.len + length;
            let Ok(count) = read_on(reader, &mut buf, filled, end) else {
                return Err(NoRequest::Unread);
            };
            if count < end {
                return Err(NoRequest::Refused(Fault::BadRequest));
            }
            report(alloc, round, table, &buf[spans.len..end])
        }
    }
}
