//! Requests over HTTP that a desk answers, whole and byte by byte, and connections that break. A text of requests has one on each line, in
//! which `|` stands for CR LF.

use er_desk::Desk;
use er_slips::{Routes, ServeEnd, serve_one};
use er_testing::desks::{FOUR, THREE, desk_after};
use er_testing::wires::{Break, Endless, Sink, Source};
use sqlite::{Alter, MemStore};
use std::alloc::Global;
use std::io::{Read, Write};
use std::test::Fail;

/// As many calls of read as one request may take.
const MOST_CALLS: usize = 12_289;

/// The score of a match, handed in.
const POST: &str = "\
POST /rounds/1/tables/1 HTTP/1.1\r
Content-Length: 19\r
\r
{\"a\":2,\"b\":1,\"d\":0}";

const TAKEN: &str = "\
HTTP/1.1 200 OK\r
Content-Type: application/json\r
Content-Length: 12\r
Connection: close\r
\r
{\"serial\":7}";

const TAKEN_BEFORE: &str = "\
HTTP/1.1 409 Conflict\r
Content-Type: application/json\r
Content-Length: 67\r
Connection: close\r
\r
{\"name\":\"AlreadyReported\",\"refused\":14,\"score\":{\"a\":2,\"b\":1,\"d\":0}}";

const BAD_SCORE: &str = "\
HTTP/1.1 409 Conflict\r
Content-Type: application/json\r
Content-Length: 32\r
Connection: close\r
\r
{\"name\":\"BadScore\",\"refused\":13}";

const SLIP: &str = "\
HTTP/1.1 200 OK\r
Content-Type: application/json\r
Content-Length: 93\r
Connection: close\r
\r
{\"first\":{\"name\":\"Di\",\"no\":4},\"round\":1,\"score\":null,\"second\":{\"name\":\"Bo\",\"no\":2},\"table\":1}";

const BYE_SLIP: &str = "\
HTTP/1.1 200 OK\r
Content-Type: application/json\r
Content-Length: 92\r
Connection: close\r
\r
{\"first\":{\"name\":\"Cy\",\"no\":3},\"round\":1,\"score\":{\"a\":2,\"b\":0,\"d\":0},\"second\":null,\"table\":0}";

const SCORED_SLIP: &str = "\
HTTP/1.1 200 OK\r
Content-Type: application/json\r
Content-Length: 109\r
Connection: close\r
\r
{\"first\":{\"name\":\"Bo\",\"no\":2},\"round\":1,\"score\":{\"a\":2,\"b\":0,\"d\":0},\"second\":{\"name\":\"Ana\",\"no\":1},\"table\":1}";

const PAIRINGS: &str = "\
HTTP/1.1 200 OK\r
Content-Type: text/plain; charset=utf-8\r
Content-Length: 86\r
Connection: close\r
\r
 Tab    A    B Score Names
   1    4    2 -     Di - Bo
   2    1    3 -     Ana - Cy
";

const STANDINGS: &str = "\
HTTP/1.1 200 OK\r
Content-Type: text/plain; charset=utf-8\r
Content-Length: 203\r
Connection: close\r
\r
Rank   No Pts    OMW    GWP    OGW D Name
   1    1   0  33.00  33.00  33.00   Ana
   1    2   0  33.00  33.00  33.00   Bo
   1    3   0  33.00  33.00  33.00   Cy
   1    4   0  33.00  33.00  33.00   Di
";

const BAD_REQUEST: &str = "\
HTTP/1.1 400 Bad Request\r
Content-Type: application/json\r
Content-Length: 23\r
Connection: close\r
\r
{\"error\":\"bad request\"}";

const NOT_FOUND: &str = "\
HTTP/1.1 404 Not Found\r
Content-Type: application/json\r
Content-Length: 21\r
Connection: close\r
\r
{\"error\":\"not found\"}";

const NO_SUCH_MATCH: &str = "\
HTTP/1.1 404 Not Found\r
Content-Type: application/json\r
Content-Length: 35\r
Connection: close\r
\r
{\"name\":\"NoSuchMatch\",\"refused\":12}";

const GET_ALONE: &str = "\
HTTP/1.1 405 Method Not Allowed\r
Allow: GET\r
Content-Type: application/json\r
Content-Length: 30\r
Connection: close\r
\r
{\"error\":\"method not allowed\"}";

const GET_OR_POST: &str = "\
HTTP/1.1 405 Method Not Allowed\r
Allow: GET, POST\r
Content-Type: application/json\r
Content-Length: 30\r
Connection: close\r
\r
{\"error\":\"method not allowed\"}";

const TOO_LARGE: &str = "\
HTTP/1.1 413 Content Too Large\r
Content-Type: application/json\r
Content-Length: 26\r
Connection: close\r
\r
{\"error\":\"body too large\"}";

/// The answer of a desk that has to be opened anew.
const UNAVAILABLE: &str = "\
HTTP/1.1 503 Service Unavailable\r
Content-Type: application/json\r
Content-Length: 35\r
Connection: close\r
\r
{\"name\":\"NeedsReopen\",\"refused\":26}";

/// The status in an answer's first line.
fn status(answer: &str) -> Option<u16> {
    let (_version, rest) = answer.split_once(' ')?;
    let (status, _reason) = rest.split_once(' ')?;
    status.parse().ok()
}

/// Serves one request, on routes of its own.
fn serve<S: Alter, R: Read, W: Write>(
    alloc: Global,
    desk: &mut Desk<S>,
    reader: &mut R,
    writer: &mut W,
) -> Option<ServeEnd> {
    let routes = Routes::new(alloc).ok()?;
    Some(serve_one(alloc, &routes, desk, reader, writer))
}

/// Whether a request has just this answer, after no more calls of read than it may take.
fn has_answer<S: Alter>(
    alloc: Global,
    desk: &mut Desk<S>,
    mut request: Source<'_>,
    answer: &str,
) -> bool {
    let mut written = Vec::new(alloc);
    let served = serve(alloc, desk, &mut request, &mut written);
    let status = status(answer).map(|status| ServeEnd::Answered { status });
    served.is_some()
        && served == status
        && written.as_slice() == answer.as_bytes()
        && request.calls <= MOST_CALLS
}

/// The same of a request that comes whole, and then byte by byte.
fn is_answered<S: Alter>(alloc: Global, desk: &mut Desk<S>, request: &[u8], answer: &str) -> bool {
    has_answer(alloc, desk, Source::new(request, usize::MAX), answer)
        && has_answer(alloc, desk, Source::new(request, 1), answer)
}

/// The bytes of a request's line.
fn bytes(alloc: Global, line: &str) -> Option<Vec<u8>> {
    let mut bytes = Vec::new(alloc);
    for byte in line.bytes() {
        match byte {
            b'|' => bytes.extend_from_slice(b"\r\n").ok()?,
            byte => bytes.push(byte).ok()?,
        }
    }
    Some(bytes)
}

/// Whether each of these requests has this answer.
pub fn are_answered<S: Alter>(
    alloc: Global,
    desk: &mut Desk<S>,
    requests: &str,
    answer: &str,
) -> bool {
    for line in requests.lines() {
        match bytes(alloc, line) {
            Some(request) if is_answered(alloc, desk, request.as_slice(), answer) => {}
            _ => return false,
        }
    }
    true
}

/// Whether requests of each kind are answered that the desk has to be opened anew.
pub fn are_unavailable<S: Alter>(alloc: Global, desk: &mut Desk<S>) -> bool {
    are_answered(alloc, desk, TO_THE_DESK, UNAVAILABLE)
}

const TO_THE_DESK: &str = "\
GET /standings HTTP/1.1||
GET /rounds/1 HTTP/1.1||
GET /rounds/1/tables/1 HTTP/1.1||
POST /rounds/1/tables/1 HTTP/1.1|Content-Length: 19||{\"a\":2,\"b\":1,\"d\":0}
";

const BAD_REQUESTS: &str = "\
GET /standings HTTP/1.1|Host: a|
POST /rounds/1/tables/1 HTTP/1.1||
POST /rounds/1/tables/1 HTTP/1.1|Content-Length: 7||{\"a\":2}
POST /rounds/1/tables/1 HTTP/1.1|Content-Length: 20||{\"a\":2,\"b\":1,\"d\":0}
POST /rounds/1/tables/1 HTTP/1.1|Content-Length: 19|content-length: 19||{\"a\":2,\"b\":1,\"d\":0}
POST /rounds/1/tables/1 HTTP/1.1|Content-Length: 19|Transfer-Encoding: chunked||{\"a\":2,\"b\":1,\"d\":0}
POST /rounds/1/tables/1 HTTP/1.1|Content-Length: 25||{\"a\":2,\"b\":1,\"d\":0,\"e\":0}
POST /rounds/1/tables/1 HTTP/1.1|Content-Length: 21||{\"a\":2.0,\"b\":1,\"d\":0}
POST /rounds/1/tables/1 HTTP/1.1|Content-Length: 21||{\"a\":256,\"b\":1,\"d\":0}
";

const BAD_SCORES: &str = "\
POST /rounds/1/tables/1 HTTP/1.1|Content-Length: 19||{\"a\":2,\"b\":2,\"d\":0}
";

/// Requests that change nothing, and the answer of each.
const CHANGING_NOTHING: [(&str, &str); 10] = [
    ("GET /nope HTTP/1.1||", NOT_FOUND),
    ("GET /rounds/9 HTTP/1.1||", NO_SUCH_MATCH),
    ("GET /rounds/1/tables/9 HTTP/1.1||", NO_SUCH_MATCH),
    ("DELETE /standings HTTP/1.1||", GET_ALONE),
    ("DELETE /rounds/1/tables/1 HTTP/1.1||", GET_OR_POST),
    (BAD_REQUESTS, BAD_REQUEST),
    (BAD_SCORES, BAD_SCORE),
    (
        "POST /rounds/1/tables/1 HTTP/1.1|Content-Length: 4097||",
        TOO_LARGE,
    ),
    ("GET /rounds/1 HTTP/1.1||", PAIRINGS),
    ("GET /rounds/1/tables/1 HTTP/1.1||", SLIP),
];

/// A desk after worked example 4, with which each test begins.
fn paired(alloc: Global) -> Option<Desk<MemStore>> {
    desk_after(alloc, 3, 0, FOUR)
}

/// Whether each of these requests to one desk has its answer, and none changes it.
fn change_nothing(alloc: Global, requests: &[(&str, &str)]) -> Option<bool> {
    let mut desk = paired(alloc)?;
    for (requests, answer) in requests {
        if !are_answered(alloc, &mut desk, requests, answer) {
            return Some(false);
        }
    }
    Some(desk.serial() == Ok(6))
}

/// Worked examples 23 and 51, and the short requests of 44.
#[test]
fn requests_that_change_nothing_are_answered(rt: HostRuntime) -> Result<(), Fail> {
    assert_eq!(rt; change_nothing(rt.alloc(), &CHANGING_NOTHING), Some(true));
    Ok(())
}

/// Whether the slips of a bye and of a match with its score are shown.
fn shows_slips(alloc: Global) -> Option<bool> {
    let mut desk = desk_after(alloc, 4, 0, THREE)?;
    let bye = are_answered(
        alloc,
        &mut desk,
        "GET /rounds/1/tables/0 HTTP/1.1||",
        BYE_SLIP,
    );
    let scored = are_answered(
        alloc,
        &mut desk,
        "GET /rounds/1/tables/1 HTTP/1.1||",
        SCORED_SLIP,
    );
    Some(bye && scored)
}

#[test]
fn a_bye_and_a_score_are_shown(rt: HostRuntime) -> Result<(), Fail> {
    assert_eq!(rt; shows_slips(rt.alloc()), Some(true));
    Ok(())
}

/// A request for the standings whose head has `size` bytes.
fn long_get(alloc: Global, size: usize) -> Option<String> {
    let room = size.saturating_sub(32);
    format!(in alloc; "GET /standings HTTP/1.1\r\nA: {:x>room$}\r\n\r\n", "").ok()
}

/// A request for the standings with `fields` fields.
fn get_with(alloc: Global, fields: usize) -> Option<String> {
    let mut request = String::from_str(alloc, "GET /standings HTTP/1.1\r\n").ok()?;
    for _ in 0..fields {
        request.push_str("A: b\r\n").ok()?;
    }
    request.push_str("\r\n").ok()?;
    Some(request)
}

/// Whether a new desk gives this answer.
fn gives(alloc: Global, request: Option<String>, answer: &str) -> bool {
    match (paired(alloc), request) {
        (Some(mut desk), Some(request)) => is_answered(
            alloc,
            &mut desk,
            request.as_bytes(),
            answer,
        ),
        _ => false,
    }
}

/// The heads of worked example 44 at their limits.
#[test]
fn heads_have_limits(rt: HostRuntime) -> Result<(), Fail> {
    let alloc = rt.alloc();
    assert_eq!(rt; long_get(alloc, 8192).map(|head| head.len()), Some(8192));
    assert!(rt; gives(alloc, long_get(alloc, 8192), STANDINGS));
    assert!(rt; gives(alloc, long_get(alloc, 8193), BAD_REQUEST));
    assert!(rt; gives(alloc, get_with(alloc, 32), STANDINGS));
    assert!(rt; gives(alloc, get_with(alloc, 33), BAD_REQUEST));
    Ok(())
}

/// The score with spaces after it, 4096 bytes, after a head with `size` bytes.
fn long_post(alloc: Global, size: usize) -> Option<String> {
    let room = size.saturating_sub(63);
    format!(in alloc;
        "POST /rounds/1/tables/1 HTTP/1.1\r\nContent-Length: 4096\r\nA: {:x>room$}\r\n\r\n{:<4096}",
        "", "{\"a\":2,\"b\":1,\"d\":0}"
    )
    .ok()
}

/// Whether a new desk takes a score that comes in pieces of `step` bytes, and then answers that it is taken.
fn is_taken(alloc: Global, request: &[u8], step: usize) -> Option<bool> {
    let mut desk = paired(alloc)?;
    let is_right = has_answer(alloc, &mut desk, Source::new(request, step), TAKEN)
        && is_answered(alloc, &mut desk, request, TAKEN_BEFORE);
    Some(is_right && desk.serial() == Ok(7))
}

/// Whether a score is taken once, whether it comes whole or byte by byte.
fn is_taken_once(alloc: Global, request: &[u8]) -> bool {
    is_taken(alloc, request, usize::MAX) == Some(true) && is_taken(alloc, request, 1) == Some(true)
}

fn long_one_is_taken_once(alloc: Global) -> Option<bool> {
    let request = long_post(alloc, 8192)?;
    Some(request.len() == 8192 + 4096 && is_taken_once(alloc, request.as_bytes()))
}

/// Worked example 14, and the long body of 44 after the longest head.
#[test]
fn a_score_is_taken_once(rt: HostRuntime) -> Result<(), Fail> {
    let alloc = rt.alloc();
    assert!(rt; is_taken_once(alloc, POST.as_bytes()));
    assert_eq!(rt; long_one_is_taken_once(alloc), Some(true));
    Ok(())
}

/// How serving an input without an end ends, and after how many calls.
fn serve_endless(alloc: Global) -> Option<(ServeEnd, usize)> {
    let mut desk = paired(alloc)?;
    let mut endless = Endless { calls: 0 };
    let served = serve(alloc, &mut desk, &mut endless, &mut Vec::new(alloc))?;
    Some((served, endless.calls))
}

#[test]
fn an_input_without_an_end_is_refused(rt: HostRuntime) -> Result<(), Fail> {
    let refused = ServeEnd::Answered { status: 400 };
    assert_eq!(rt; serve_endless(rt.alloc()), Some((refused, 8192)));
    Ok(())
}

/// Whether the score that comes byte by byte ends at a call of read that fails, with nothing written.
fn ends_at(alloc: Global, desk: &mut Desk<MemStore>, call: usize) -> bool {
    let mut source = Source::failing(POST.as_bytes(), call);
    let mut written = Vec::new(alloc);
    let served = serve(alloc, desk, &mut source, &mut written);
    served == Some(ServeEnd::ReadFault) && written.is_empty() && source.calls == call
}

/// Whether each call in turn that fails leaves the serial at 6, and no call is made after the last byte.
fn needs_each_read(alloc: Global) -> Option<bool> {
    let mut desk = paired(alloc)?;
    for call in 1..=POST.len() {
        if !ends_at(alloc, &mut desk, call) {
            return Some(false);
        }
    }
    let last = Source::failing(POST.as_bytes(), POST.len().saturating_add(1));
    Some(has_answer(alloc, &mut desk, last, TAKEN))
}

/// Worked example 45: nothing is submitted. A client that waits for its answer after the last byte gets it.
#[test]
fn a_read_that_fails_ends_it(rt: HostRuntime) -> Result<(), Fail> {
    assert_eq!(rt; needs_each_read(rt.alloc()), Some(true));
    Ok(())
}

/// Whether the answer to the score goes out as far as a writer takes it.
fn is_cut(alloc: Global, desk: &mut Desk<MemStore>, room: usize, then: Break) -> bool {
    let mut source = Source::new(POST.as_bytes(), usize::MAX);
    let mut sink = Sink {
        taken: Vec::new(alloc),
        room,
        then,
    };
    let served = serve(alloc, desk, &mut source, &mut sink);
    served == Some(ServeEnd::WriteFault { sent: room })
        && Some(sink.taken.as_slice()) == TAKEN.as_bytes().get(..room)
}

/// Whether the score of a lost answer stays taken.
fn stays_taken(alloc: Global, room: usize, then: Break) -> Option<bool> {
    let mut desk = paired(alloc)?;
    let is_cut = is_cut(alloc, &mut desk, room, then);
    let is_taken = desk.serial() == Ok(7)
        && is_answered(alloc, &mut desk, POST.as_bytes(), TAKEN_BEFORE);
    Some(is_cut && is_taken)
}

/// Worked example 45: a command that was accepted stays accepted, however little of its answer has gone out.
#[test]
fn a_lost_answer_stays_accepted(rt: HostRuntime) -> Result<(), Fail> {
    let alloc = rt.alloc();
    for room in 0..TAKEN.len() {
        assert_eq!(rt;
            stays_taken(alloc, room, Break::Fails),
            Some(true),
            "{room}"
        );
    }
    assert_eq!(rt; stays_taken(alloc, 50, Break::TakesNone), Some(true));
    assert_eq!(rt;
        stays_taken(alloc, TAKEN.len(), Break::FailsToFlush),
        Some(true)
    );
    Ok(())
}
