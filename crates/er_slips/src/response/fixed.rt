ghost use Rattle.std.specs.Prelude.{◌≡◌, ◌≤◌, ◌+◌, ◌++◌, None, false, length};
ghost use Rattle.er_event.specs.Refusal.{entry_of};
ghost use Rattle.er_slips.specs.Response.{response_value, response_of, fault_response, status_of, games_object, detail, refusal_body};
ghost use Rattle.er_slips.specs.Response.{refusal_response};
ghost use Rattle.er_slips.specs.Response.{receipt_body, receipt_response};

use crate::request::{Fault, Methods};
use crate::response::Response;
use crate::response::head::head_of;
use er_event::{Receipt, Refusal, Score};
use er_paper::ShortText;

/// The answer with this JSON.
fn response_of(status: u16, allow: Option<Methods>, body: &[u8]) -> Response
    requires { length body.now ≤ 168 }
    ensures { response_value result ≡ response_of status allow false body.now }
{
    let mut text = head_of(status, allow, false, body.len());
    text.push(body);
    Response::Short { status, text }
}

/// The answer to a request that the desk is not asked about. It takes no memory.
pub fn fault_response(fault: Fault) -> Response
    ensures { response_value result ≡ fault_response fault }
{
    match fault {
        Fault::BadRequest => response_of(400, None, b"{\"error\":\"bad request\"}"),
        Fault::NotFound => response_of(404, None, b"{\"error\":\"not found\"}"),
        Fault::NotAllowed { allowed } => response_of(
            405,
            Some(allowed),
            b"{\"error\":\"method not allowed\"}",
        ),
        Fault::TooLarge => response_of(413, None, b"{\"error\":\"body too large\"}"),
    }
}

fn status_of(refusal: &Refusal) -> u16
    ensures { result ≡ status_of refusal.now }
{
    match refusal {
        Refusal::NoSuchMatch => 404,
        Refusal::Memory | Refusal::Store { .. } | Refusal::NeedsReopen => 503,
        _ => 409,
    }
}

fn push_games(body: &mut ShortText, score: Score)
    requires { length body.old ≤ 200 }
    ensures value { body.new ≡ body.old ++ games_object score }
    ensures size { length body.new ≤ length body.old + 76 }
{
    let games = score.games();
    body.push(b"{\"a\":");
    body.push_number(u64::from(games.x));
    body.push(b",\"b\":");
    body.push_number(u64::from(games.y));
    body.push(b",\"d\":");
    body.push_number(u64::from(games.d));
    body.push(b"}");
}

fn push_detail(body: &mut ShortText, refusal: &Refusal)
    requires { length body.old ≤ 190 }
    ensures value { body.new ≡ body.old ++ detail refusal.now }
    ensures size { length body.new ≤ length body.old + 85 }
{
    if let Refusal::AlreadyReported { score } = refusal {
        body.push(b",\"score\":");
        push_games(body, *score);
    }
}

fn name_of(refusal: &Refusal) -> &'static str
    ensures value { result.now ≡ (entry_of refusal.now).1 }
    ensures short { length result.now ≤ 15 }
{
    refusal.name()
}

fn refusal_body(refusal: &Refusal) -> ShortText
    ensures value { result ≡ refusal_body refusal.now }
    ensures short { length result ≤ 168 }
{
    let mut body = ShortText::new();
    body.push(b"{\"name\":\"");
    body.push(name_of(refusal).as_bytes());
    body.push(b"\",\"refused\":");
    body.push_number(u64::from(refusal.number()));
    push_detail(&mut body, refusal);
    body.push(b"}");
    body
}

/// The answer if the desk refused. It takes no memory.
pub fn refusal_response(refusal: &Refusal) -> Response
    ensures { response_value result ≡ refusal_response refusal.now }
{
    let body = refusal_body(refusal);
    response_of(status_of(refusal), None, body.as_slice())
}

fn receipt_body(receipt: Receipt) -> ShortText
    ensures value { result ≡ receipt_body receipt.serial }
    ensures short { length result ≤ 168 }
{
    let mut body = ShortText::new();
    body.push(b"{\"serial\":");
    body.push_number(u64::from(receipt.serial));
    body.push(b"}");
    body
}

/// The answer if a command was accepted. It takes no memory.
pub fn receipt_response(receipt: Receipt) -> Response
    ensures { response_value result ≡ receipt_response receipt.serial }
{
    let body = receipt_body(receipt);
    response_of(200, None, body.as_slice())
}
