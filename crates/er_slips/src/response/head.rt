ghost use Rattle.std.specs.Prelude.{◌≡◌, ◌≤◌, length};
ghost use Rattle.er_slips.specs.Response.{status_line, allow_line, type_line, head_of};

use crate::request::Methods;
use er_paper::ShortText;

/// The first line of an answer.
fn status_line(status: u16) -> &'static str
    ensures value { result.now ≡ status_line status }
    ensures short { length result.now ≤ 34 }
{
    match status {
        200 => "HTTP/1.1 200 OK\r\n",
        400 => "HTTP/1.1 400 Bad Request\r\n",
        404 => "HTTP/1.1 404 Not Found\r\n",
        405 => "HTTP/1.1 405 Method Not Allowed\r\n",
        409 => "HTTP/1.1 409 Conflict\r\n",
        413 => "HTTP/1.1 413 Content Too Large\r\n",
        _ => "HTTP/1.1 503 Service Unavailable\r\n",
    }
}

/// Only in a 405: the methods that the route has.
fn allow_line(allow: Option<Methods>) -> &'static str
    ensures value { result.now ≡ allow_line allow }
    ensures short { length result.now ≤ 18 }
{
    match allow {
        None => "",
        Some(Methods::Get) => "Allow: GET\r\n",
        Some(Methods::GetAndPost) => "Allow: GET, POST\r\n",
    }
}

fn type_line(is_text: bool) -> &'static str
    ensures value { result.now ≡ type_line is_text }
    ensures short { length result.now ≤ 41 }
{
    if is_text {
        "Content-Type: text/plain; charset=utf-8\r\n"
    } else {
        "Content-Type: application/json\r\n"
    }
}

/// The head of an answer with a body of this size.
pub fn head_of(status: u16, allow: Option<Methods>, is_text: bool, size: usize) -> ShortText
    ensures value { result ≡ head_of status allow is_text size }
    ensures short { length result ≤ 152 }
{
    let mut head = ShortText::new();
    head.push(status_line(status).as_bytes());
    head.push(allow_line(allow).as_bytes());
    head.push(type_line(is_text).as_bytes());
    head.push(b"Content-Length: ");
    head.push_number(size as u64);
    head.push(b"\r\nConnection: close\r\n\r\n");
    head
}
