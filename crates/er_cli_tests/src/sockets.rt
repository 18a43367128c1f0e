//! Clients over real sockets. They send their requests before anybody serves them, so that nothing runs at the same time.

use er_cli::serve_on;
use er_slips::Routes;
use er_testing::desks::{FOUR, desk_after};
use std::alloc::Global;
use std::io::{BufWriter, Read, Write};
use std::net::{Ipv4Addr, Shutdown, SocketAddr, TcpListener, TcpStream};
use std::test::Fail;

/// The score of a match, handed in.
const POST: &str = "\
POST /rounds/1/tables/1 HTTP/1.1\r
Content-Length: 19\r
\r
{\"a\":2,\"b\":1,\"d\":0}";

const GET: &str = "GET /rounds/1/tables/1 HTTP/1.1\r\n\r\n";

const TAKEN: &str = "\
HTTP/1.1 200 OK\r
Content-Type: application/json\r
Content-Length: 12\r
Connection: close\r
\r
{\"serial\":7}";

const SCORED: &str = "\
HTTP/1.1 200 OK\r
Content-Type: application/json\r
Content-Length: 108\r
Connection: close\r
\r
{\"first\":{\"name\":\"Di\",\"no\":4},\"round\":1,\"score\":{\"a\":2,\"b\":1,\"d\":0},\"second\":{\"name\":\"Bo\",\"no\":2},\"table\":1}";

/// A client that has sent its whole request.
fn client(rt: &HostRuntime, address: SocketAddr, request: &str) -> Option<TcpStream> {
    let stream = TcpStream::connect(rt, address).ok()?;
    (&stream).write_all(request.as_bytes()).ok()?;
    stream.shutdown(Shutdown::Write).ok()?;
    Some(stream)
}

/// A listener with a client who hands in a score, one who sends nothing, and one who asks for the slip.
fn three_clients(rt: &HostRuntime) -> Option<(TcpListener, TcpStream, TcpStream, TcpStream)> {
    let listener = TcpListener::bind(rt, (Ipv4Addr::LOCALHOST, 0)).ok()?;
    let address = listener.local_addr().ok()?;
    let first = client(rt, address, POST)?;
    let silent = TcpStream::connect(rt, address).ok()?;
    let last = client(rt, address, GET)?;
    Some((listener, first, silent, last))
}

/// The status, and what is printed to a writer that holds it back, if three clients of a listener are served.
fn serve_three(rt: &HostRuntime, listener: &TcpListener) -> Option<(u8, BufWriter<Vec<u8>>)> {
    let mut desk = desk_after(rt.alloc(), 3, 0, FOUR)?;
    let routes = Routes::new(rt.alloc()).ok()?;
    let mut out = BufWriter::new(rt.alloc(), Vec::new(rt.alloc())).ok()?;
    let status = serve_on(rt, &routes, &mut desk, listener, 3, &mut out);
    Some((status, out))
}

/// Whether a client got this answer.
fn got(alloc: Global, mut client: &TcpStream, answer: &str) -> bool {
    let mut bytes = Vec::new(alloc);
    client.read_to_end(&mut bytes).is_ok() && bytes.as_slice() == answer.as_bytes()
}

/// Whether clients are served in the order in which they came, one who sends nothing is let go without an answer, and each line that is
/// printed has gone out.
fn are_served(rt: &HostRuntime) -> Option<bool> {
    let alloc = rt.alloc();
    let (listener, first, silent, last) = three_clients(rt)?;
    let (status, out) = serve_three(rt, &listener)?;
    let port = listener.local_addr().ok()?.port();
    let due = format!(in alloc; "listening {port}\nserved 3\n").ok()?;
    Some(
        status == 0
            && out.get_ref().as_slice() == due.as_bytes()
            && got(alloc, &first, TAKEN)
            && got(alloc, &silent, "")
            && got(alloc, &last, SCORED),
    )
}

/// Worked example 36, with a client between the two who holds nobody up.
#[test]
fn clients_are_served(rt: HostRuntime) -> Result<(), Fail> {
    assert_eq!(rt; are_served(&rt), Some(true));
    Ok(())
}
