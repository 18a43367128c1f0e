//! Clients in memory, who tell what they send and what they got.
ghost use Rattle.std.specs.Prelude.{◌≡◌, ◌||◌, ◌∷◌, ◌++◌, [], List, ℕ, Option, Some, None, map, IfSome, MatchOption, MatchResult};
ghost use Rattle.std.specs.Option.{option_map};
ghost use Rattle.er_cli.specs.Clients.{Got, IsNextClient, GetsLast};

use er_cli::{AcceptFault, Clients, Visit, serve_all};
use er_slips::Routes;
use er_testing::desks::{FOUR, desk_after};
use std::alloc::Global;
use std::collections::VecDeque;
use std::io::Write;
use std::test::Fail;

/// What a client has got.
#[derive(Drop)]
struct Gone {
    bytes: Vec<u8>,
    has_failed: bool,
}

/// Clients who wait, and what those who are gone got, or None if there was no memory to keep it.
#[derive(Drop)]
pub struct Queue {
    alloc: Global,
    pub coming: VecDeque<VecDeque<u8>>,
    gone: Option<Vec<Gone>>,
}

impl Queue {
    /// The same clients, of whom nobody has got anything yet.
    pub fn anew(self) -> Queue
        ensures coming { result.coming ≡ self.coming }
        ensures got { MatchOption result.gone ⊥ (λ all. all.items ≡ []) }
    {
        Queue {
            alloc: self.alloc,
            coming: self.coming,
            gone: Some(Vec::new(self.alloc)),
        }
    }
}

/// With one more at the end.
fn with_last(gone: Option<Vec<Gone>>, last: Gone) -> Option<Vec<Gone>>
    ensures { IfSome result (λ all. MatchOption gone ⊥ (λ some. all.items ≡ some.items ++ last ∷ [])) }
{
    let mut all = gone?;
    all.push(last).ok()?;
    Some(all)
}

impl Clients for Queue {
    type Reader = VecDeque<u8>;

    type Writer = Vec<u8>;

    ghost coming = { λ queue. Some (map (λ input. input.items) queue.coming.items) };

    ghost got = { λ queue. option_map (λ gone. map (λ it.
        record { bytes = Some it.bytes.items; failed = it.has_failed }) gone.items) queue.gone };

    fn accept(&mut self) -> Result<Visit<VecDeque<u8>, Vec<u8>>, AcceptFault>
        ensures comes { MatchResult result
            (λ visit. IsNextClient (map (λ input. input.items) self.old.coming.items)
            (Some visit.reader.stream.items) (Some visit.writer.stream.items)
            (visit.reader.has_failed || visit.writer.has_failed)
            (Some (map (λ input. input.items) self.new.coming.items)))
            (λ _. self.new.coming.items ≡ self.old.coming.items) }
        ensures got { self.new.gone ≡ self.old.gone }
    {
        match self.coming.pop_front() {
            Some(input) => Ok(Visit::new(input, Vec::new(self.alloc))),
            None => Err(AcceptFault),
        }
    }

    fn let_go(&mut self, visit: Visit<VecDeque<u8>, Vec<u8>>)
        ensures coming { self.new.coming ≡ self.old.coming }
        ensures got { IfSome self.new.gone (λ all. MatchOption self.old.gone ⊥ (λ some. all.items ≡ some.items
            ++ record { bytes = visit.writer.stream; has_failed = visit.reader.has_failed || visit.writer.has_failed } ∷ [])) }
    {
        let Visit { reader, writer } = visit;
        let has_failed = reader.has_failed() || writer.has_failed();
        drop(reader);
        let last = Gone {
            bytes: writer.into_stream(),
            has_failed,
        };
        self.gone = with_last(self.gone.take(), last);
    }
}

/// The score of a match, handed in.
const POST: &str = "\
POST /rounds/1/tables/1 HTTP/1.1\r
Content-Length: 19\r
\r
{\"a\":2,\"b\":1,\"d\":0}";

const GET: &str = "GET /rounds/1/tables/1 HTTP/1.1\r\n\r\n";

const TAKEN: &str = "\
HTTP/1.1 200 OK\r
Content-Type: application/json\r
Content-Length: 12\r
Connection: close\r
\r
{\"serial\":7}";

const SCORED: &str = "\
HTTP/1.1 200 OK\r
Content-Type: application/json\r
Content-Length: 108\r
Connection: close\r
\r
{\"first\":{\"name\":\"Di\",\"no\":4},\"round\":1,\"score\":{\"a\":2,\"b\":1,\"d\":0},\"second\":{\"name\":\"Bo\",\"no\":2},\"table\":1}";

/// A queue of two clients: one hands in a score, the next one asks for the slip.
pub fn two_clients(alloc: Global) -> Option<Queue> {
    let mut coming = VecDeque::new(alloc);
    for request in [POST, GET] {
        let mut bytes: VecDeque<u8> = VecDeque::new(alloc);
        bytes.write_all(request.as_bytes()).ok()?;
        coming.push_back(bytes).ok()?;
    }
    Some(Queue {
        alloc,
        coming,
        gone: Some(Vec::new(alloc)),
    })
}

/// Whether each of the two has got its answer, the second on the event that the first one left.
pub fn both_are_answered(clients: &Queue) -> Option<bool> {
    let gone = clients.gone.as_ref()?;
    Some(
        gone.len() == 2
            && gone.iter().zip([TAKEN, SCORED]).all(|(it, due)| !it.has_failed
                && it.bytes.as_slice() == due.as_bytes()),
    )
}

/// Whether they get it over a listener.
fn are_answered(alloc: Global) -> Option<bool> {
    let mut desk = desk_after(alloc, 3, 0, FOUR)?;
    let routes = Routes::new(alloc).ok()?;
    let mut clients = two_clients(alloc)?;
    let mut out = Vec::new(alloc);
    let status = serve_all(alloc, &routes, &mut desk, &mut clients, 4000, 2, &mut out);
    let is_answered = both_are_answered(&clients)?;
    Some(status == 0 && out.as_slice() == b"listening 4000\nserved 2\n".as_slice() && is_answered)
}

#[test]
fn clients_in_memory_are_answered(rt: HostRuntime) -> Result<(), Fail> {
    assert_eq!(rt; are_answered(rt.alloc()), Some(true));
    Ok(())
}
