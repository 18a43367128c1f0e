ghost use Rattle.std.specs.Prelude.{◌≡◌, None, MatchResult, OnOk};
ghost use Rattle.er_desk.specs.Asking.{AsksSome};
ghost use Rattle.er_cli.specs.Clients.{KnewBefore, ServesKnown};
ghost use Rattle.er_cli.specs.declared.TheConstants.{DONE};
ghost use Rattle.er_cli.specs.Help.{stream};
ghost use Rattle.er_cli.specs.Serving.{ConnectsMany, ConnectsNext, ConnectsUpTo, PrintsServed, PrintsSome, ServesAll};
ghost use Rattle.er_cli.specs.inside.Serving.{listening_text, served_text};

use crate::clients::{AcceptFault, Clients, Listening};
use crate::texts::{Print, WriteFault};
use crate::{DEVICE, DONE};
use er_desk::Desk;
use er_paper::ShortText;
use er_slips::{Routes, serve_one};
use sqlite::Alter;
use std::alloc::Global;
use std::io::Write;
use std::net::TcpListener;

fn listening_line(port: u16) -> ShortText
    ensures { result ≡ listening_text port }
{
    let mut line = ShortText::new();
    line.push(b"listening ");
    line.push_number(u64::from(port));
    line.push(b"\n");
    line
}

fn served_line(count: u32) -> ShortText
    ensures { result ≡ served_text count }
{
    let mut line = ShortText::new();
    line.push(b"served ");
    line.push_number(u64::from(count));
    line.push(b"\n");
    line
}

/// Serves the request of the next client. One that goes away, or whose time is over, counts as served.
fn serve_next<S: Alter, C: Clients>(
    alloc: Global,
    routes: &Routes,
    desk: &mut Desk<S>,
    clients: &mut C,
) -> Result<(), AcceptFault>
    ensures turns { AsksSome S.Store desk.old (ConnectsNext (C.coming clients.old) (C.coming clients.new)) desk.new }
    ensures served { OnOk result
        (ServesKnown S.Store 1 (C.coming clients.old) (C.got clients.old)
        desk.old (C.coming clients.new) (C.got clients.new) desk.new) }
    ensures knew { KnewBefore (C.got clients.old) (C.got clients.new) }
{
    // If no client can be had, nothing is asked of the file: this tells the proof.
    desk.asks_nothing();
    let mut visit = clients.accept()?;
    let served = serve_one(alloc, routes, desk, &mut visit.reader, &mut visit.writer);
    let is_told = visit.tells(served);
    clients.let_go(visit);
    if is_told { Ok(()) } else { Err(AcceptFault) }
}

/// Serves `count` clients, one after the other.
pub fn serve_clients<S: Alter, C: Clients>(
    alloc: Global,
    routes: &Routes,
    desk: &mut Desk<S>,
    clients: &mut C,
    count: u32,
) -> Result<(), AcceptFault>
    ensures turns { MatchResult result (λ _. AsksSome S.Store desk.old (ConnectsMany count (C.coming clients.old)) desk.new)
        (λ _. AsksSome S.Store desk.old (ConnectsUpTo count (C.coming clients.old)) desk.new) }
    // Of clients of whom it is known what they send, each got its answer, on the event that those before it left.
    ensures served { OnOk result (ServesKnown S.Store count (C.coming clients.old)
        (C.got clients.old) desk.old (C.coming clients.new) (C.got clients.new) desk.new) }
    ensures knew { KnewBefore (C.got clients.old) (C.got clients.new) }
{
    // The session grows client by client, from nothing: these tell the proof.
    desk.asks_then();
    desk.asks_nothing();
    for _ in 0..count {
        let Ok(()) = serve_next(alloc, routes, desk, clients) else {
            return Err(AcceptFault);
        };
    }
    Ok(())
}

/// Serves `count` clients, one after the other, and gives the status to end with: 3 if no client can be had or a print fails. Prints the
/// port that they come to, and at the end how many it has served. A client that goes away counts as served.
pub fn serve_all<S: Alter, C: Clients, W: Print>(
    alloc: Global,
    routes: &Routes,
    desk: &mut Desk<S>,
    clients: &mut C,
    port: u16,
    count: u32,
    out: &mut W,
) -> u8
    // Each client leaves the desk as it was, has it read its standings or a slip, or hands it one score: these scores are the session.
    ensures turns { AsksSome S.Store desk.old (ServesAll count result (C.coming clients.old)) desk.new }
    ensures printed { PrintsServed port count (stream (W.printed out.old) (W.printed out.new)) result }
    // If all are served, each of those of whom it is known what they send got its answer.
    ensures served { result ≡ DONE → ServesKnown S.Store count (C.coming clients.old)
        (C.got clients.old) desk.old (C.coming clients.new) (C.got clients.new) desk.new }
{
    // If nobody is served, nothing is asked of the file: this tells the proof.
    desk.asks_nothing();
    let Ok(()) = out.print(listening_line(port).as_slice()) else {
        return DEVICE;
    };
    let Ok(()) = serve_clients(alloc, routes, desk, clients, count) else {
        return DEVICE;
    };
    match out.print(served_line(count).as_slice()) {
        Ok(()) => DONE,
        Err(WriteFault) => DEVICE,
    }
}

/// Serves `count` clients of a listener, as `serve_all` does. Each has a second for each read, five for its
/// request, ten for each write, and thirty in all: then it counts as served too, and the next one is taken.
pub fn serve_on<S: Alter, W: Write>(
    rt: &HostRuntime,
    routes: &Routes,
    desk: &mut Desk<S>,
    listener: &TcpListener,
    count: u32,
    out: &mut W,
) -> u8
    ensures turns { AsksSome S.Store desk.old (ServesAll count result None) desk.new }
    ensures printed { PrintsSome 0 count (stream (W.contents out.old) (W.contents out.new)) result }
{
    // If nobody is served, nothing is asked of the file: this tells the proof.
    desk.asks_nothing();
    let Ok(address) = listener.local_addr() else {
        return DEVICE;
    };
    let Ok(listener) = listener.try_clone() else {
        return DEVICE;
    };
    let mut clients = Listening::new(rt, listener);
    serve_all(
        rt.alloc(),
        routes,
        desk,
        &mut clients,
        address.port(),
        count,
        out,
    )
}
