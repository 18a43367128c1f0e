ghost use Rattle.std.specs.Prelude.{◌≡◌, ◌≤◌, IfOk, length, take};
ghost use Rattle.er_slips.specs.Routes.{before_slash, after_slash, routes, pattern_of};
ghost use Rattle.er_slips.specs.Request.{path_of, path_number, path_round, round_route, table_route, route_of};

use er_paper::digits;
use matchit::{InsertError, Router};
use std::alloc::{AllocError, Global};
use std::marker::Model;

/// What the paths of a route look like.
#[derive(Clone, Copy)]
pub enum Pattern {
    /// `/standings`
    Standings,
    /// `/rounds/{r}`
    Round,
    /// `/rounds/{r}/tables/{t}`
    Table,
}

/// What a path names.
#[derive(Clone, Copy)]
pub enum Route {
    Standings,
    Round { round: u8 },
    Table { round: u8, table: u16 },
}

fn router(alloc: Global) -> Result<Router<Pattern>, InsertError>
    ensures { IfOk result (λ r. r ≡ routes) }
{
    let mut router = Router::new(alloc);
    router.insert("/standings", Pattern::Standings)?;
    router.insert("/rounds/{r}", Pattern::Round)?;
    router.insert("/rounds/{r}/tables/{t}", Pattern::Table)?;
    Ok(router)
}

/// The routes that requests are answered on, which are the same for each request.
#[derive(Drop)]
pub struct Routes {
    router: Router<Pattern>,
}

impl Model for Routes {
    ghost use Rattle.std.specs.Prelude.{◌≡◌};
    ghost use Rattle.matchit.specs.Rows.{RowsOf};
    ghost use Rattle.matchit.specs.Router.{RouteOf};
    ghost use Rattle.er_slips.specs.declared.request.routes.Pattern.{Pattern};
    ghost use Rattle.er_slips.specs.Routes.{routes};

    ghost Value = { RowsOf (RouteOf Pattern) };

    ghost view = { λ r. r.router };

    ghost invariant = { λ r. r.router ≡ routes };
}

impl Routes {
    /// The three routes. Fails only if memory runs out.
    pub fn new(alloc: Global) -> Result<Routes, AllocError> {
        match router(alloc) {
            Ok(router) => Ok(Routes { router }),
            Err(_) => Err(AllocError),
        }
    }

    /// Which of the three the path looks like.
    fn pattern_of(&self, path: &str) -> Option<Pattern>
        ensures { result ≡ pattern_of path.now }
    {
        match self.router.at(path) {
            Ok(found) => Some(*found.value),
            Err(_) => None,
        }
    }
}

/// The target up to its first question mark.
pub fn path_of(target: &[u8]) -> &[u8]
    ensures { result.now ≡ path_of target.now }
{
    let mut end = 0;
    while end < target.len() && target[end] != b'?' {
        end += 1;
    }
    &target[..end]
}

/// What stands before the first slash, and what stands from it on.
fn split(text: &[u8]) -> (&[u8], &[u8])
    ensures before_slash { result.0.now ≡ before_slash text.now }
    ensures after_slash { result.1.now ≡ after_slash text.now }
{
    let mut end = 0;
    while end < text.len() && text[end] != b'/' {
        end += 1;
    }
    (&text[..end], &text[end..])
}

/// Parses 1 to 3 digits as a number.
fn number_of(part: &[u8]) -> Option<u16>
    ensures { result ≡ path_number part.now }
{
    if part.len() > 3 {
        return None;
    }
    digits(part)?.parse().ok()
}

fn round_of(part: &[u8]) -> Option<u8>
    ensures { result ≡ path_round part.now }
{
    u8::try_from(number_of(part)?).ok()
}

fn round_route(rest: &[u8]) -> Option<Route>
    ensures { result ≡ round_route rest.now }
{
    let (round, _) = split(rest);
    Some(Route::Round {
        round: round_of(round)?,
    })
}

fn table_route(rest: &[u8]) -> Option<Route>
    ensures { result ≡ table_route rest.now }
{
    let (round, rest) = split(rest);
    let round = round_of(round)?;
    let table = number_of(rest.strip_prefix(b"/tables/")?)?;
    Some(Route::Table { round, table })
}

/// The route of a path.
pub fn route_of(routes: &Routes, path: &str) -> Option<Route>
    ensures { result ≡ route_of path.now }
{
    let bytes = path.as_bytes();
    match routes.pattern_of(path)? {
        Pattern::Standings => Some(Route::Standings),
        Pattern::Round => round_route(bytes.strip_prefix(b"/rounds/")?),
        Pattern::Table => table_route(bytes.strip_prefix(b"/rounds/")?),
    }
}
