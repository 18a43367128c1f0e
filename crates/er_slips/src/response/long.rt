ghost use Rattle.std.specs.Prelude.{◌≡◌, None, IfOk};
ghost use Rattle.er_slips.specs.Response.{response_value, response_of, slip_response, text_response};

use crate::response::Response;
use crate::response::head::head_of;
use std::alloc::{AllocError, Global};

/// The answer 200 with a body of any length, a text or JSON.
fn long_response(alloc: Global, is_text: bool, body: &[u8]) -> Result<Response, AllocError>
    ensures { IfOk result (λ answer. response_value answer ≡ response_of 200 None is_text body.now) }
{
    let head = head_of(200, None, is_text, body.len());
    let mut text = Vec::from_slice(alloc, head.as_slice())?;
    text.extend_from_slice(body)?;
    Ok(Response::Long { text })
}

/// The answer with a text.
pub fn text_response(alloc: Global, text: &[u8]) -> Result<Response, AllocError>
    ensures { IfOk result (λ answer. response_value answer ≡ text_response text.now) }
{
    long_response(alloc, true, text)
}

/// The answer with a slip as JSON.
pub fn slip_response(alloc: Global, slip: &[u8]) -> Result<Response, AllocError>
    ensures { IfOk result (λ answer. response_value answer ≡ slip_response slip.now) }
{
    long_response(alloc, false, slip)
}
