mod fixed;
mod head;
mod long;

use er_paper::ShortText;
pub use fixed::{fault_response, receipt_response, refusal_response};
pub use long::{slip_response, text_response};

/// An answer as a whole, before a byte of it is sent.
#[derive(Drop)]
pub enum Response {
    /// In an array, so that it takes no memory.
    Short { status: u16, text: ShortText },
    /// With a body of any length. Its status is 200.
    Long { text: Vec<u8> },
}

impl Response {
    ghost use Rattle.std.specs.Prelude.{◌≡◌};
    ghost use Rattle.er_slips.specs.Response.{response_value};

    pub fn status(&self) -> u16
        ensures { result ≡ (response_value self.now).status }
    {
        match self {
            Response::Short { status, .. } => *status,
            Response::Long { .. } => 200,
        }
    }

    pub fn as_slice(&self) -> &[u8]
        ensures { result.now ≡ (response_value self.now).bytes }
    {
        match self {
            Response::Short { text, .. } => text.as_slice(),
            Response::Long { text } => text.as_slice(),
        }
    }
}
