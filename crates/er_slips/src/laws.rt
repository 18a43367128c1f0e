//! Laws of answers, stated over the definitions only. A law is a function with no code of its own, whose contract is the law.

ghost use Rattle.er_slips.specs.Retry.{Retries};
ghost use Rattle.er_slips.specs.Serving.{WritesDue};
ghost use Rattle.er_slips.specs.Whole.{OneAnswer};

use er_desk::Desk;
use er_desk::laws::no_double_effect;
use er_rank::laws::one_standings;
use er_rules::laws::one_step;
use sqlite::Alter;

/// Of a sound event, a serial and an input there is one answer, and one command at most is submitted for it.
pub fn one_answer()
    ensures { OneAnswer }
{
    one_standings();
    one_step();
}

/// A score that was taken once, and whose answer was lost, is answered at every later point with the stored one, or that the event is no
/// longer in its Swiss rounds: handing it in again does nothing a second time.
pub fn retries()
    ensures { Retries }
{
    no_double_effect();
}

/// If a desk runs and its tables represent its event, serving a request writes the answer to it, or a 503 that names why.
pub fn writes_due<S: Alter>(_desk: &Desk<S>)
    ensures { WritesDue S.Store }
{}
