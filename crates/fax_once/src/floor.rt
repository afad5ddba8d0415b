//! A client's floor: through which number it gives up its replies.

ghost use Rattle.std.specs.Prelude.{◌≡◌, ◌<◌, ◌^◌, None, Some, if◌then◌else◌};
ghost use Rattle.fax_run.specs.Verdict.{is_too_high, raised_ask};

use fax_core::Ask;
use fax_job::RequestNumber;

/// What is asked for, where the client's floor is this one, which rises only. None where the floor would reach the number
/// under which it is asked for.
pub(crate) fn raised(ask: Ask, number: RequestNumber, floor: u64) -> Option<Ask>
    requires { floor < 10 ^ 18 }
    ensures { result ≡ (if is_too_high number ask then None else Some (raised_ask floor ask)) }
{
    let Ask::GiveUp { upto } = ask else {
        return Some(ask);
    };
    if upto.get() >= number.get() {
        return None;
    }
    Some(Ask::GiveUp {
        upto: upto.at_least(floor),
    })
}
