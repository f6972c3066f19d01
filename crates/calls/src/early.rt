// Refusals before any round, and those of the rounds of types, as faults of a call.
ghost use Rattle.std.specs.Prelude.{◌≡◌, ◌≤◌};
ghost use Rattle.calls.specs.Endings.{ending_of};
ghost use Rattle.faults.specs.Faults.{call_refusal_of};
ghost use Rattle.life.specs.Faults.{of_layer_call};
ghost use Rattle.resolve.specs.Fills.{ending_told};
ghost use Rattle.requests.specs.Early.{early_told, place_of};

use faults::call::CallFault;
use faults::fill::FillFault;
use requests::early::Early;

// A place is told in 32 bits.
fn told_place(place: usize) -> u32
    ensures { place ≤ 512 → result ≡ place }
{
    u32::try_from(place).unwrap_or(u32::MAX)
}

pub(crate) fn fault_of(early: Early) -> CallFault
    ensures { place_of early ≤ 512 → call_refusal_of result ≡ of_layer_call (early_told early).0 (early_told early).1 0 }
{
    match early {
        Early::TooLong { place } => CallFault::TooLong {
            place: told_place(place),
        },
        Early::NoSlot { place } => CallFault::NoSlot {
            place: told_place(place),
        },
        Early::BadName { place } => CallFault::BadName {
            place: told_place(place),
        },
    }
}

// What the rounds of types told, as a call tells it.
pub(crate) fn carried(filled: Result<u8, FillFault>) -> Result<u8, CallFault>
    ensures { ending_of result ≡ ending_told filled }
{
    Ok(filled?)
}
