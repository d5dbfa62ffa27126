// A number that C gives, as that of a field.
ghost use Rattle.std.specs.Prelude.{◌≡◌, ◌<◌, ◌≤◌, IfOk, IfErr, Ok, Err};
ghost use Rattle.std.specs.declared.num.TryFromIntError.{TryFromIntError};
ghost use Rattle.codec.specs.declared.refusals.Refusal.TheVariants.{OverLimit};

use codec::refusals::Refusal;
use std::num::TryFromIntError;

// The number in its field's type, or 16 where it is over the range.
pub(crate) fn field<T: TryFrom<u64, Error = TryFromIntError>>(n: u64) -> Result<T, Refusal>
    ensures ok { IfOk result (λ x. T.try_from_gives n (Ok x)) }
    ensures err { IfErr result (λ why. (why ≡ OverLimit) × ((e : TryFromIntError) × T.try_from_gives n (Err e))) }
{
    T::try_from(n).map_err(|_| Refusal::OverLimit)
}
