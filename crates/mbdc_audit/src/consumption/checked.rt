//! Amounts in 64 bits.

ghost use Rattle.std.specs.Prelude.{◌≡◌};
ghost use Rattle.mbdc_audit.specs.Consumption.Period.{between, checked, Rises};

use crate::consumption::AmountFault;

/// The difference of two amounts, if both are known and it fits 64 bits.
pub(crate) fn difference(
    before: Option<u128>,
    after: Option<u128>,
) -> Result<Option<u64>, AmountFault>
    requires { Rises before after }
    ensures { result ≡ checked (between before after) }
{
    let Some(before) = before else {
        return Ok(None);
    };
    let Some(after) = after else {
        return Ok(None);
    };
    let amount = after - before;
    if amount <= u128::from(u64::MAX) {
        Ok(Some(amount as u64))
    } else {
        Err(AmountFault::TooLarge)
    }
}
