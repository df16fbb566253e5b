//! The command `read`: the readout of one meter.

ghost use Rattle.std.specs.Prelude.{◌≡◌, IfOk, OnOk, OnErr};
ghost use Rattle.mbdc_io.specs.Failures.{HasRisen};
ghost use Rattle.mbdc_io.specs.Written.{PutsInto};
ghost use Rattle.mbdc_installer.specs.Command.{IsRead};

use crate::bench::command::MeterName;
use crate::{Numbered, Readout, find_number, identify, put_unfound, read};
use dc_address::Primary;
use mbdc_bus::Bus;
use mbdc_io::{IoFault, Sink};

/// Reads a meter, which is found first where it is named by its primary address, or by its number. One at address 0 is
/// selected, then.
///
/// # Errors
/// A write failed.
pub(crate) fn read_named<B: Bus, W: Sink>(
    bus: &mut B,
    meter: &MeterName,
    out: &mut W,
) -> Result<Readout, IoFault>
    ensures read { IfOk result (λ readout. IsRead B.Bus (PutsInto W.Sink out.old out.new)
        meter.now bus.old bus.new readout) }
    ensures well { OnOk result (W.put_failures out.new ≡ W.put_failures out.old) }
    ensures failed { OnErr result (HasRisen (W.put_failures out.old) (W.put_failures out.new)) }
{
    match meter {
        MeterName::Identity(meter) => read(bus, meter, None, out),
        MeterName::Address(address) => match identify(bus, *address) {
            Ok(meter) => read(bus, &meter, Primary::new(*address), out),
            Err(misses) => {
                out.put(b"FAILED 1 NoAnswer\n")?;
                Ok(Readout::Failed(misses))
            }
        },
        MeterName::Number(digits) => match find_number(bus, digits) {
            Numbered::One(meter) => read(bus, &meter, None, out),
            Numbered::Shared(misses) => {
                put_unfound(digits, true, out)?;
                Ok(Readout::Failed(misses))
            }
            Numbered::Nobody(misses) => {
                put_unfound(digits, false, out)?;
                Ok(Readout::Failed(misses))
            }
        },
    }
}
