//! A filter by which meters are read by their primary addresses beside one that answers for others.

ghost use Rattle.std.specs.Prelude.{◌≡◌, map};
ghost use Rattle.mbdc_poll.specs.Addressing.{address_for, noted_by};

use crate::confirming::telegram_in;
use crate::filtered::Filter;
use crate::recounting::begins_readout;
use crate::sparing::Doubt;
use dc_address::{Identity, Primary};
use dc_linkframe::control::{SELECTED, SELECTION, write_reset};
use dc_linkframe::{Frame, FrameBuf, parse, write_short};
use mbdc_bus::AnswerBuf;

/// A meter of a line that is registered without a primary address, so it is selected by its identity.
#[derive(Clone, Copy)]
pub struct Addressed {
    /// The meter.
    pub meter: Identity,
    /// The primary address that its telegrams have, if one has come.
    pub known: Option<Primary>,
    /// The primary address by which it is read in this poll, if it is.
    pub asked: Option<Primary>,
}

/// The filter by which some meters are read by their primary addresses, though they are registered without: on their
/// line a meter answers for others, so a selection brings two answers. In place of such a meter's selection the reset of
/// its address goes out, and what is for the selected meter goes to that address. Of each meter the address is noted
/// that its telegrams have. All else passes.
#[derive(Drop)]
pub struct Addressing<'a> {
    /// The meters of the line that are registered without a primary address.
    pub selected: &'a mut [Addressed],
    /// The primary address by which the meter of the readout is read that began last, if it is.
    pub address: Option<Primary>,
}

impl Addressing<'_> {
    // The primary address by which the meter of this selection is read, if it is.
    fn address_for(&self, request: &[u8]) -> Option<Primary>
        ensures { result ≡ address_for request.now self.now.selected.now }
    {
        let mut meters = self.selected.iter();
        match meters.find(|it| Doubt::of(&it.meter, None).question.as_slice() == request) {
            Some(it) => it.asked,
            None => None,
        }
    }
}

impl Filter for Addressing<'_> {
    ghost use Rattle.mbdc_poll.specs.Addressing.{Asks, Hears};

    ghost asks = { Asks };

    ghost hears = { Hears };

    fn ask(&mut self, request: &FrameBuf) -> Option<FrameBuf> {
        if begins_readout(request.as_slice()) {
            self.address = self.address_for(request.as_slice());
        }
        let mut out = *request;
        if let Some(address) = self.address {
            match parse(request.as_slice()) {
                Ok(
                    Frame::Short {
                        control,
                        address: SELECTED,
                    },
                ) => {
                    write_short(control, address.get(), &mut out);
                }
                Ok(Frame::Long { ci: SELECTION, .. }) => write_reset(address.get(), &mut out),
                _ => {}
            }
        }
        Some(out)
    }

    fn hear(&mut self, answer: AnswerBuf) -> AnswerBuf {
        if let Some(telegram) = telegram_in(answer.as_slice())
            && let Ok(Frame::Long { address, .. }) = parse(answer.as_slice())
            && let Some(address) = Primary::new(address)
        {
            note(self.selected, &telegram.header().identity.wire(), address);
        }
        answer
    }
}

// Notes the primary address of a telegram of this meter.
fn note(selected: &mut [Addressed], meter: &[u8], address: Primary)
    ensures { selected.new ≡ map (noted_by meter.now address) selected.old }
{
    if let Some((first, others)) = selected.split_first_mut() {
        note(others, meter, address);
        if first.meter.wire().as_slice() == meter {
            first.known = Some(address);
        }
    }
}
