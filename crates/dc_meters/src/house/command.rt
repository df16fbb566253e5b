//! The office's commands: checked, and applied.

ghost use Rattle.std.specs.Prelude.{◌≡◌, ◌+◌, ◌≤◌, None, Some, nat_lt, not, ◌&&◌, if◌then◌else◌};
ghost use Rattle.std.specs.Prelude.{◌-◌, ◌<◌, false, IsSome, length, OnOk, OnErr};
ghost use Rattle.std.specs.List.{list_any};
ghost use Rattle.std.specs.BTreeMap.{is_at};
ghost use Rattle.dc_address.specs.Identity.{identity_cmp};
ghost use Rattle.mbdc_change.specs.State.{row_of};
ghost use Rattle.mbdc_change.specs.Apply.{commanded, moved, taken_out, confirmed_up_to, swapped};
ghost use Rattle.mbdc_change.specs.Apply.{fitted};
ghost use Rattle.mbdc_change.specs.Accepts.{refused_by, command_refusal, is_taken, occupies};
ghost use Rattle.mbdc_change.specs.Size.{size_of};
ghost use Rattle.mbdc_change.specs.Command.{line_of, longest_line, IsCommand};
ghost use Rattle.mbdc_change.specs.Flat.{IsFlat};
ghost use Rattle.mbdc_change.specs.Valid.{IsMeter};
ghost use Rattle.mbdc_change.specs.Fields.{IsNumber, IsAddress, end_of_numbers};
ghost use Rattle.dc_meters.specs.Steps.{CanBeApplied};

use super::House;
use crate::Meter;
use dc_address::{Identity, Primary};
use mbdc_change::{ChangeFault, Command, CommandLine, Flat};
use mbdc_io::NoMemory;
use std::alloc::Allocator;

impl<A: Allocator + Copy> House<A> {
    pub(super) fn check_command(&self, command: &Command) -> Result<(), ChangeFault>
        ensures { result ≡ refused_by (command_refusal self.now.budget command.now self.now.state) }
    {
        match *command {
            Command::Fit {
                meter,
                line,
                address,
                flat,
            } => self.check_fit(&meter, line, address, flat),
            Command::Move { meter, flat } => self.check_move(&meter, flat),
            Command::Out { meter } => self.check_registered(&meter),
            Command::Confirm { serial } => self.check_confirm(serial),
            Command::Swap { old, new, address } => self.check_swap(&old, &new, address),
        }
    }

    fn check_fit(
        &self,
        meter: &Identity,
        line: u8,
        address: Option<Primary>,
        flat: Flat,
    ) -> Result<(), ChangeFault>
        ensures { result ≡ refused_by (command_refusal self.now.budget
            (Command.Fit meter.now line address flat) self.now.state) }
    {
        if self.meters.contains_key(meter) {
            return Err(ChangeFault::Known);
        }
        if self.is_taken(line, address) {
            return Err(ChangeFault::AddressTaken);
        }
        self.check_size(u64::from(self.size) + 12 + u64::from(flat.len()))
    }

    fn check_move(&self, meter: &Identity, flat: Flat) -> Result<(), ChangeFault>
        ensures { result ≡ refused_by (command_refusal self.now.budget
            (Command.Move meter.now flat) self.now.state) }
    {
        let Some(row) = self.meters.get(meter) else {
            return Err(ChangeFault::Unknown);
        };
        let both = u64::from(self.size()) + u64::from(flat.len());
        self.check_size(both - u64::from(row.flat().len()))
    }

    fn check_registered(&self, meter: &Identity) -> Result<(), ChangeFault>
        ensures { result ≡ refused_by (command_refusal self.now.budget
            (Command.Out meter.now) self.now.state) }
    {
        if self.meters.contains_key(meter) {
            Ok(())
        } else {
            Err(ChangeFault::Unknown)
        }
    }

    fn check_confirm(&self, serial: u64) -> Result<(), ChangeFault>
        ensures { result ≡ refused_by (command_refusal self.now.budget
            (Command.Confirm serial) self.now.state) }
    {
        if serial >= self.next_serial {
            Err(ChangeFault::Beyond)
        } else {
            Ok(())
        }
    }

    fn check_swap(
        &self,
        old: &Identity,
        new: &Identity,
        address: Option<Primary>,
    ) -> Result<(), ChangeFault>
        ensures { result ≡ refused_by (command_refusal self.now.budget
            (Command.Swap old.now new.now address) self.now.state) }
    {
        if self.meters.contains_key(new) {
            return Err(ChangeFault::Known);
        }
        let Some(row) = self.meters.get(old) else {
            return Err(ChangeFault::Unknown);
        };
        if self.is_taken_by_other(old, row.line(), address) {
            return Err(ChangeFault::AddressTaken);
        }
        Ok(())
    }

    /// Whether a state of this size is within the budget.
    fn check_size(&self, size: u64) -> Result<(), ChangeFault>
        ensures { result ≡ refused_by (if nat_lt self.now.budget size then Some ChangeFault.Full
            else None) }
    {
        if size > u64::from(self.budget) {
            Err(ChangeFault::Full)
        } else {
            Ok(())
        }
    }

    fn is_taken(&self, line: u8, address: Option<Primary>) -> bool
        ensures { result ≡ is_taken line address self.now.state }
    {
        match address {
            Some(address) => self.meters.is_taken(line, address),
            // A meter that is read by secondary addressing takes no address.
            None => false,
        }
    }

    fn is_taken_by_other(&self, old: &Identity, line: u8, address: Option<Primary>) -> bool
        ensures { result ≡ list_any (λ e.
            not (is_at (identity_cmp old.now) e.0) && occupies line address e.1)
            self.now.state.meters }
    {
        match address {
            Some(address) => self.meters.is_taken_by_other(old, line, address),
            None => false,
        }
    }

    /// Applies a command, with its number and line.
    pub(super) fn command(&mut self, number: u64, command: &Command) -> Result<(), NoMemory>
        requires is_number { IsNumber number }
        requires is_command { IsCommand command.now }
        requires unrefused { CanBeApplied self.old.budget command.now self.old.state }
        ensures ok { OnOk result (self.new ≡ record self.old {
          state = record (commanded command.now self.old.state) {
            last_number = number;
            last_line = line_of number command.now;
          };
        }) }
        ensures err { OnErr result (self.new ≡ self.old) }
    {
        let line = command.line(number);
        self.order(command)?;
        self.sign(number, line);
        Ok(())
    }

    /// Applies a command, without its number and line.
    fn order(&mut self, command: &Command) -> Result<(), NoMemory>
        requires is_command { IsCommand command.now }
        requires unrefused { CanBeApplied self.old.budget command.now self.old.state }
        ensures ok { OnOk result (self.new
            ≡ record self.old { state = commanded command.now self.old.state }) }
        ensures err { OnErr result (self.new ≡ self.old) }
    {
        match *command {
            Command::Fit {
                meter,
                line,
                address,
                flat,
            } => {
                let row = Meter::new(self.alloc, line, address, flat);
                self.fit(meter, row)
            }
            Command::Move { meter, flat } => self.move_to(meter, flat),
            Command::Out { meter } => {
                self.take_out(meter);
                Ok(())
            }
            Command::Confirm { serial } => {
                self.confirm(serial);
                Ok(())
            }
            Command::Swap { old, new, address } => self.swap(old, new, address),
        }
    }

    /// Registers a meter.
    pub(super) fn fit(&mut self, meter: Identity, row: Meter<A>) -> Result<(), NoMemory>
        requires absent { row_of meter self.old.state ≡ None }
        requires room { size_of (fitted meter row self.old.state) ≤ self.old.budget }
        requires is_meter { IsMeter row }
        ensures ok { OnOk result (self.new
            ≡ record self.old { state = fitted meter row self.old.state }) }
        ensures err { OnErr result (self.new ≡ self.old) }
    {
        let size = row.size();
        self.meters.insert(meter, row)?;
        self.size += size;
        Ok(())
    }

    /// Assigns a meter to another flat.
    pub(super) fn move_to(&mut self, meter: Identity, flat: Flat) -> Result<(), NoMemory>
        requires is_flat { IsFlat flat }
        requires room { size_of (moved meter flat (row_of meter self.old.state) self.old.state)
            ≤ self.old.budget }
        ensures ok { OnOk result (self.new ≡ record self.old {
          state = moved meter flat (row_of meter self.old.state) self.old.state;
        }) }
        ensures err { OnErr result (self.new ≡ self.old) }
    {
        let Some(row) = self.meters.get(&meter) else {
            return Ok(());
        };
        let before = u32::from(row.flat().len());
        self.meters.move_to(meter, flat)?;
        self.size = self.size - before + u32::from(flat.len());
        Ok(())
    }

    /// Removes a meter and its open parts.
    pub(super) fn take_out(&mut self, meter: Identity)
        ensures { self.new ≡ record self.old { state = taken_out meter self.old.state } }
    {
        if let Some(row) = self.meters.remove(&meter) {
            self.size -= row.size();
        }
    }

    /// Replaces a meter, and removes the old one's open parts.
    pub(super) fn swap(
        &mut self,
        old: Identity,
        new: Identity,
        address: Option<Primary>,
    ) -> Result<(), NoMemory>
        requires is_address { IsAddress address }
        requires absent { row_of new self.old.state ≡ None }
        requires registered { IsSome (row_of old self.old.state) }
        ensures ok { OnOk result (self.new ≡ record self.old {
          state = swapped old new address (row_of old self.old.state) self.old.state;
        }) }
        ensures err { OnErr result (self.new ≡ self.old) }
    {
        let Some(row) = self.meters.get(&old) else {
            unreachable!()
        };
        let row = Meter::new(self.alloc, row.line(), address, row.flat());
        let size = row.size();
        self.meters.insert(new, row)?;
        let gone = self.meters.remove(&old).unwrap();
        self.size = self.size - gone.size() + size;
        Ok(())
    }

    /// Confirms the readings up to a serial, and drops them.
    pub(super) fn confirm(&mut self, serial: u64)
        requires { serial < self.old.state.next_serial }
        ensures { self.new ≡ record self.old { state = confirmed_up_to serial self.old.state } }
    {
        // Readings up to the mark are gone: a confirmation below it visits no reading.
        if serial <= self.confirmed {
            return;
        }
        self.confirmed = self.confirmed.max(serial);
        self.size -= self.readings.forget(serial);
    }

    /// Sets the number and the line of the last command.
    fn sign(&mut self, number: u64, line: CommandLine)
        requires number { number < end_of_numbers }
        requires line { length line ≤ longest_line }
        ensures { self.new ≡ record self.old {
          state = record self.old.state { last_number = number; last_line = line };
        } }
    {
        self.last_number = number;
        self.last_line = line;
    }
}
