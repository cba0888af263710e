// Boards.
ghost use Rattle.std.specs.Prelude.{◌≡◌, OnOk, IfOk};
ghost use Rattle.lisa_board.specs.BoardLines.{with_device, no_devices};

use crate::device::Device;
use crate::parts::{Console, Timer};
use std::alloc::{AllocFailed, Global};
use std::marker::Model;

/// The devices beside an engine. Contracts see the record of the list of its timers, its console and the number of pins.
#[derive(Debug, Drop)]
pub struct Board {
    pub timers: Vec<Timer>,
    pub console: Option<Console>,
    /// How many pins the engine has.
    pub pins: u32,
}

impl Model for Board {
    ghost use Rattle.lisa_board.specs.Boards.{Devices};

    ghost Value = { Devices };

    ghost view = { λ b. record { timers = b.timers.items; console = b.console; pins = b.pins } };
}

impl Board {
    // A board without devices.
    pub(crate) fn bare(alloc: Global, pins: u32) -> Board
        ensures { result ≡ no_devices pins }
    {
        Board {
            timers: Vec::new(alloc),
            console: None,
            pins,
        }
    }

    // Puts a device on the board.
    pub(crate) fn add(&mut self, device: Device) -> Result<(), AllocFailed<Timer>>
        ensures { OnOk result (self.new ≡ with_device self.old device) }
    {
        match device {
            Device::Timer(timer) => self.timers.push(timer)?,
            Device::Console(console) => self.console = Some(console),
        }
        Ok(())
    }
}
