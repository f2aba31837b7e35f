// device: the state of the bus arbiter, what it may hold, and a tick (document 02, "The arbiter as a device").
//
// `states::state_ok` equals `formed`, `ticks::ticked_state` equals `ticked`, both for every state that they take (specs/Device.antt). Wrong answers that this
// rules out: an access that starts where its slot does not hold it whole, a first cycle that is not counted, an unused core's registers that are not
// looked at. specs/WellFormed.antt says in plain terms what a state may hold. The calls are crate arbiter.
#![tactic(auto)]

ghost use Rattle.std.specs.Prelude.{◌≡◌};
ghost use Rattle.device.specs.Device.{busy};

pub mod states;
pub mod ticks;

// The flags of a core whose access waits for its slot.
pub const WAITING: u8 = 1;

// Of one whose access is running.
pub const RUNNING: u8 = 2;

// Of one whose access is done.
pub const DONE: u8 = 4;

// One core's registers: 0 length, 1 flags, 2 interrupt mask.
#[derive(Clone, Copy, Default)]
pub struct Registers {
    pub length: u8,
    // a byte and no enum: C lends a state as bytes of any contents, and a call that is refused leaves them as they are
    pub flags: u8,
    pub mask: u8,
}

impl Registers {
    // Is the core waiting or running?
    #[tactic(auto, unfolding(crate::specs::Device::busy))]
    pub fn is_busy(self) -> bool
        ensures { result ≡ busy self }
    {
        matches!(self.flags, WAITING | RUNNING)
    }
}

// The state: the bus's cores and slot length, the offset, and the registers of 16 cores, unused ones too.
#[derive(Clone, Copy)]
pub struct Arbiter {
    pub cores: u8,
    pub slot: u8,
    pub offset: u8,
    pub registers: [Registers; 16],
}
