// Ward hours: from a ward's window to its units, and from a unit back to its quarter. Nothing of the lock needs this crate. C links its two
// calls from the crate `calendar_c`.
#![tactic(auto)]

mod calls;
mod closed;
mod figures;
mod hours;
mod told;
mod units;
mod window;

pub use calls::{nolthewyr_calendar_quarter, nolthewyr_calendar_window};

// The levels of the tree that the table's units are locked by, and how many wards and weeks there are.
#[repr(C)]
#[derive(Clone, Copy)]
pub struct Calendar {
    pub levels: u64,
    pub wards: u64,
    pub weeks: u64,
}

// A quarter of an hour: day 0..6 of its week, quarter 0..95 of its day.
#[repr(C)]
#[derive(Clone, Copy, Default)]
pub struct Quarter {
    pub ward: u64,
    pub week: u64,
    pub day: u64,
    pub quarter: u64,
}

// number 0: the edges of the window; else the cause of a refusal, and zeros. The C interface needs this form of a result.
#[repr(C)]
#[derive(Clone, Copy)]
pub struct WindowAnswer {
    pub number: u64,
    pub left: u64,
    pub right: u64,
}

// number 0: the quarter that a unit is; else the cause of a refusal, and zeros. The C interface needs this form of a result.
#[repr(C)]
#[derive(Clone, Copy)]
pub struct QuarterAnswer {
    pub number: u64,
    pub at: Quarter,
}
