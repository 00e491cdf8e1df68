// The pages: what planners see of every client, and what a forecast run sees, of a lent client table. A page changes no client. C links the two pages
// from the crate `pages_c`.
#![tactic(auto)]

use lock::Record;

mod causes;
mod counts;
mod planners;
mod rows;
mod run;

pub use counts::{held_count, in_phase_9};
pub use planners::nolthewyr_planners_page;
pub use rows::row_of;
pub use run::nolthewyr_run_page;

// What planners see of a client: its phase, its window's edges, its pieces' numbers (second 0 for none) and their over-cover, and how many steps the window needs on an otherwise
// idle tree; all 0 for an idle one.
#[repr(C)]
#[derive(Clone, Copy, Default)]
pub struct Row {
    pub phase: u64,
    pub left: u64,
    pub right: u64,
    pub first: u64,
    pub second: u64,
    pub over: u64,
    pub steps: u64,
}

// What a forecast run sees: the page's number (0 accepted), its own record, and how many clients are in phase 9; the last two all 0 in a refused page. The C interface has the number
// of a refusal beside the answer; in the crate it is a Result.
#[repr(C)]
#[derive(Clone, Copy)]
pub struct RunPage {
    pub number: u64,
    pub own: Record,
    pub held: u64,
}
