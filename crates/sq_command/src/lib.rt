//! The command line of `squall`: its subcommands, its help texts, and what its words ask for. Also
//! the sample input that `squall demo` writes: the texts of two plans, of rows and of jobs, of
//! which many are for root keys that move; and the commands that run it.
#![tactic(auto)]

mod clash;
mod commands;
mod demo;
mod demo_commands;
mod explain;
mod help;
mod jobs;
mod keys;
mod line;
mod options;
mod owner;
mod plans;
mod rows;
mod serve;
mod sizes;
mod tasks;
mod texts;

pub use demo_commands::write_commands;
pub use line::{
    Demo, EngineFiles, EngineReports, Form, Input, Line, LiveOptions, Plans, Task, line_of,
};
pub use sizes::DemoSizes;
pub use tasks::{MAX_PUMPS, MAX_TURNS, PUMPS, TURNS};
pub use texts::DemoTexts;
