//! The commands, from the words of the command line and the bytes of the input to the bytes of the output.
//!
//! What it promises: the clauses of the top call `charging`: which status comes when, and what is written then.
//!
//! How it is built: `top` is the same for all commands; `words` and `parsing` read the words; `items` is what gives
//! the items of an input one after the other, `row_items` and `line_items` are its two forms (`item`, `csv_rows`,
//! `plain_rows`); `accepted` goes through them once for the setup and once for the first item that is not accepted;
//! `answering` gives each item to the machine, a message by `chf_messages`; `responses`, `account_lines` and
//! `notice_lines` print; `meter_rows` and `lines` are the command `meter`.
//!
//! Where a rule goes: a command is one more variant of `Task`, and a case each in `task_of`, `Prints`, `Accepts`,
//! `Refuses` and `output_of_bytes`; what a message asks and what it gets is in `chf_messages`.
#![tactic(auto)]

mod accepted;
mod account_lines;
mod answering;
mod csv_rows;
mod item;
mod items;
mod line_items;
mod lines;
mod meter_rows;
mod name_order;
mod notice_lines;
mod parsing;
mod plain_rows;
mod responses;
mod row_items;
mod status;
mod top;
mod words;

pub use status::Status;
pub use top::charging;
