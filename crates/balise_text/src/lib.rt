//! The texts of the program: commands, plan lines and journal lines as they are read, replies, reviews and
//! journal lines as they are printed.
#![tactic(auto)]

// What a line says, word by word.
mod digit_checks;
mod digit_words;
mod kind;
mod number;
mod places;
mod words;

// Lines that are read.
mod checks;
mod commands;
mod entries;
mod head;
mod journal_line;
mod plan_line;
mod request;
mod section;

// Lines that are printed.
mod digits;
mod journal_text;
pub mod laws;
mod line_end;
mod printing;
mod refused;
mod replies;
mod reply;
mod reviews;
mod run_fault;

pub use balise_commands::{Bits, Command, Id, Line, LineEdit, Noted, Tag, Var};
pub use balise_lines::{Counted, WriteFault};
pub use balise_rules::{Refusal, ReviewLine, Reviewed};
pub use checks::check_request;
pub use digits::{put_digits, put_fours};
pub use head::{Head, Version, read_head};
pub use journal_line::{JournalLine, read_journal_line};
pub use journal_text::{put_entry, put_head, put_undone};
pub use number::read_number;
pub use plan_line::{PlanLine, read_plan_line};
pub use printing::put_texts;
pub use replies::{put_bad, put_fault, put_reply};
pub use reply::Reply;
pub use request::{Request, read_request};
pub use reviews::put_review;
pub use run_fault::RunFault;
pub use section::Section;
