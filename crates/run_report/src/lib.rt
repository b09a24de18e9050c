//! How the work ends, what was counted on the way, and the texts that tell of it. Contracts see an end and a report as
//! values, and a text as its bytes. It decides no end and counts nothing, takes memory for JSON alone, and writes nothing
//! after a call that failed.
#![tactic(auto)]

mod end;
mod json;
mod layout_lines;
mod lines;
mod names;
mod note;
mod report;
mod report_lines;
mod survey_lines;
#[cfg(test)]
mod tests;
mod text_line;
mod totals;

pub use end::End;
pub use json::to_json;
pub use layout_lines::write_place;
pub use note::write_end;
pub use report::{Counts, Report, Settled};
pub use report_lines::write_text;
pub use survey_lines::write_survey;
pub use text_line::hex_digit;
