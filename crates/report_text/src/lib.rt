//! The text of a run: its lines, and the section that closes it; the text of an audit; and the listing of an image's
//! code. Each call appends to a sink exactly what `specs/RunLines.antt`, `specs/ClosingSection.antt`,
//! `specs/AuditLines.antt` and `specs/ListingLines.antt` say, or a first part of that where the sink fails. The lines
//! on an image are handed back instead, each as a `ShortLine`. It reads what it is handed, writes to the sink alone,
//! and takes memory only for an audit, before its first line. Which line comes when, and what follows a fault, it
//! leaves to the crates above. Floor: whole.
#![tactic(auto)]

// Words, each put before the one behind it.
mod words;

// The lines on an image.
mod image_lines;

// The lines of a run, and of its end.
mod call_lines;
mod run_lines;

// The parts of the closing section: what isn't as it was at the opening; the regions and the log.
mod changed_lines;
mod ledger_lines;

// The whole of it.
mod closing;

// Counts in place of lines.
mod counts;

// The text of an audit: its lines, the bytes of the region before and after a record, and the whole of it.
mod list_lines;
mod region_audit;
mod two_states;

// The listing of code.
mod code_listing;

pub use call_lines::called;
pub use closing::section;
pub use code_listing::{code_listing_law, list};
pub use counts::{RunCounts, summary};
pub use image_lines::{ShortLine, admitted_line, image_line, protected_line};
pub use region_audit::audit;
pub use run_lines::{console, delivery, ending};
pub use two_states::Auditing;
pub use words::hexadecimal_law;
