//! The lines of an input within its limits, and what programs that read such lines write: text that grows line by line and
//! goes out page by page, numbers and bytes as text, and a whole text.
#![tactic(auto)]

mod by_line;
mod cutter;
mod digits;
mod fault;
pub mod laws;
mod limits;
mod line_end;
mod line_printer;
pub mod numbers;
mod page;
mod pages;
mod printing;
mod report;
mod taker;
mod taking;
mod thing_printer;
mod writing;

pub use digits::write_few_digits;
pub use fault::{RunFault, RunResult};
pub use limits::{MOST_LINE_BYTES, MOST_LINES};
pub use line_end::without_return;
pub use line_printer::LinePrinter;
pub use page::Page;
pub use pages::Pages;
pub use printing::print_lines;
pub use report::Report;
pub use taker::LineTaker;
pub use taking::take_lines;
pub use thing_printer::ThingPrinter;
pub use writing::write_whole;
