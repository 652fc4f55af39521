// Text in a lent page: bytes and labelled numbers, each behind what is there already.
//
// `Page` is for the crates above: its methods ask for room in the page.
#![tactic(auto)]

mod numeral;
mod page;

pub use page::Page;
