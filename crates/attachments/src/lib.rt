// The records of Attachments (document 01, Records): attached files.
//
// A record question takes the place of a part's payload, reads it into a lent table and builds the record asked for.
// The builder is for the crates above, which ask many records of one read.
#![tactic(auto)]

mod attachment;

pub use attachment::{Attachment, attachment_at, attachment_in};
