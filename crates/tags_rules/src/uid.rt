// The lists of uids of a tag's target.

#[derive(Clone, Copy)]
pub enum UidList {
    Track,
    Edition,
    Chapter,
    Attachment,
}
