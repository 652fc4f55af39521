// The five lent tables.

// A table for each part.
#[derive(Drop)]
pub struct Lent<'a> {
    pub info: &'a mut [u64],
    pub tracks: &'a mut [u64],
    pub attachments: &'a mut [u64],
    pub chapters: &'a mut [u64],
    pub tags: &'a mut [u64],
}
