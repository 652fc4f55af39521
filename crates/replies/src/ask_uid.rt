// `uid START SIZE NUMBERS K LIST I BYTES`: a member of one of a tag's uid lists.
use crate::cells::Cells;
use answers::told::Told;
use tags_rules::UidList;

// `uid N`
impl Cells for u64 {
    fn cells(self, told: Told) -> Told {
        told.with(0, self)
    }
}

// The list by its place among `track edition chapter attachment`: the line's word is a place in that list.
pub fn list_at(place: u64) -> UidList {
    match place {
        0 => UidList::Track,
        1 => UidList::Edition,
        2 => UidList::Chapter,
        _ => UidList::Attachment,
    }
}
