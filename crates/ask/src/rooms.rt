// The rooms that the words of a question fill.
use questions::table::MOST_ASKED;

// A recording, and a table for each part of it.
#[derive(Drop)]
pub struct Rooms {
    pub recording: [u8; 65536],
    pub info: [u64; MOST_ASKED],
    pub tracks: [u64; MOST_ASKED],
    pub attachments: [u64; MOST_ASKED],
    pub chapters: [u64; MOST_ASKED],
    pub tags: [u64; MOST_ASKED],
}

impl Rooms {
    pub fn new() -> Rooms {
        Rooms {
            recording: [0; 65536],
            info: [0; MOST_ASKED],
            tracks: [0; MOST_ASKED],
            attachments: [0; MOST_ASKED],
            chapters: [0; MOST_ASKED],
            tags: [0; MOST_ASKED],
        }
    }
}
