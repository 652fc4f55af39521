// The settings of a track: audio, video or none.
use media_rules::{Audio, Video};

#[derive(Clone, Copy)]
pub enum Settings {
    Video(Video),
    Audio(Audio),
}

// The master that decides, by its row's number.
#[derive(Clone, Copy)]
pub enum Deciding {
    Video(usize),
    Audio(usize),
}
