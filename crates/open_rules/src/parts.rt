// The parts of a recording: their ids, their order, and what is known of each.
ghost use Rattle.std.specs.Prelude.{◌≡◌, Some};
ghost use Rattle.open_rules.specs.Parts.{id_of, parent_of, which_of, part_of, placed};
ghost use Rattle.open_rules.specs.Contract.{link_of, rows_known};

use kinds::ids;
use search_rules::Part;
use seekhead_rules::Positions;

// A part by its name.
#[derive(Clone, Copy)]
pub enum Which {
    Info,
    Tracks,
    Attachments,
    Chapters,
    Tags,
}

// What is known of each part.
#[derive(Clone, Copy, Default)]
pub struct Parts {
    pub info: Option<Part>,
    pub tracks: Option<Part>,
    pub attachments: Option<Part>,
    pub chapters: Option<Part>,
    pub tags: Option<Part>,
}

impl Which {
    // Which part an id names, of those that name one.
    #[tactic(auto, unfolding(crate::specs::Parts::which_of))]
    pub fn named(id: u32) -> Which
        ensures { result ≡ which_of id }
    {
        match id {
            ids::INFO => Which::Info,
            ids::TRACKS => Which::Tracks,
            ids::ATTACHMENTS => Which::Attachments,
            ids::CHAPTERS => Which::Chapters,
            _ => Which::Tags,
        }
    }

    pub fn id(self) -> u32
        ensures { result ≡ id_of self }
    {
        match self {
            Which::Info => ids::INFO,
            Which::Tracks => ids::TRACKS,
            Which::Attachments => ids::ATTACHMENTS,
            Which::Chapters => ids::CHAPTERS,
            Which::Tags => ids::TAGS,
        }
    }

    // The id that a part's children are read under: Info's own leaves the small set of masters.
    pub fn parent(self) -> u32
        ensures { result ≡ parent_of self }
    {
        match self {
            Which::Info => self.id(),
            Which::Tracks => ids::TRACKENTRY,
            Which::Attachments => ids::ATTACHEDFILE,
            Which::Chapters => ids::EDITIONENTRY,
            Which::Tags => ids::TAG,
        }
    }

    // The part's latest position.
    pub fn link(self, links: Positions) -> Option<u64>
        ensures { result ≡ link_of links self }
    {
        match self {
            Which::Info => links.first,
            Which::Tracks => links.second,
            Which::Attachments => links.third,
            Which::Chapters => links.fourth,
            Which::Tags => links.fifth,
        }
    }
}

impl Parts {
    fn get(self, which: Which) -> Option<Part>
        ensures { result ≡ part_of self which }
    {
        match which {
            Which::Info => self.info,
            Which::Tracks => self.tracks,
            Which::Attachments => self.attachments,
            Which::Chapters => self.chapters,
            Which::Tags => self.tags,
        }
    }

    // How many rows of its table a part has.
    pub fn rows(self, which: Which) -> u64
        ensures { result ≡ rows_known (part_of self which) }
    {
        self.get(which).map_or(0, |part| part.rows)
    }

    // A part that was found replaces what was known of it.
    pub fn set(&mut self, which: Which, part: Part)
        ensures { self.new ≡ placed self.old which (Some part) }
    {
        match which {
            Which::Info => self.info = Some(part),
            Which::Tracks => self.tracks = Some(part),
            Which::Attachments => self.attachments = Some(part),
            Which::Chapters => self.chapters = Some(part),
            Which::Tags => self.tags = Some(part),
        }
    }
}
