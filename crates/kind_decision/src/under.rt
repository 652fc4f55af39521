// The kind of an id under a parent: that of its case, then the small master sets of five parents.
ghost use Rattle.std.specs.Prelude.{◌≡◌};
ghost use Rattle.kinds.specs.Kinds.{stays_master};
ghost use Rattle.kinds.specs.Promise.{KindPromise};

use crate::listed::listed_kind;
use kinds::{Kind, ids};

// ChapterTranslate, a member of two small master sets; the crate's src/ids.rs has no name for it.
const CHAPTERTRANSLATE: u32 = 0x6924;

// Whether an id that is a master by the list stays one under this parent.
#[tactic(auto, unfolding(kinds::specs::Kinds::keeps, kinds::specs::Kinds::member))]
fn stays_master(id: u32, parent: u32) -> bool
    ensures { result ≡ stays_master id parent }
{
    match parent {
        ids::INFO => id == CHAPTERTRANSLATE,
        ids::TRACKS => id == CHAPTERTRANSLATE || id == ids::TRACKENTRY,
        ids::ATTACHMENTS => id == ids::ATTACHEDFILE,
        ids::CHAPTERS => id == ids::EDITIONENTRY,
        ids::TAGS => id == ids::TAG,
        _ => true,
    }
}

// The kind of an id under a parent id. Every pair of numbers has one.
pub fn kind_of(id: u32, parent: u32) -> Kind
    ensures { KindPromise id parent result }
{
    let kind = listed_kind(id);
    if kind == Kind::Master && !stays_master(id, parent) {
        return Kind::Binary;
    }
    kind
}
