// A track: its fields, and the question for the k-th.
ghost use Rattle.std.specs.Prelude.{◌≡◌};
ghost use Rattle.elements_rules.specs.Rows.{rows_of};
ghost use Rattle.locate_rules.specs.Contract.{Stands};
ghost use Rattle.tracks_rules.specs.Records.{track_of};
ghost use Rattle.tracks_rules.specs.Told.{track_values};
ghost use Rattle.tracks_rules.specs.Promise.{TrackPromise};

use crate::settings::settings_in;
use crate::typed::typed_of;
use fields::Fields;
use fields_rules::Below;
use kinds::{Kind, ids};
use locate::locate;
use locate_rules::{Step, Way};
use refusals::Refusal;
use tracks_rules::Track;

// The track, by the rows below its master and those below its last settings.
pub fn track_in(recording: &[u8], table: &[u64], rows: usize, master: Below) -> Track
    requires { Stands recording.now table.now rows master }
    ensures { track_values result ≡ track_of recording.now (rows_of
        table.now rows) master.parent }
{
    let fields = Fields {
        recording,
        table,
        master,
    };
    Track {
        number: fields.number(ids::TRACKNUMBER),
        uid: fields.number(ids::TRACKUID),
        tracktype: typed_of(fields.number(ids::TRACKTYPE)),
        enabled: fields.flag(ids::FLAGENABLED),
        default: fields.flag(ids::FLAGDEFAULT),
        forced: fields.flag(ids::FLAGFORCED),
        hearing_impaired: None,
        visual_impaired: None,
        text_descriptions: None,
        original: None,
        commentary: None,
        lacing: fields.flag(ids::FLAGLACING),
        default_duration: fields.number(ids::DEFAULTDURATION),
        name: fields.content(ids::NAME, Kind::Utf8),
        language: fields.language(ids::LANGUAGE, ids::LANGUAGE_IETF),
        codec_id: fields.content(ids::CODEC_ID, Kind::String),
        codec_private: fields.content(ids::CODEC_PRIVATE, Kind::Binary),
        codec_name: fields.content(ids::CODEC_NAME, Kind::Utf8),
        settings: settings_in(recording, table, rows, master),
    }
}

// Track k of the Tracks payload of `size` bytes from `start` on, in live mode or in old mode. 15: there is no
// such track.
pub fn track_at(
    recording: &[u8],
    live: bool,
    start: u64,
    size: u64,
    k: u64,
    table: &mut [u64],
) -> Result<(Track, u64), Refusal>
    ensures { TrackPromise live recording.now start size k
        table.old result table.new }
{
    let track = Step::Nth {
        id: ids::TRACKENTRY,
        k,
    };
    let way = Way {
        first: track,
        second: Step::Here,
        third: Step::Here,
    };
    let (master, rows) = locate(recording, live, start, size, ids::TRACKENTRY, way, table)?;
    Ok((track_in(recording, table, rows, master), rows as u64))
}
