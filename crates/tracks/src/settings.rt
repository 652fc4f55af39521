// The settings of a track: the last Video or Audio below its entry decides.
ghost use Rattle.std.specs.Prelude.{◌≡◌};
ghost use Rattle.elements_rules.specs.Rows.{rows_of};
ghost use Rattle.locate_rules.specs.Contract.{Stands};
ghost use Rattle.tracks_rules.specs.Settings.{decided, settings_of};
ghost use Rattle.tracks_rules.specs.Told.{settings_values};

use children::{last_child, rows_below};
use elements_rules::Row;
use fields::Fields;
use fields_rules::Below;
use kinds::{Kind, ids};
use media::{audio_in, video_in};
use media_rules::{Audio, Video};
use tracks_rules::{Deciding, Settings};

// The later of the last Video and the last Audio.
fn later(video: Option<(usize, Row)>, audio: Option<(usize, Row)>) -> Option<Deciding>
    ensures { result ≡ decided video audio }
{
    match video {
        None => match audio {
            None => None,
            Some((number, _)) => Some(Deciding::Audio(number)),
        },
        Some((first, _)) => match audio {
            None => Some(Deciding::Video(first)),
            Some((second, _)) => {
                if first < second {
                    return Some(Deciding::Audio(second));
                }
                Some(Deciding::Video(first))
            }
        },
    }
}

// The last settings of a track, whichever they are.
pub fn settings_in(recording: &[u8], table: &[u64], rows: usize, master: Below) -> Option<Settings>
    requires { Stands recording.now table.now rows master }
    ensures { settings_values result ≡ settings_of recording.now (rows_of
        table.now rows) master.parent }
{
    let video = last_child(table, master, ids::VIDEO, Kind::Master);
    let audio = last_child(table, master, ids::AUDIO, Kind::Master);
    match later(video, audio)? {
        Deciding::Video(number) => {
            let fields = Fields {
                recording,
                table,
                master: rows_below(table, rows, number + 1),
            };
            Some(Settings::Video(video_in(&fields)))
        }
        Deciding::Audio(number) => {
            let fields = Fields {
                recording,
                table,
                master: rows_below(table, rows, number + 1),
            };
            Some(Settings::Audio(audio_in(&fields)))
        }
    }
}
