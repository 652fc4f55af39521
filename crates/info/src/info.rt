// Info: its fields, and the question for record 0, the only one.
ghost use Rattle.std.specs.Prelude.{◌≡◌};
ghost use Rattle.fields.specs.Read.{read};
ghost use Rattle.info_rules.specs.Records.{info_of};
ghost use Rattle.info_rules.specs.Told.{info_values};
ghost use Rattle.info_rules.specs.Promise.{InfoPromise};

use fields::Fields;
use info_rules::Info;
use kinds::{Kind, ids};
use locate::locate;
use locate_rules::{Step, Way};
use refusals::Refusal;

// The record, by the rows below its master.
pub fn info_in(fields: &Fields) -> Info
    ensures { info_values result ≡ read info_of fields.now }
{
    Info {
        uid: fields.content(ids::SEGMENTUID, Kind::Binary),
        prev_uid: fields.content(ids::PREVUID, Kind::Binary),
        next_uid: fields.content(ids::NEXTUID, Kind::Binary),
        families: fields.count(ids::SEGMENTFAMILY, Kind::Binary),
        title: fields.content(ids::TITLE, Kind::Utf8),
        duration: fields.real(ids::DURATION),
        timestamp_scale: fields.number(ids::TIMECODESCALE),
        date_utc: fields.date(ids::DATEUTC),
        muxing_app: fields.content(ids::MUXINGAPP, Kind::Utf8),
        writing_app: fields.content(ids::WRITINGAPP, Kind::Utf8),
    }
}

// The record of the Info payload of `size` bytes from `start` on, in live mode or in old mode. 15: k is not 0.
pub fn info_at(
    recording: &[u8],
    live: bool,
    start: u64,
    size: u64,
    k: u64,
    table: &mut [u64],
) -> Result<(Info, u64), Refusal>
    ensures { InfoPromise live recording.now start size k
        table.old result table.new }
{
    let way = Way {
        first: Step::Only(k),
        second: Step::Here,
        third: Step::Here,
    };
    let (master, rows) = locate(recording, live, start, size, ids::INFO, way, table)?;
    let fields = Fields {
        recording,
        table,
        master,
    };
    Ok((info_in(&fields), rows as u64))
}
