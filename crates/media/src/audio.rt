// The settings of an audio track: its fields, and the question for record 0, the only one.
ghost use Rattle.std.specs.Prelude.{◌≡◌};
ghost use Rattle.fields.specs.Read.{read};
ghost use Rattle.media_rules.specs.Records.{audio_of};
ghost use Rattle.media_rules.specs.Told.{audio_values};
ghost use Rattle.media_rules.specs.Promise.{AudioPromise};

use fields::Fields;
use kinds::ids;
use locate::locate;
use locate_rules::{Step, Way};
use media_rules::Audio;
use refusals::Refusal;

// The audio settings, by the rows below their master.
pub fn audio_in(fields: &Fields) -> Audio
    ensures { audio_values result ≡ read audio_of fields.now }
{
    Audio {
        sample_rate: fields.real(ids::SAMPLINGFREQUENCY),
        channels: fields.number(ids::CHANNELS),
        bit_depth: fields.number(ids::BITDEPTH),
    }
}

// The audio settings of the E1 payload of `size` bytes from `start` on, in live mode or in old mode. 15: k is not 0.
pub fn audio_at(
    recording: &[u8],
    live: bool,
    start: u64,
    size: u64,
    k: u64,
    table: &mut [u64],
) -> Result<(Audio, u64), Refusal>
    ensures { AudioPromise live recording.now start size k
        table.old result table.new }
{
    let way = Way {
        first: Step::Only(k),
        second: Step::Here,
        third: Step::Here,
    };
    let (master, rows) = locate(recording, live, start, size, ids::AUDIO, way, table)?;
    let fields = Fields {
        recording,
        table,
        master,
    };
    Ok((audio_in(&fields), rows as u64))
}
