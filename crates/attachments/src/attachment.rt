// An attached file: its fields, and the question for the k-th.
ghost use Rattle.std.specs.Prelude.{◌≡◌};
ghost use Rattle.fields.specs.Read.{read};
ghost use Rattle.attachments.specs.Records.{attachment_of};
ghost use Rattle.attachments.specs.Told.{attachment_values};
ghost use Rattle.attachments.specs.Promise.{AttachmentPromise};

use bodies_rules::Range;
use fields::Fields;
use kinds::{Kind, ids};
use locate::locate;
use locate_rules::{Step, Way};
use refusals::Refusal;

#[derive(Clone, Copy)]
pub struct Attachment {
    pub description: Option<Range>,
    pub name: Option<Range>,
    pub mime_type: Option<Range>,
    pub data: Option<Range>,
}

// The attached file, by the rows below its master.
pub fn attachment_in(fields: &Fields) -> Attachment
    ensures { attachment_values result ≡ read attachment_of fields.now }
{
    Attachment {
        description: fields.content(ids::FILEDESCRIPTION, Kind::Utf8),
        name: fields.content(ids::FILENAME, Kind::Utf8),
        mime_type: fields.content(ids::FILEMIMETYPE, Kind::String),
        data: fields.content(ids::FILEDATA, Kind::Binary),
    }
}

// Attachment k of the Attachments payload of `size` bytes from `start` on, in live mode or in old mode.
pub fn attachment_at(
    recording: &[u8],
    live: bool,
    start: u64,
    size: u64,
    k: u64,
    table: &mut [u64],
) -> Result<(Attachment, u64), Refusal>
    ensures { AttachmentPromise live recording.now start size k
        table.old result table.new }
{
    let file = Step::Nth {
        id: ids::ATTACHEDFILE,
        k,
    };
    let way = Way {
        first: file,
        second: Step::Here,
        third: Step::Here,
    };
    let (master, rows) = locate(recording, live, start, size, ids::ATTACHEDFILE, way, table)?;
    let fields = Fields {
        recording,
        table,
        master,
    };
    Ok((attachment_in(&fields), rows as u64))
}
