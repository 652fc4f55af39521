// `attachment START SIZE NUMBERS K BYTES`: an attached file.
use crate::cells::Cells;
use answers::told::Told;
use attachments::Attachment;

// `description RANGE name RANGE mime RANGE data RANGE`
impl Cells for Attachment {
    fn cells(self, told: Told) -> Told {
        told.with(0, self.description)
            .with(1, self.name)
            .with(2, self.mime_type)
            .with(3, self.data)
    }
}
