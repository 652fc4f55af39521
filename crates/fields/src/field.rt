// A field: what the last direct child of its id and kind holds, or that it is unset. Texts and bytes are ranges.
ghost use Rattle.std.specs.Prelude.{◌≡◌, ◌+◌, ◌^◌, ◌<◌};
ghost use Rattle.kinds.specs.declared.kind.Kind.TheVariants.{Uint, Float, Date as DateKind};
ghost use Rattle.fields_rules.specs.Values.{uint_in, float_in, signed_in, range_in, count};
ghost use Rattle.fields_rules.specs.Fields.{number_of, flag_of, content_of, language_of, value_of, real_of, date_of};
ghost use Rattle.fields_rules.specs.Fields.{last_child, count_of};
ghost use Rattle.fields_rules.specs.Told.{number_told, flag_told, content_told, language_told, value_told, real_told};
ghost use Rattle.fields_rules.specs.Told.{date_told};
ghost use Rattle.fields_rules.specs.Contract.{Readable, Holds};
ghost use Rattle.fields_rules.specs.Alone.{readable_alone};

use bodies_rules::Range;
use children::{count_children, last_child};
use elements_rules::Row;
use fields_rules::{Below, Language, TagValue};
use header::big_endian;
use kinds::Kind;
use number_bodies::{float_of_4, float_of_8, signed};

// The range of a row's payload.
pub fn range_of(row: Row) -> Range
    requires { row.address + row.header < 2 ^ 64 }
    ensures { result ≡ range_in row }
{
    Range {
        at: row.address + row.header,
        length: row.payload,
    }
}

// The number in a payload of up to 8 bytes.
pub fn uint_in(recording: &[u8], row: Row) -> u64
    requires { Holds recording.now Uint row }
    ensures { result ≡ uint_in recording.now row }
{
    let at = row.address + row.header;
    big_endian(recording, at as usize, row.payload as usize)
}

// The float in a payload of 4 or 8 bytes.
fn float_in(recording: &[u8], row: Row) -> f64
    requires { Holds recording.now Float row }
    ensures { result ≡ float_in recording.now row }
{
    let at = row.address + row.header;
    let pattern = big_endian(recording, at as usize, row.payload as usize);
    if row.payload == 4 {
        return float_of_4(pattern);
    }
    float_of_8(pattern)
}

// The signed number in a date's payload of 8 bytes.
fn signed_in(recording: &[u8], row: Row) -> i64
    requires { Holds recording.now DateKind row }
    ensures { result ≡ signed_in recording.now row }
{
    let at = row.address + row.header;
    let pattern = big_endian(recording, at as usize, row.payload as usize);
    signed(pattern, row.payload)
}

// What the fields of a record are read from: the rows below its master, in a table of the rows of a recording.
#[derive(Clone, Copy)]
pub struct Fields<'a> {
    pub recording: &'a [u8],
    pub table: &'a [u64],
    pub master: Below,
    ghost readable: { Readable recording.now table.now master } by { readable_alone recording.now table.now master },
}

impl Fields<'_> {
    ghost use Rattle.fields.specs.Read.{read};

    // What sets a field: the last direct child of its id and kind.
    fn last(&self, id: u32, kind: Kind) -> Option<(usize, Row)>
        ensures { result ≡ read last_child self.now id kind }
    {
        last_child(self.table, self.master, id, kind)
    }

    // An unsigned number.
    pub fn number(&self, id: u32) -> Option<u64>
        ensures { number_told result ≡ read number_of self.now id }
    {
        let (_, row) = self.last(id, Kind::Uint)?;
        Some(uint_in(self.recording, row))
    }

    // A truth value: any number but 0 is yes.
    pub fn flag(&self, id: u32) -> Option<bool>
        ensures { flag_told result ≡ read flag_of self.now id }
    {
        self.number(id).map(|number| number != 0)
    }

    // A text or bytes, by the kind.
    pub fn content(&self, id: u32, kind: Kind) -> Option<Range>
        ensures { content_told result ≡ read content_of self.now id kind }
    {
        let (_, row) = self.last(id, kind)?;
        Some(range_of(row))
    }

    // A language: an ISO 639 one never replaces an IETF one.
    pub fn language(&self, iso: u32, ietf: u32) -> Option<Language>
        ensures { language_told result ≡ read language_of self.now iso ietf }
    {
        match self.content(ietf, Kind::String) {
            Some(range) => Some(Language::Ietf(range)),
            None => self.content(iso, Kind::String).map(Language::Iso),
        }
    }

    // A tag's value: the later of its text and its bytes.
    pub fn value(&self, text: u32, binary: u32) -> Option<TagValue>
        ensures { value_told result ≡ read value_of self.now text binary }
    {
        match (self.last(text, Kind::Utf8), self.last(binary, Kind::Binary)) {
            (Some((first, string)), Some((second, row))) => {
                if first < second {
                    return Some(TagValue::Binary(range_of(row)));
                }
                Some(TagValue::Text(range_of(string)))
            }
            (Some((_, string)), None) => Some(TagValue::Text(range_of(string))),
            (None, Some((_, row))) => Some(TagValue::Binary(range_of(row))),
            (None, None) => None,
        }
    }

    // A float, by value.
    pub fn real(&self, id: u32) -> Option<f64>
        ensures { real_told result ≡ read real_of self.now id }
    {
        let (_, row) = self.last(id, Kind::Float)?;
        Some(float_in(self.recording, row))
    }

    // A date: how many nanoseconds, before or after.
    pub fn date(&self, id: u32) -> Option<i64>
        ensures { date_told result ≡ read date_of self.now id }
    {
        let (_, row) = self.last(id, Kind::Date)?;
        Some(signed_in(self.recording, row))
    }

    // How many direct children of an id and kind there are.
    pub fn count(&self, id: u32, kind: Kind) -> u64
        ensures { count result ≡ read count_of self.now id kind }
    {
        count_children(self.table, self.master, id, kind)
    }
}
