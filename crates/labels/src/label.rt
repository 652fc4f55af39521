// The stage label: the shown text of a chapter's first display with a set string, or the caller's own label.
ghost use Rattle.labels.specs.Promise.{LabelPromise};

use bodies_rules::Range;
use shown::shown_part;

// What is shown of the part of the recording that the string's range names; the caller's own label where nothing is
// shown, or the range is unset or not in the recording. Nothing is copied, and nothing refused.
pub fn stage_label<'a>(recording: &'a [u8], string: Option<Range>, own: &'a [u8]) -> &'a [u8]
    ensures { LabelPromise recording.now string own.now result.now }
{
    let Some(range) = string else {
        return own;
    };
    // The part is taken in two steps, so that no sum can pass 2^64.
    let Some(rest) = recording.get(range.at as usize..) else {
        return own;
    };
    let Some(part) = rest.get(..range.length as usize) else {
        return own;
    };
    let text = shown_part(part);
    if text.is_empty() { own } else { text }
}
