// The elements of a payload, one after another: a head's children, or a Seek's members.
ghost use Rattle.std.specs.Prelude.{◌≡◌, ℕ, List};
ghost use Rattle.elements_rules.specs.Forest.{Forest};
ghost use Rattle.walks_rules.specs.Contract.{Readable};
ghost use Rattle.seekhead_rules.specs.Contract.{Taken, Gathers, one_told, all_told};

use elements::element_header;
use header::{Cursor, Headed};
use refusals::{Cause, Refusal};

// A value that elements make, one after another.
pub trait Gather: Copy {
    // The elements' depth and parent id, and what the elements that begin at an address make of a value.
    ghost depth: { ℕ };

    ghost parent: { ℕ };

    ghost make: { List ℕ → ℕ → Forest → Self → Self };

    ghost laws: { Gathers depth make };

    // The value with the element whose header was read.
    fn with(self, recording: &[u8], live: bool, element: Headed) -> Result<Self, Refusal>
        requires { Taken live recording.now element }
        ensures { result ≡ one_told depth parent make live recording.now self element };
}

// A value with all elements of the payload of an element whose header was read.
pub fn gathered<G: Gather>(
    first: G,
    recording: &[u8],
    live: bool,
    whole: Headed,
) -> Result<G, Refusal>
    requires { Readable recording.now whole }
    ensures { result ≡ all_told G.depth G.parent G.make live recording.now first whole }
{
    let mut at = whole.payload.at;
    let end = at + whole.header.size;
    let mut value = first;
    // A `while`: how far a turn goes on is what the child took.
    while at < end {
        let child = element_header(recording, live, Cursor { at })?;
        value = value.with(recording, live, child)?;
        let next = child.payload.at + child.header.size;
        if end < next {
            return Err(Cause::Overrun.at(at));
        }
        at = next;
    }
    Ok(value)
}
