// `owner START SIZE PARENT ADDRESS BYTES`: the element that holds an address, found by headers alone.
use answers::told::{Ending, Told};
use owner_rules::Owner;
use questions::asked::Asked;

// `header A` or `payload A`
pub fn owner(asked: Asked, recording: &[u8]) -> Told {
    let reply = owner::owner(
        recording,
        asked.live,
        asked.at,
        asked.size,
        asked.parent,
        asked.address,
    );
    let none = Told::new(Ending::Nothing);
    match reply {
        Ok(Owner::Header { address, depth: _ }) => none.with(0, address),
        Ok(Owner::Payload { address, depth: _ }) => none.with(1, address),
        Err(refusal) => Told::new(Ending::Refused(refusal)),
    }
}
