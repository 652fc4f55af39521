// `uz_owner` and `uz_owner_chain`: the element that holds an address of a payload, by headers alone.
ghost use Rattle.std.specs.Prelude.{◌≡◌};
ghost use Rattle.viewer_rules.specs.Faces.{owned_face};
ghost use Rattle.viewer_rules.specs.Promise.{UzOwnerPromise, UzChainPromise};

use crate::mode::{NO_MODE, chosen_mode};
use owner::{owner, owner_chain};
use owner_rules::Owner;
use refusals::Refusal;
use rowstore::clear;
use viewer_rules::UzOwned;

// How the reply crosses to C.
fn owned_face(reply: Result<Owner, Refusal>) -> UzOwned
    ensures { result ≡ owned_face reply }
{
    match reply {
        Ok(Owner::Header { address, depth }) => UzOwned {
            at: address,
            depth,
            ..UzOwned::default()
        },
        Ok(Owner::Payload { address, depth }) => UzOwned {
            at: address,
            in_payload: 1,
            depth,
            ..UzOwned::default()
        },
        Err(Refusal { address, cause }) => UzOwned {
            refused: cause.number(),
            refused_at: address,
            ..UzOwned::default()
        },
    }
}

pub fn uz_owner(
    recording: &[u8],
    start: u64,
    size: u64,
    parent: u32,
    address: u64,
    mode: u32,
) -> UzOwned
    ensures { UzOwnerPromise mode recording.now start size parent address result }
{
    let Some(live) = chosen_mode(mode) else {
        return owned_face(Err(NO_MODE));
    };
    owned_face(owner(recording, live, start, size, parent, address))
}

pub fn uz_owner_chain(
    recording: &[u8],
    start: u64,
    size: u64,
    parent: u32,
    address: u64,
    chain: &mut [u64],
    mode: u32,
) -> UzOwned
    ensures { UzChainPromise mode recording.now start size parent address
        chain.old result chain.new }
{
    let Some(live) = chosen_mode(mode) else {
        clear(chain);
        return owned_face(Err(NO_MODE));
    };
    owned_face(owner_chain(recording, live, start, size, parent, address, chain))
}
