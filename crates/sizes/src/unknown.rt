// Whether a header's size is unknown.
ghost use Rattle.std.specs.Prelude.{◌≡◌, ◌&&◌, ◌+◌, ◌*◌, ◌^◌, leb, eqb};
ghost use Rattle.sizes.specs.Unknown.{id_octets, size_octets, unknown};

use header::Header;

// How many octets an id has.
fn id_octets(id: u32) -> u64
    ensures { result ≡ id_octets id }
{
    match id {
        0..=0xFF => 1,
        0x100..=0xFFFF => 2,
        0x10000..=0xFFFFFF => 3,
        _ => 4,
    }
}

// How many octets the size has: the rest of the header.
fn size_octets(header: Header) -> u64
    ensures { result ≡ size_octets header }
{
    header.length.saturating_sub(id_octets(header.id))
}

// Whether a size is all ones in that many octets.
fn all_ones(size: u64, octets: u64) -> bool
    ensures { result ≡ (leb octets 8 && eqb (size + 1) (2 ^ (7 * octets))) }
{
    octets <= 8 && size == (1u64 << (7 * octets)) - 1
}

// Whether live mode takes the size of a header as unknown; old mode takes every size as the number that it is.
pub fn is_unknown(live: bool, header: Header) -> bool
    ensures { result ≡ (live && unknown header) }
{
    live && all_ones(header.size, size_octets(header))
}
