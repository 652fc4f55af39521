// The chain of header addresses that leads to a byte, in a lent slice.
ghost use Rattle.std.specs.Prelude.{◌≡◌};
ghost use Rattle.owner_rules.specs.Contract.{linked};

// Keeps the header address of the element of that depth, where the slice is long enough for it.
pub fn keep_link(chain: &mut [u64], depth: u64, address: u64)
    ensures { chain.new ≡ linked chain.old depth address }
{
    if depth < chain.len() as u64 {
        chain[depth as usize] = address;
    }
}
