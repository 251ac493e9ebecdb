// Threaded links: a link to an address is twice the address, so that bit 0 tells it from a header.
ghost use Rattle.std.specs.Prelude.{◌≡◌, ℕ, ◌+◌, ◌*◌, ◌/◌, ◌%◌, ◌<◌, ◌≤◌, ◌==◌};

/// The link to an address. There are fewer than 2^31 addresses.
pub fn link_to(address: u32) -> u32
    ensures { address < 2_147_483_648 → result ≡ 2 * address }
{
    address.wrapping_mul(2)
}

/// Whether a list ends at the word: a header has bit 0 set, a link has not.
pub fn ends_list(word: u32) -> bool
    ensures { result ≡ (word % 2 == 1) }
{
    word % 2 == 1
}

/// The address that a link leads to.
pub fn address_of(link: u32) -> u32
    ensures { result ≡ link / 2 }
{
    link / 2
}
