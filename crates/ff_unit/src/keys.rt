// The place of a key.
ghost use Rattle.std.specs.Prelude.{◌≡◌, ◌≤◌};
ghost use Rattle.ff_node.specs.Picks.{key_place};

/// To which of `n` places a key goes: its hash decides.
pub fn key_place(bytes: &[u8], n: u32) -> u32
    requires { 1 ≤ n }
    ensures { result ≡ key_place bytes.now n }
{
    let mut hash = 0u32;
    for byte in bytes {
        hash = hash.wrapping_mul(31).wrapping_add(u32::from(*byte));
    }
    hash % n
}
