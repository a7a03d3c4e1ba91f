// How much of a packet is quoted.
ghost use Rattle.std.specs.Prelude.{◌≡◌, length, min, take};

// The first bytes of a list, so many at most.
pub fn front(bytes: &[u8], most: usize) -> &[u8]
    ensures bytes { result.now ≡ take most bytes.now }
    ensures size { length result.now ≡ min most (length bytes.now) }
{
    &bytes[..bytes.len().min(most)]
}
