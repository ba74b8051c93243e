// Numbers of 64 bits as eight bytes, and of 16 bits as two, the lowest first.

#![tactic(auto)]

ghost use Rattle.std.specs.Prelude.{◌≡◌, take};
ghost use Rattle.little_endian.specs.LittleEndian.{little_endian, from_little, two_bytes};

// The eight bytes of x.
pub fn store(x: u64) -> [u8; 8]
    ensures { result ≡ little_endian 8 x }
{
    x.to_le_bytes()
}

// The number of the first eight bytes, or of all where there are fewer.
pub fn load(bytes: &[u8]) -> u64
    ensures { result ≡ from_little (take 8 bytes.now) }
{
    let count = bytes.len().min(8);
    let mut front = [0; 8];
    front[..count].copy_from_slice(&bytes[..count]);
    join(front)
}

// The number of eight bytes: compiled, it is one load where they stand beside each other.
pub fn join(bytes: [u8; 8]) -> u64
    ensures { result ≡ from_little bytes }
{
    u64::from_le_bytes(bytes)
}

// The number of two bytes.
pub fn join_two(low: u8, high: u8) -> u16
    ensures { result ≡ two_bytes low high }
{
    u16::from_le_bytes([low, high])
}
