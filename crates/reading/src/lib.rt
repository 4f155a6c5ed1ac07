// Reading: what the bytes at a place stand for. A byte beyond the end counts as 0, so there is an answer at every place, and nothing is refused here.
#![tactic(auto)]

ghost use Rattle.std.specs.Prelude.{◌≡◌, ◌<◌, ◌-◌, ◌^◌};
ghost use Rattle.layout.specs.Bytes.{byte_at, u16_at, u32_at, i32_at, six_of};
ghost use Rattle.layout.specs.Parts.{entry_from};
ghost use Rattle.layout.specs.Recordings.{f64_at};

fn byte_at(bytes: &[u8], at: usize) -> u8
    ensures { result ≡ byte_at bytes.now at }
{
    bytes.get(at).copied().unwrap_or(0)
}

// The byte at a place as a number.
pub fn u8_at(bytes: &[u8], at: usize) -> u32
    ensures { result ≡ byte_at bytes.now at }
{
    u32::from(byte_at(bytes, at))
}

// The two bytes at a place as a number, the lowest first.
#[tactic(auto, unfolding(layout::specs::Bytes::u16_at))]
fn u16_at(bytes: &[u8], at: usize) -> u16
    requires { at < 2 ^ 64 - 1 }
    ensures { result ≡ u16_at bytes.now at }
{
    u16::from_le_bytes([byte_at(bytes, at), byte_at(bytes, at + 1)])
}

// The four bytes at a place likewise.
#[tactic(auto, using(crate::proofs::Beyond::none_there), unfolding(layout::specs::Bytes::u32_at))]
pub fn u32_at(bytes: &[u8], at: usize) -> u32
    ensures { result ≡ u32_at bytes.now at }
{
    if bytes.len() <= at {
        return 0;
    }
    u32::from_le_bytes([
        byte_at(bytes, at),
        byte_at(bytes, at + 1),
        byte_at(bytes, at + 2),
        byte_at(bytes, at + 3),
    ])
}

// The six numbers of a triangle, each by its 32 bits.
#[tactic(auto, unfolding(layout::specs::Bytes::six_of))]
pub fn six_of(bytes: &[u8; 24]) -> [u32; 6]
    ensures { result ≡ six_of bytes.now }
{
    [
        u32_at(bytes, 0),
        u32_at(bytes, 4),
        u32_at(bytes, 8),
        u32_at(bytes, 12),
        u32_at(bytes, 16),
        u32_at(bytes, 20),
    ]
}

// The twelve bytes at a place as a table entry.
#[tactic(auto, using(crate::proofs::Beyond::no_entry), unfolding(layout::specs::Parts::entry_from))]
pub fn entry_at(bytes: &[u8], at: usize) -> layout::Entry
    ensures { (result ≡ entry_from bytes.now at) × (result.count < 65536) }
{
    if bytes.len() <= at {
        return layout::Entry {
            id: 0,
            first: 0,
            count: 0,
            set: 0,
            last: 0,
        };
    }
    layout::Entry {
        id: u32_at(bytes, at),
        first: u32_at(bytes, at + 4),
        count: u32::from(u16_at(bytes, at + 8)),
        set: u8_at(bytes, at + 10),
        last: u8_at(bytes, at + 11),
    }
}

// The coordinate at a place of a file or of a part, as it is stored.
pub fn i32_at(bytes: &[u8], at: usize) -> i32
    ensures { result ≡ i32_at bytes.now at }
{
    u32_at(bytes, at).cast_signed()
}

// The same as f64, unchanged.
pub fn f64_at(bytes: &[u8], at: usize) -> f64
    ensures { result ≡ f64_at bytes.now at }
{
    i32_at(bytes, at) as f64
}
