// Items written over the first places of a slice, those from a place on moved to its start, and eight bytes read.
#![tactic(auto)]

ghost use Rattle.std.specs.Prelude.{◌≡◌, ◌-◌, length, drop};
ghost use Rattle.octets.specs.Read.{first_eight};
ghost use Rattle.buffers.specs.Write.{over, filled};

// Writes items over the first places of a slice, or nothing where there is no room for them.
#[tactic(auto, unfolding(crate::specs::Write::filled))]
pub fn fill<T: Copy>(out: &mut [T], items: &[T])
    ensures { out.new ≡ filled items.now out.old }
{
    if items.len() <= out.len() {
        let (first, _) = out.split_at_mut(items.len());
        first.copy_from_slice(items);
    }
}

// The first eight bytes, as `octets::first_eight` has them. It stands beside that for speed (docs/PERFORMANCE.md): one byte and eight, which most items
// have, are moved as a whole.
pub fn eight_of(bytes: &[u8]) -> [u8; 8]
    ensures { result ≡ first_eight bytes.now }
{
    if let [only] = bytes {
        return [*only, 0, 0, 0, 0, 0, 0, 0];
    }
    if let Some(eight) = bytes.as_array() {
        return *eight;
    }
    octets::first_eight(bytes)
}

// Moves the bytes from a place on to the start, and returns how many they are. The places behind them keep theirs.
pub fn slide(s: &mut [u8], from: usize) -> usize
    ensures count { result ≡ length s.old - from }
    ensures contents { s.new ≡ over (drop from s.old) s.old }
{
    if from <= s.len() {
        s.copy_within(from.., 0);
    }
    octets::difference(s.len(), from)
}
