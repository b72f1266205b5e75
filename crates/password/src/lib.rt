// The password check (01, "A serial session"; 003).
#![tactic(auto)]

ghost use Rattle.std.specs.Prelude.{◌≡◌};
ghost use Rattle.octets.specs.Same.{same};
ghost use Rattle.password.specs.Passing.{allowed_half, legal, passes};

// Whether a half word is neither 0x0000 nor 0xFFFF.
fn is_allowed(half: u16) -> bool
    ensures { result ≡ allowed_half half }
{
    (half != 0) & (half != 0xFFFF)
}

// Whether none of the four half words is 0x0000 or 0xFFFF, in one pass (02, E3), in which none waits for another (docs/DECISIONS.md, 71). They are read by
// their places: of a `fold` the proof did not close, and `all` ends early.
fn is_legal(password: [u8; 8]) -> bool
    ensures { result ≡ legal password }
{
    let mut allowed = true;
    for i in 0..4 {
        allowed &= is_allowed(octets::half(&password, 2 * i));
    }
    allowed
}

// Whether two passwords have the same bytes. All 8 are read whatever they hold, so that the time taken does not tell how many are
// equal.
// The loop reads by an index: the gate's step `no_early_exit` wants no other branch here and no call, and an iterator brings both.
fn is_same(a: [u8; 8], b: [u8; 8]) -> bool
    ensures { result ≡ same a b }
{
    let mut differences: u8 = 0;
    for i in 0..8 {
        differences |= a[i] ^ b[i];
    }
    differences == 0
}

// Whether a received password is legal and equal to the selected one. Both are asked of every password, for the same step of the gate.
#[tactic(auto, unfolding(crate::specs::Passing::passes))]
pub fn check(received: [u8; 8], selected: [u8; 8]) -> bool
    ensures { result ≡ passes received selected }
{
    is_legal(received) & is_same(received, selected)
}
