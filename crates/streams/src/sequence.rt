// Sequence numbers of 16 bits: after 65,535 comes 0.
ghost use Rattle.std.specs.Prelude.{◌≡◌};
ghost use Rattle.streams.specs.Sequence.{plus, minus, seq_lt};

// The number `steps` behind `seq`.
pub fn seq_add(seq: u16, steps: u16) -> u16
    ensures { result ≡ plus seq steps }
{
    seq.wrapping_add(steps)
}

// How far `a` lies behind `b`, going up from `b` and past 65,535 to 0.
pub fn seq_sub(a: u16, b: u16) -> u16
    ensures { result ≡ minus a b }
{
    a.wrapping_sub(b)
}

// Whether `a` comes before `b`. At distance 32,768 each comes before the other.
#[tactic(auto, unfolding(crate::specs::Sequence::seq_lt))]
pub fn seq_lt(a: u16, b: u16) -> bool
    ensures { result ≡ seq_lt a b }
{
    32767 < seq_sub(a, b)
}
