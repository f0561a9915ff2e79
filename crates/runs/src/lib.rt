// Runs: how many bytes of a text, from the first on, belong to an alphabet.

#![tactic(auto)]

ghost use Rattle.std.specs.Prelude.{◌≡◌, ℕ, ◌≤◌, Bool, not, length, ◌==◌};
ghost use Rattle.std.specs.List.{prefix_len};

// Which bytes belong. A trait and no closure: the clause of `run_length` names its test, `admits`.
pub trait Alphabet {
    ghost admits: { ℕ → Bool };

    fn contains(byte: u8) -> bool
        ensures admits { result ≡ admits byte };
}

// All bytes but one.
pub struct AllBut<const BYTE: u8>;

impl<const BYTE: u8> Alphabet for AllBut<BYTE> {
    ghost admits = { λ byte. not (byte == BYTE) };

    fn contains(byte: u8) -> bool {
        byte != BYTE
    }
}

// The length of the longest front of which every byte belongs to the alphabet.
pub fn run_length<A: Alphabet>(text: &[u8]) -> usize
    ensures run { result ≡ prefix_len A.Alphabet.admits text.now }
    ensures within { result ≤ length text.now }
{
    text.iter().take_while(|byte| A::contains(**byte)).count()
}
