// Packet sequence numbers and message sequence numbers: two kinds of 24-bit number that never
// stand for each other.
#![tactic(auto)]

ghost use Rattle.std.specs.Prelude.{◌≡◌};
ghost use Rattle.sequence.specs.Sequence.{distance, psn_after, msn_next, psn_class};

// The number of a packet.
#[derive(Clone, Copy, Default)]
pub struct Psn(pub u32);

// The number of messages completed.
#[derive(Clone, Copy, Default)]
pub struct Msn(pub u32);

// What a packet's number is beside the expected one.
#[derive(Clone, Copy)]
pub enum Class {
    Expected,
    Ahead,
    Duplicate,
}

impl Psn {
    pub const SPACE: u32 = 16777216;

    pub const HALF: u32 = 8388608;

    pub const FIRST: Psn = Psn(0);

    pub const LAST: Psn = Psn(16777215);

    // How far this number lies past `from`, going up and around.
    pub fn distance(self, from: Psn) -> u32
        ensures { result ≡ distance self.0 from.0 }
    {
        (self.0 % Psn::SPACE + Psn::SPACE - from.0 % Psn::SPACE) % Psn::SPACE
    }

    // The number n further on.
    pub fn after(self, n: usize) -> Psn
        ensures { result ≡ psn_after self n }
    {
        let step = (n % Psn::SPACE as usize) as u32;
        Psn((self.0 % Psn::SPACE + step) % Psn::SPACE)
    }

    // The next number: after the last comes the first.
    pub fn next(self) -> Psn
        ensures { result ≡ psn_after self 1 }
    {
        let n = self.0 % Psn::SPACE;
        if n == Psn::LAST.0 {
            return Psn::FIRST;
        }
        Psn(n + 1)
    }

    // What this number is beside the expected one.
    #[tactic(auto, unfolding(crate::specs::Sequence::psn_class, crate::specs::Sequence::class_at))]
    pub fn class(self, expected: Psn) -> Class
        ensures { result ≡ psn_class self.0 expected.0 }
    {
        match self.distance(expected) {
            0 => Class::Expected,
            1..=Psn::HALF => Class::Ahead,
            _ => Class::Duplicate,
        }
    }
}

impl Msn {
    pub const SPACE: u32 = 16777216;

    // The count after one more message.
    pub fn next(self) -> Msn
        ensures { result ≡ msn_next self }
    {
        Msn((self.0 % Msn::SPACE + 1) % Msn::SPACE)
    }
}
