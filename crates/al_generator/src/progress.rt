//! What the generator draws.
ghost use Rattle.std.specs.Prelude.{◌≡◌, ◌<◌};
ghost use Rattle.al_generator.specs.Draws.{after_draw, after_hand, begin, drawn, hand, next, user};

use al_base::Address;

/// How far a generator is.
#[derive(Clone, Copy, Debug, PartialEq, Eq)]
pub struct Progress {
    /// What the next draw is made from.
    pub x: u64,
    /// How many transactions there are.
    pub count: u64,
    /// The asset created last.
    pub asset: Option<u64>,
    /// The application.
    pub app: Option<u64>,
}

/// What a turn draws.
#[derive(Clone, Copy, Debug, PartialEq, Eq)]
pub struct Hand {
    /// What the turn is to make, from 0 to 7.
    pub kind: u64,
    /// Who sends it.
    pub sender: Address,
    /// Who is paid, where it is a payment.
    pub receiver: Address,
    /// An amount, a choice or a name, below 1,000.
    pub value: u64,
}

/// A user, of 32.
pub(crate) fn user(i: u64) -> Address
    requires { i < 32 }
    ensures { result ≡ user i }
{
    Address([16 + i as u8; 32])
}

impl Progress {
    /// Before the first block.
    pub(crate) fn begin(number: u64) -> Progress
        ensures { result ≡ begin number }
    {
        Progress {
            x: number,
            count: 0,
            asset: None,
            app: None,
        }
    }

    /// One draw.
    pub(crate) fn draw(&mut self) -> u64
        ensures state { self.new ≡ after_draw self.old }
        ensures value { result ≡ drawn (next self.old.x) }
    {
        self.x = self
            .x
            .wrapping_mul(6_364_136_223_846_793_005)
            .wrapping_add(1_442_695_040_888_963_407);
        self.x >> 33
    }

    /// What a turn draws: always all four.
    pub(crate) fn hand(&mut self) -> Hand
        ensures state { self.new ≡ after_hand self.old }
        ensures hand { result ≡ hand self.old.x }
        ensures small { result.value < 1000 }
    {
        let kind = self.draw() % 8;
        let sender = user(self.draw() % 32);
        let receiver = user(self.draw() % 32);
        let value = self.draw() % 1_000;
        Hand {
            kind,
            sender,
            receiver,
            value,
        }
    }
}
