//! The laws of rows that stay sound.
ghost use Rattle.al_resources.specs.Kept.{AssetsAreSound, CallsAreSound, PaymentsAreSound};

/// A payment keeps rows sound and all money.
pub fn payments_are_sound()
    ensures { PaymentsAreSound }
{}

/// The transactions on assets keep rows sound and all money, and no holding passes the most.
pub fn assets_are_sound()
    ensures { AssetsAreSound }
{}

/// A call of an application keeps rows sound and all money, with all that its account sends.
pub fn calls_are_sound()
    ensures { CallsAreSound }
{}
