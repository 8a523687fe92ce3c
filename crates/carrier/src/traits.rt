//! What brings letters.
ghost use Rattle.std.specs.Prelude.{◌≡◌, length, Some, IfSome};
ghost use Rattle.ma_io.specs.Count.{Counts};
ghost use Rattle.carrier.specs.Carried.{Carried};
ghost use Rattle.carrier.specs.Post.{is_failed, after_post};
ghost use Rattle.carrier.specs.Take.{is_dry, TakeLeaves, after_take};

use crate::faults::CarrierFault;

/// Takes letters, keeps them, and hands them out one by one, in the order that its caller picks.
///
/// A carrier may tell which letters were posted, which of them wait, and which were handed out, each
/// of the three or none: one that loses or alters letters tells only what it hands out. What it tells
/// it goes on telling. Its two counts never fall; one that stands at 2^64 - 1 counts as raised.
pub trait Carrier {
    /// What the carrier means: the letters posted so far, those that wait, and those handed out so
    /// far, each list from the oldest on and where it tells it; how many posts and takes answered
    /// `Failed`; and how many takes answered `None`.
    ghost carried: { Self → Carried };

    /// Posts a letter. After `Ok` it is the last one of those posted and of those that wait; after a
    /// fault all lists are as before. `Failed` raises `faults`, and no other answer moves a count.
    fn post(&mut self, bytes: Vec<u8>) -> Result<(), CarrierFault>
        ensures faults { Counts (is_failed result) (carried self.old).faults (carried self.new).faults }
        ensures dry { (carried self.new).dry ≡ (carried self.old).dry }
        ensures posted { IfSome (carried self.old).posted (λ old. (carried self.new).posted ≡ Some (after_post old bytes.items result)) }
        ensures held { IfSome (carried self.old).held (λ old. (carried self.new).held ≡ Some (after_post old bytes.items result)) }
        ensures given { (carried self.new).given ≡ (carried self.old).given };

    /// Removes a letter of those that wait and hands it out: of n letters the one at place
    /// `pick mod n`, counted from the oldest. `None` where none waits. `None` raises `dry`, `Failed`
    /// raises `faults`, and no other answer moves a count. After a fault all lists are as before.
    fn take(&mut self, pick: u64) -> Result<Option<Vec<u8>>, CarrierFault>
        ensures faults { Counts (is_failed result) (carried self.old).faults (carried self.new).faults }
        ensures dry { Counts (is_dry result) (carried self.old).dry (carried self.new).dry }
        ensures posted { (carried self.new).posted ≡ (carried self.old).posted }
        ensures held { IfSome (carried self.old).held (λ old. TakeLeaves old pick (carried self.new).held result) }
        ensures given { IfSome (carried self.old).given (λ old. (carried self.new).given ≡ Some (after_take old result)) };

    /// How many letters wait. Takes no memory.
    fn waiting(&self) -> u64
        ensures { IfSome (carried self.now).held (λ held. result ≡ length held) };
}
