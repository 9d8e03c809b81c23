//! Quiet ticks.

ghost use Rattle.std.specs.Prelude.{◌≤◌, ◌≡◌};
ghost use Rattle.fol_slots.specs.Table.{slots_id};
ghost use Rattle.fol_offers.specs.InTurn.{IsFree};
ghost use Rattle.fol_offers.specs.PassedTicks.{PassesMany};
ghost use Rattle.fol_offers.specs.Shown.{PassesOver};

use crate::offer::Offer;
use crate::offers::Offers;
use fol_slots::Slots;

impl Offers {
    /// Begins and ends quiet ticks of any regions that owe one and are not offered, as `Core::pass`, by a worker that has no open tick: those of this
    /// region first. Goes on as long as a tick was passed, but at most `most` are. Where the tick of the region is offered, it is called back
    /// first; where a worker has claimed it, its Begin is recorded, and no tick is passed.
    pub fn pass(&mut self, slots: &Slots<Offer>, by: u32, region: u64, most: u32) -> u32
        requires own { self.old.slots ≡ slots_id slots.now }
        requires free { IsFree self.old.workers self.old.core.history by }
        ensures few { result ≤ most }
        ensures passed { PassesOver self.old self.new by region result }
    {
        let front = self.front();
        self.call_back_one(slots, by, region);
        if self.front() > front {
            return 0;
        }
        self.pass_owing(by, region, most)
    }

    /// Passes quiet ticks of the regions that owe one and are not offered, of `first` first.
    fn pass_owing(&mut self, by: u32, first: u64, most: u32) -> u32
        requires free { IsFree self.old.workers self.old.core.history by }
        ensures few { result ≤ most }
        ensures slots { self.new.slots ≡ self.old.slots }
        ensures workers { self.new.workers ≡ self.old.workers }
        ensures passed { PassesMany self.old.core self.new.core by result }
    {
        let mut next = first;
        let mut done = 0;
        'regions: while done < most {
            let passed = self.pass_next(by, next, most - done);
            if passed == 0 {
                return done;
            }
            done += passed;
            next = 0;
        }
        done
    }

    /// Passes quiet ticks of one region that owes one and is not offered, which is `first` where that is one.
    fn pass_next(&mut self, by: u32, first: u64, most: u32) -> u32
        requires free { IsFree self.old.workers self.old.core.history by }
        ensures few { result ≤ most }
        ensures slots { self.new.slots ≡ self.old.slots }
        ensures workers { self.new.workers ≡ self.old.workers }
        ensures passed { PassesMany self.old.core self.new.core by result }
        ensures free { IsFree self.new.workers self.new.core.history by }
    {
        let _before = self.core.history();
        let Some(region) = self.core.next_owing(first) else {
            return 0;
        };
        let passed = self.core.pass(by, region, most);
        let _entries = self.core.history();
        passed
    }
}
