ghost use Rattle.std.specs.Prelude.{◌≡◌, ◌+◌, ◌-◌, ◌<◌, ◌^◌, max, false};
ghost use Rattle.radio_bands.specs.declared.band.Band.{Band as SubBand};
ghost use Rattle.resv_tree.specs.Sums.{quarters_in, sum_in};

use crate::sums::Sums;

/// What a node keeps of the tree of which it is the top. The heights of its two sides stand beside its own, so that where one
/// side becomes another one, the other's is known without a look at it. No tree is higher than 33 levels.
#[derive(Clone, Copy)]
pub(crate) struct Kept {
    pub(crate) height: u8,
    pub(crate) left_height: u8,
    pub(crate) right_height: u8,
    /// Whether it may still owe its entry and its two sides a part of their own hours: in each sub-band so much as `greatest`
    /// is above theirs.
    pub(crate) owes: bool,
    pub(crate) count: u32,
    pub(crate) sums: Sums,
    /// The greatest own hour of the tree's members in each sub-band, with all that this node owes.
    pub(crate) greatest: Sums,
}

impl Kept {
    /// What there is to tell of no tree.
    pub(crate) const NONE: Kept = Kept {
        height: 0,
        left_height: 0,
        right_height: 0,
        owes: false,
        count: 0,
        sums: Sums::NONE,
        greatest: Sums::NONE,
    };

    /// What is kept of the tree once one entry more stands in it, of which these are the airtime and the own hour, and its sides
    /// are so high.
    pub(crate) fn grown(
        &self,
        left_height: u8,
        right_height: u8,
        airtime: &Sums,
        own: &Sums,
    ) -> Kept
        requires left { left_height < 255 }
        requires right { right_height < 255 }
        requires count { self.now.count < 2 ^ 32 - 1 }
        requires fits { (band : SubBand) → sum_in self.now.sums band + sum_in airtime.now band < 2 ^ 39 }
        ensures height { result.height ≡ max left_height right_height + 1 }
        ensures left_height { result.left_height ≡ left_height }
        ensures right_height { result.right_height ≡ right_height }
        ensures count { result.count ≡ self.now.count + 1 }
        ensures owes { result.owes ≡ false }
        ensures sums { (band : SubBand) → sum_in result.sums band ≡ sum_in self.now.sums band + sum_in airtime.now band }
        ensures greatest { (band : SubBand) → quarters_in result.greatest band
            ≡ max (quarters_in self.now.greatest band) (quarters_in own.now band) }
    {
        Kept {
            height: left_height.max(right_height) + 1,
            left_height,
            right_height,
            owes: false,
            count: self.count + 1,
            sums: self.sums.plus(airtime),
            greatest: self.greatest.greater(own),
        }
    }
}
