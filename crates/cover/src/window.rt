// A window of a tree, and its pieces.
ghost use Rattle.std.specs.Prelude.{◌≡◌, false, ◌-◌, get_or, IfNone, IfSome, IfOk};
ghost use Rattle.base.specs.rules.Choice.{choose};
ghost use Rattle.base.specs.rules.Refusals.{number_in};
ghost use Rattle.cover.specs.rules.Answer.{levels_outside, window_outside, pieces_of};
ghost use Rattle.cover.specs.rules.Search.{least_cover};
ghost use Rattle.cover.specs.laws.Rise.{rise};
ghost use Rattle.cover.specs.laws.Lowest.{lowest, Window};
ghost use Rattle.cover.specs.laws.Code.{lowest_piece, cut_unit, not_cover};

use crate::{Numbers, Pieces};
use base::Refusal;

// The units [left, right) of a tree with so many levels.
#[derive(Clone, Copy)]
pub struct TreeWindow {
    levels: u64,
    left: u64,
    right: u64,
    ghost within: { Window levels left right },
}

// A node and its over-cover.
#[derive(Clone, Copy)]
pub struct Piece {
    pub node: u64,
    pub over: u64,
}

impl TreeWindow {
    ghost use Rattle.cover.specs.laws.Parts.{Parts};

    // Where it is known to be a window of the tree.
    pub fn known(h: u64, l: u64, r: u64) -> TreeWindow
        requires { Window h l r }
        ensures levels { result.levels ≡ h }
        ensures left { result.left ≡ l }
        ensures right { result.right ≡ r }
    {
        TreeWindow {
            levels: h,
            left: l,
            right: r,
        }
    }

    // "it tests 1 for H, then 7". The range of the levels is stated where it is tested.
    pub fn tested(h: u64, l: u64, r: u64) -> Result<TreeWindow, Refusal>
        ensures refused { number_in result ≡ choose (levels_outside h) 1 (choose (window_outside h l r) 7 0) }
        ensures window { IfOk result (λ w. (w.levels ≡ h) × (w.left ≡ l) × (w.right ≡ r)) }
    {
        if (h < 2) | (12 < h) {
            return Err(Refusal::Settings);
        }
        if crate::outside(h, l, r) {
            return Err(Refusal::Window);
        }
        Ok(TreeWindow::known(h, l, r))
    }

    // How many levels above the leaves its first and last unit lie in one node: the pairs of bits up to the highest in which their leaves' places differ. (None
    // may differ, and 0 has no `ilog2`.)
    #[tactic(auto, unfolding(crate::specs::laws::Rise::rise))]
    fn rise(self) -> u64
        ensures { result ≡ rise self.left (self.right - 1) }
    {
        (65 - u64::leading_zeros((self.left >> 6) ^ ((self.right - 1) >> 6))) as u64 / 2
    }

    // The lowest node that has all of it. The count of the nodes before a level loses two bits at each level up, as a unit's place does: so no
    // division or product is left beside that of the leaves' first number, which is the same for every window.
    fn lowest_node(self) -> u64
        ensures { result ≡ lowest self.levels self.left self.right }
    {
        let up = self.rise();
        ((tree::first_node(self.levels) - 1) >> (2 * up)) + (self.left >> (2 * up + 6)) + 1
    }

    // That node and its over-cover: nothing for a leaf.
    fn lowest(self) -> Piece
        ensures { result ≡ lowest_piece self.levels self.left self.right }
    {
        let up = self.rise();
        let node = self.lowest_node();
        if up == 0 {
            return Piece { node, over: 0 };
        }
        Piece {
            node,
            over: (64u64 << (2 * up)) - (self.right - self.left),
        }
    }

    // The two windows that it is cut into, where its edges lie in neighbouring children of the lowest node that has it.
    fn parts(self) -> Option<(TreeWindow, TreeWindow)>
        ensures whole { IfNone result (cut_unit self.levels self.left self.right ≡ 0) }
        ensures cut { IfSome result (λ w. Parts self w.0 w.1) }
    {
        let rise = self.rise();
        if rise == 0 {
            return None;
        }
        let bits = 2 * rise + 4;
        let child = (self.right - 1) >> bits;
        if child != (self.left >> bits) + 1 {
            return None;
        }
        let unit = child << bits;
        Some((
            TreeWindow::known(self.levels, self.left, unit),
            TreeWindow::known(self.levels, unit, self.right),
        ))
    }

    pub fn pieces(self) -> Pieces
        ensures { result ≡ pieces_of self.levels self.left self.right (least_cover 2 self.levels self.left self.right) }
    {
        match self.parts() {
            None => {
                let piece = self.lowest();
                Pieces {
                    first: piece.node,
                    second: 0,
                    over: piece.over,
                }
            }
            Some((before, after)) => {
                let first = before.lowest();
                let second = after.lowest();
                Pieces {
                    first: first.node,
                    second: second.node,
                    over: first.over + second.over,
                }
            }
        }
    }

    pub fn numbers(self) -> Numbers
        ensures first { result.first ≡ get_or (least_cover 2 self.levels self.left self.right) 0 0 }
        ensures second { result.second ≡ get_or (least_cover 2 self.levels self.left self.right) 1 0 }
    {
        match self.parts() {
            None => Numbers {
                first: self.lowest_node(),
                second: 0,
            },
            Some((before, after)) => Numbers {
                first: before.lowest_node(),
                second: after.lowest_node(),
            },
        }
    }

    // Whether the pieces are not `first` and `second` (0 for none). No over-cover is worked out. A window within one leaf is asked first: its piece is that leaf.
    pub fn other_pieces(self, first: u64, second: u64) -> bool
        ensures { result ≡ not_cover false (least_cover 2 self.levels self.left self.right) first second }
    {
        if self.rise() == 0 {
            return (first != tree::first_node(self.levels) + (self.left >> 6)) | (second != 0);
        }
        match self.parts() {
            None => (first != self.lowest_node()) | (second != 0),
            Some((before, after)) => {
                (first != before.lowest_node()) | (second != after.lowest_node())
            }
        }
    }
}
