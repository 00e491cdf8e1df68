// The cover of a window: the one or two nodes that hold all of it with the least over-cover, in a fixed number of steps.
// The public functions take a window's three numbers one by one, as C's calls and records have them; inside they are a `TreeWindow`.
#![tactic(auto, using(crate::proofs::laws::Pieces::methods))]

ghost use Rattle.std.specs.Prelude.{◌≡◌, not, ◌||◌, ◌≤◌, eqb, get_or};
ghost use Rattle.cover.specs.rules.Answer.{window_outside, answer, pieces_of, answer_of};
ghost use Rattle.cover.specs.rules.Search.{least_cover};
ghost use Rattle.cover.specs.laws.Lowest.{Window};

use base::Refusal;

mod window;

pub use window::Piece;
use window::TreeWindow;

// The pieces of a window and their total over-cover. `second` is 0 for none, as in C's records, into which the three numbers go.
#[derive(Clone, Copy)]
pub struct Pieces {
    pub first: u64,
    pub second: u64,
    pub over: u64,
}

// The numbers of a window's pieces alone. `second` is 0 for none: both go unchanged into C's record of a client.
#[derive(Clone, Copy)]
pub struct Numbers {
    pub first: u64,
    pub second: u64,
}

// What C is told, with the fields that its struct has. number 0: the pieces and their over-cover; else the cause of a refusal, and zeros.
#[repr(C)]
#[derive(Clone, Copy)]
pub struct Answer {
    pub number: u64,
    pub first: u64,
    pub second: u64,
    pub over: u64,
}

impl From<Result<Pieces, Refusal>> for Answer {
    ghost from_gives = { λ covered told. told ≡ answer_of covered };

    #[tactic(auto, unfolding(crate::specs::rules::Answer::refused))]
    fn from(covered: Result<Pieces, Refusal>) -> Answer {
        match covered {
            Ok(pieces) => Answer {
                number: 0,
                first: pieces.first,
                second: pieces.second,
                over: pieces.over,
            },
            Err(refusal) => Answer {
                number: refusal.number(),
                first: 0,
                second: 0,
                over: 0,
            },
        }
    }
}

// Whether [l, r) is no window of the tree.
pub fn outside(h: u64, l: u64, r: u64) -> bool
    requires { (2 ≤ h) × (h ≤ 12) }
    ensures { result ≡ window_outside h l r }
{
    (r <= l) | ((64u64 << (2 * (h - 1))) < r)
}

// The call: it tests the levels, then the window.
pub fn cover(h: u64, l: u64, r: u64) -> Result<Pieces, Refusal>
    ensures { answer_of result ≡ answer h l r }
{
    Ok(TreeWindow::tested(h, l, r)?.pieces())
}

// The pieces of what is known to be a window of the tree.
pub fn window_pieces(h: u64, l: u64, r: u64) -> Pieces
    requires { Window h l r }
    ensures { result ≡ pieces_of h l r (least_cover 2 h l r) }
{
    TreeWindow::known(h, l, r).pieces()
}

// Whether [l, r) is no window of the tree, or its pieces are not `first` and `second`.
pub fn not_cover(h: u64, l: u64, r: u64, first: u64, second: u64) -> bool
    requires { (2 ≤ h) × (h ≤ 12) }
    ensures { result ≡ (window_outside h l r || not (eqb first (get_or (least_cover 2 h l r) 0 0)) || not (eqb second (get_or (least_cover 2 h l r) 1 0))) }
{
    if outside(h, l, r) {
        return true;
    }
    TreeWindow::known(h, l, r).other_pieces(first, second)
}

// The pieces by their numbers alone, as a request keeps them: no over-cover is worked out here either.
pub fn piece_numbers(h: u64, l: u64, r: u64) -> Numbers
    requires { Window h l r }
    ensures first { result.first ≡ get_or (least_cover 2 h l r) 0 0 }
    ensures second { result.second ≡ get_or (least_cover 2 h l r) 1 0 }
{
    TreeWindow::known(h, l, r).numbers()
}
