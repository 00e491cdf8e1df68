// How many steps a window needs on an otherwise idle tree, worked out from its pieces: no word is touched. H, m and the edges come one by one, as C asks by them.
ghost use Rattle.std.specs.Prelude.{◌≡◌, ◌≤◌};
ghost use Rattle.tree.specs.rules.Tree.{Node};
ghost use Rattle.lock.specs.rules.StepCount.{step_count_by, step_count_answer};
ghost use Rattle.lock.specs.laws.PieceSteps.{piece_steps, pieces_steps};

use crate::StepCount;
use crate::outside::levels_or_distance_outside;
use base::Refusal;

// What a piece needs: a step for each ancestor and one for the claim, as many as its level; one for each notice; and for an inner node also the ticket, the turn, the wait and
// one for each node of its check list.
fn piece_steps(h: u64, m: u64, n: u64) -> u64
    requires { (h ≤ 12) × (1 ≤ m) × (m ≤ 4) × Node h n }
    ensures { result ≡ piece_steps h m n }
{
    let d = tree::level(n);
    let notified = d + tree::notify_count(m, n);
    if d == h {
        return notified;
    }
    notified + 3 + tree::check_count(h, m, n)
}

// What the pieces of a window need together, second 0 for none, as in C's records and rows, from which it comes.
pub fn pieces_steps(h: u64, m: u64, first: u64, second: u64) -> u64
    requires { (h ≤ 12) × (1 ≤ m) × (m ≤ 4) × Node h first × ((second ≡ 0 → ⊥) → Node h second) }
    ensures { result ≡ pieces_steps h m first second }
{
    let own = piece_steps(h, m, first);
    if second == 0 {
        return own;
    }
    own + piece_steps(h, m, second)
}

// Tests 1 for the levels and the distance, then 7.
pub fn step_count(h: u64, m: u64, l: u64, r: u64) -> Result<u64, Refusal>
    ensures { step_count_by result ≡ step_count_answer h m l r }
{
    if levels_or_distance_outside(h, m) {
        return Err(Refusal::Settings);
    }
    if cover::outside(h, l, r) {
        return Err(Refusal::Window);
    }
    let pieces = cover::piece_numbers(h, l, r);
    Ok(pieces_steps(h, m, pieces.first, pieces.second))
}

// The C interface has the number and the steps beside each other.
impl From<Result<u64, Refusal>> for StepCount {
    ghost from_gives = { λ counted answer. answer ≡ step_count_by counted };

    fn from(counted: Result<u64, Refusal>) -> StepCount {
        match counted {
            Ok(steps) => StepCount { number: 0, steps },
            Err(refusal) => StepCount {
                number: refusal.number(),
                steps: 0,
            },
        }
    }
}
