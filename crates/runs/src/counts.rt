// How many operations a run posts together. A record's phase is a number that C lends, and document 01 names the match on it as its form. The record and the settings stay two arguments, the record by value as in document
// 01, and what is known of them stays in the clauses: a struct of both would be built anew at each phase and place at which posted.rt stands the record, and its facts shown again there.
ghost use Rattle.std.specs.Prelude.{◌≡◌, ◌≤◌, length};
ghost use Rattle.lock.specs.rules.Records.{claim, returning, phase_of};
ghost use Rattle.lock.specs.laws.Placed.{Placed, Sound};
ghost use Rattle.runs.specs.rules.Ahead.{ahead_in, ahead_answer};
ghost use Rattle.runs.specs.laws.AnswerLaws.{ahead_by};

use base::Refusal;
use lock::{Client, Record, Settings, ValidSettings};

// 5: an inner claim with all its notices, a leaf's by itself.
fn claim_count(own: Record, settings: ValidSettings) -> u64
    requires { Placed settings.values own }
    ensures { result ≡ length (ahead_in settings.values own claim) }
{
    let n = own.current_piece();
    let all = 1 + tree::notify_count(settings.values.distance, n);
    if settings.values.is_leaf(n) {
        return 1;
    }
    all
}

// 10: what is left of the piece that is given back, and the piece behind it. "a piece with grip 0 is passed over"
fn return_count(own: Record, settings: ValidSettings) -> u64
    requires { Placed settings.values own × (own.phase ≡ 10) }
    ensures { result ≡ length (ahead_in settings.values own returning) }
{
    let left = own.notices_of(settings.values, own.giving) + 1 - own.place;
    let next = own.giving + 1;
    if own.grip_of(next) == 0 {
        return left;
    }
    left + own.notices_of(settings.values, next) + 1
}

// 1 to 4: the ancestors of the climb are one fewer than the level, and the operations before them.
fn climb_count(own: Record, settings: ValidSettings) -> u64
    requires { Placed settings.values own × (1 ≤ own.phase) × (own.phase ≤ 4) }
    ensures { result ≡ length (ahead_in settings.values own (phase_of own.phase)) }
{
    let d = tree::level(own.current_piece());
    let phase = own.phase;
    match phase {
        1 => 1 + d,
        3 => d - 1 - own.place,
        _ => d,
    }
}

// How many operations the record's run posts.
pub fn count_ahead(own: Record, settings: ValidSettings) -> u64
    requires { Sound settings.values own }
    ensures { result ≡ length (ahead_in settings.values own (phase_of own.phase)) }
{
    let phase = own.phase;
    match phase {
        1 => climb_count(own, settings),
        2 => climb_count(own, settings),
        3 => climb_count(own, settings),
        4 => climb_count(own, settings),
        5 => claim_count(own, settings),
        6 => tree::notify_count(settings.values.distance, own.current_piece()) - own.place,
        8 => {
            let n = own.current_piece();
            tree::check_count(settings.values.levels, settings.values.distance, n) - own.place
        }
        10 => return_count(own, settings),
        _ => 0,
    }
}

// How many operations are posted together. Tests 1, 5, 6; never more than there is room for.
pub fn answer_ahead(
    client: Client,
    settings: Settings,
    clock: u64,
    room: u64,
) -> Result<u64, Refusal>
    ensures { ahead_by result ≡ ahead_answer settings client clock room }
{
    let valid = client.post_tests(settings, clock)?;
    let own = client.record;
    if own.out_of_patience(settings, clock) {
        return Ok(0);
    }
    Ok(room.min(count_ahead(own, valid)))
}
