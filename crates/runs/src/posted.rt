// The operations that a run posts together, each by its place in their list. A record's phase is a number that C lends, and document 01 names the match on it as its form; why record and settings are two arguments, counts.rt says.
ghost use Rattle.std.specs.Prelude.{◌≡◌, ◌∷◌, suc, ◌<◌, length, get_or};
ghost use Rattle.lock.specs.rules.Records.{ticket, returning, phase_of};
ghost use Rattle.lock.specs.rules.Unreadable.{list_length};
ghost use Rattle.lock.specs.laws.Placed.{Placed, Sound};
ghost use Rattle.runs.specs.rules.Ahead.{standing, walk, ahead_in};
ghost use Rattle.runs.specs.laws.Standing.{no_operation, standing_at};

use lock::{Operation, Record, ValidSettings};

// The operation of a phase at a place of the list that it walks.
fn standing(mut own: Record, settings: ValidSettings, phase: u64, place: u64) -> Operation
    requires { Placed settings.values (standing_at phase place own) }
    ensures { result ≡ standing settings.values own (phase_of phase) place }
{
    own.phase = phase;
    own.place = place;
    own.own_operation(settings)
}

// The operation of a phase, and behind it those of the list that another phase walks.
fn before_list(
    own: Record,
    settings: ValidSettings,
    phase: u64,
    place: u64,
    list: u64,
    i: u64,
) -> Operation
    requires { Placed settings.values own × Placed settings.values (standing_at phase place own) × (i < suc (list_length settings.values own (phase_of list))) }
    ensures { result ≡ get_or (standing settings.values own (phase_of phase) place ∷ walk settings.values own (phase_of list) 0) i no_operation }
{
    if i == 0 {
        return standing(own, settings, phase, place);
    }
    standing(own, settings, list, i - 1)
}

// 1: the ticket, its turn's reading, and the climb.
fn behind_ticket(own: Record, settings: ValidSettings, i: u64) -> Operation
    requires { Placed settings.values own × (i < length (ahead_in settings.values own ticket)) }
    ensures { result ≡ get_or (ahead_in settings.values own ticket) i no_operation }
{
    if i == 0 {
        return standing(own, settings, 1, 0);
    }
    before_list(own, settings, 2, 0, 3, i - 1)
}

// 10: what is left of the piece that is given back, then the piece behind it.
fn given_back(mut own: Record, settings: ValidSettings, i: u64) -> Operation
    requires { Placed settings.values own × (own.phase ≡ 10) × (i < length (ahead_in settings.values own returning)) }
    ensures { result ≡ get_or (ahead_in settings.values own returning) i no_operation }
{
    let left = own.notices_of(settings.values, own.giving) + 1 - own.place;
    if i < left {
        return standing(own, settings, 10, own.place + i);
    }
    own.giving = own.giving + 1;
    standing(own, settings, 10, i - left)
}

// The operation at place i of those that the record's run posts.
pub fn operation_ahead(own: Record, settings: ValidSettings, i: u64) -> Operation
    requires { Sound settings.values own × (i < length (ahead_in settings.values own (phase_of own.phase))) }
    ensures { result ≡ get_or (ahead_in settings.values own (phase_of own.phase)) i no_operation }
{
    let phase = own.phase;
    let place = own.place;
    match phase {
        1 => behind_ticket(own, settings, i),
        2 => before_list(own, settings, 2, 0, 3, i),
        4 => before_list(own, settings, 4, place, 3, i),
        5 => before_list(own, settings, 5, 0, 6, i),
        10 => given_back(own, settings, i),
        _ => standing(own, settings, phase, place + i),
    }
}
